// One window, and its list in the nodes.
ghost use Rattle.std.specs.Prelude.{◌≡◌, ℕ, ◌+◌, ◌<◌, ◌≤◌, ◌^◌, ◌↔◌, IsNone, IfSome};
ghost use Rattle.min_lists.specs.Nodes.{trip_at};
ghost use Rattle.min_lists.specs.Links.{IsBefore, AreLinked, IsList, Enters, lows_between};

use crate::nodes::Nodes;
use std::sync::ledger::Ledger;
use step_count::Steps;

/// The indices from `from` to below `to`.
#[derive(Clone, Copy)]
pub struct Window {
    pub from: u64,
    pub to: u64,
    /// The first of least round trip, where there is one.
    pub head: u64,
}

impl Window {
    /// Holds nothing, and ends before the first index.
    pub fn empty() -> Window
        ensures from { result.from ≡ 0 }
        ensures to { result.to ≡ 0 }
    {
        Window {
            from: 0,
            to: 0,
            head: 0,
        }
    }

    // With one more index, and the first of least round trip there.
    #[inline(always)]
    fn longer(self, head: u64) -> Window
        requires { self.to < 2 ^ 62 }
        ensures from { result.from ≡ self.from }
        ensures to { result.to ≡ self.to + 1 }
        ensures head { result.head ≡ head }
    {
        Window {
            from: self.from,
            to: self.to + 1,
            head,
        }
    }

    // One more than the index of the latest round trip in the window that isn't above the next one.
    // At most the left end where there is none.
    #[inline(always)]
    fn before_next<L: Ledger>(self, nodes: &Nodes, place: usize, steps: &mut Steps<L>) -> u64
        requires place { place < 6 }
        requires linked { AreLinked nodes.now place self }
        ensures before { IsBefore (trip_at nodes.now) self.from self.to result }
        ensures forward { steps.old ≤ steps.new }
        ensures cost { steps.new + lows_between nodes.now self.from result
            ≤ steps.old + lows_between nodes.now self.from self.to + 1 }
    {
        let trip = nodes.trip(self.to);
        let mut before = self.to;
        while before > self.from {
            let last = before - 1;
            if nodes.trip(last).is_at_most(trip, steps) {
                break;
            }
            before = nodes.link(place, last).before;
        }
        before
    }

    // Ends the list with the next index, behind `last`.
    #[inline(always)]
    fn link_behind(self, nodes: &mut Nodes, place: usize, last: u64) -> Window
        requires place { place < 6 }
        requires linked { AreLinked nodes.old place self }
        requires near { self.to < self.from + 1024 }
        requires fits { self.to < 2 ^ 62 }
        requires last { self.from ≤ last }
        requires before { IsBefore (trip_at nodes.old) self.from self.to (last + 1) }
        ensures { Enters nodes.old nodes.new place self result }
    {
        nodes.set_before(place, self.to, last + 1);
        nodes.set_after(place, last, self.to);
        self.longer(self.head)
    }

    // Begins the list anew with the next index, since all that are in the window are above it.
    #[inline(always)]
    fn link_alone(self, nodes: &mut Nodes, place: usize, before: u64) -> Window
        requires place { place < 6 }
        requires linked { AreLinked nodes.old place self }
        requires near { self.to < self.from + 1024 }
        requires fits { self.to < 2 ^ 62 }
        requires above { before ≤ self.from }
        requires before { IsBefore (trip_at nodes.old) self.from self.to before }
        ensures { Enters nodes.old nodes.new place self result }
    {
        nodes.set_before(place, self.to, before);
        self.longer(self.to)
    }

    /// With the next index, which ends the list behind the last that isn't above it.
    #[inline(always)]
    pub fn enter<L: Ledger>(self, nodes: &mut Nodes, place: usize, steps: &mut Steps<L>) -> Window
        requires place { place < 6 }
        requires linked { AreLinked nodes.old place self }
        requires near { self.to < self.from + 1024 }
        requires fits { self.to < 2 ^ 62 }
        ensures enters { Enters nodes.old nodes.new place self result }
        ensures forward { steps.old ≤ steps.new }
        ensures cost { steps.new + lows_between nodes.new result.from result.to
            ≤ steps.old + lows_between nodes.old self.from self.to + 2 }
    {
        let before = self.before_next(nodes, place, steps);
        if before > self.from {
            self.link_behind(nodes, place, before - 1)
        } else {
            self.link_alone(nodes, place, before)
        }
    }

    /// With a later left end. The list begins where it has the first index from there on.
    #[inline(always)]
    pub fn cut(self, nodes: &Nodes, place: usize, from: u64) -> Window
        requires place { place < 6 }
        requires linked { AreLinked nodes.now place self }
        requires forward { self.from ≤ from }
        requires within { from ≤ self.to }
        ensures from { result.from ≡ from }
        ensures to { result.to ≡ self.to }
        ensures list { (count : ℕ) → IsList nodes.now count place self →
            IsList nodes.now count place result }
    {
        let mut head = self.head;
        if from < self.to {
            while head < from {
                head = nodes.link(place, head).after;
            }
        }
        Window {
            from,
            to: self.to,
            head,
        }
    }

    /// The first of least round trip. `None` comes where the window is empty.
    #[inline(always)]
    pub fn least(self) -> Option<u64>
        ensures none { IsNone result ↔ (self.to ≤ self.from) }
        ensures head { IfSome result (λ i. (self.from < self.to) × (i ≡ self.head)) }
    {
        if self.from < self.to {
            Some(self.head)
        } else {
            None
        }
    }
}
