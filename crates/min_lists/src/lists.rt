// Six windows over round trips.
ghost use Rattle.std.specs.Prelude.{◌≡◌, ℕ, ◌+◌, ◌<◌, ◌≤◌, ◌^◌, List, [], ◌∷◌, ◌++◌, ◌↔◌, IsNone, IfOk, IfSome};
ghost use Rattle.min_lists.specs.Lists.{StandsFor, IsMinimumOf, IsIn, nothing, window, with_trip, with_next, with_start, credit};
ghost use Rattle.min_lists.specs.Runs.{Does, Add, Enter, Cut};

use crate::nodes::Nodes;
use crate::trips::Trip;
use crate::which::Which;
use crate::windows::Window;
use ff_grain::NoMemory;
use std::alloc::Global;
use std::marker::Model;
use std::sync::ledger::Ledger;
use step_count::Steps;

/// The last 1,024 round trips that were added, and six windows over them.
///
/// A window has the indices from its left end to below its right end. Both only rise.
#[derive(Drop)]
pub struct Lists {
    nodes: Nodes,
    count: u64,
    windows: [Window; 6],
}

impl Model for Lists {
    ghost use Rattle.min_lists.specs.Lists.{Kept};
    ghost use Rattle.min_lists.specs.Links.{kept_in, AreLists};

    ghost Value = { Kept };

    ghost view = { λ l. kept_in l.nodes l.count l.windows };

    ghost invariant = { λ l. AreLists l.nodes l.count l.windows };
}

impl Lists {
    /// No round trips, and six windows that are empty at 0.
    ///
    /// It takes all its memory here, and want of it is the only error.
    pub fn new(alloc: Global) -> Result<Lists, NoMemory>
        ensures kept { IfOk result (λ l. l ≡ nothing) }
        ensures stands { IfOk result (λ l. StandsFor l []) }
        ensures credit { IfOk result (λ l. credit l ≡ 0) }
    {
        Ok(Lists {
            nodes: Nodes::new(alloc)?,
            count: 0,
            windows: [Window::empty(); 6],
        })
    }

    /// Adds a round trip, in counts. It gets the next index, and no window has it yet.
    ///
    /// No window may still have the index 1,024 before it, whose round trip goes.
    #[inline(always)]
    pub fn add(&mut self, rtt: u64)
        requires few { self.old.count < 2 ^ 62 }
        requires gone { (which : Which) (i : ℕ) → i + 1024 ≡ self.old.count →
            ¬ IsIn (window self.old which) i }
        ensures kept { self.new ≡ with_trip self.old rtt }
        ensures stands { (all : List ℕ) → StandsFor self.old all →
            StandsFor self.new (all ++ rtt ∷ []) }
        ensures does { Does self.old (Add rtt) self.new }
        ensures credit { credit self.new ≡ credit self.old }
    {
        self.nodes.set_trip(self.count, Trip::new(rtt));
        self.count += 1;
    }

    /// Lets the next index enter a window at its right end.
    ///
    /// A step is one comparison of two round trips. The steps and the credit together rise by two
    /// at most, so in the long run an index takes two steps.
    #[inline(always)]
    pub fn enter<L: Ledger>(&mut self, which: Which, steps: &mut Steps<L>)
        requires added { (window self.old which).to < self.old.count }
        requires kept { self.old.count ≤ (window self.old which).to + 1024 }
        ensures kept { self.new ≡ with_next self.old which }
        ensures stands { (all : List ℕ) → StandsFor self.old all → StandsFor self.new all }
        ensures does { Does self.old (Enter which steps.old steps.new) self.new }
        ensures credit { steps.new + credit self.new ≤ steps.old + credit self.old + 2 }
    {
        let place = which.place();
        self.windows[place] = self.windows[place].enter(&mut self.nodes, place, steps);
    }

    /// Raises the left end of a window.
    #[inline(always)]
    pub fn cut(&mut self, which: Which, from: u64)
        requires forward { (window self.old which).from ≤ from }
        requires within { from ≤ (window self.old which).to }
        ensures kept { self.new ≡ with_start self.old which from }
        ensures stands { (all : List ℕ) → StandsFor self.old all → StandsFor self.new all }
        ensures does { Does self.old (Cut which from) self.new }
        ensures credit { credit self.new ≤ credit self.old }
    {
        let place = which.place();
        self.windows[place] = self.windows[place].cut(&self.nodes, place, from);
    }

    /// The first index of least round trip in a window. `None` comes where it is empty.
    #[inline(always)]
    pub fn least(&self, which: Which) -> Option<u64>
        ensures none { IsNone result ↔ ((window self.now which).from ≡ (window self.now which).to) }
        ensures least { (all : List ℕ) → StandsFor self.now all →
            IfSome result (IsMinimumOf all (window self.now which)) }
    {
        self.windows[which.place()].least()
    }
}
