// The wheel: timers by place, and the places that have none.
ghost use Rattle.std.specs.Prelude.{◌≡◌, ℕ, ◌↔◌, ◌<◌, ◌≤◌, ◌^◌, if◌then◌else◌, Some, None, IsTrue, IsErr, IfOk, IfErr, IfSome, IsNone, IsSome};
ghost use Rattle.ff_grain.specs.Grains.{grains_of};
ghost use Rattle.callouts.specs.Timers.{room, live, no_timers, timer_in, with_timer, without, IsOf, Lives, IsDue, Fires, NoneDue};

use crate::slots::Slots;
use crate::timers::{Entry, Fired, Timer, WheelFull};
use ff_grain::{Bintime, NoMemory};
use std::alloc::Global;
use std::marker::Model;

/// A timing wheel of 256 slots by whole seconds.
///
/// A timer stands in the slot of its due second, round and round, and each slot is a heap: so a
/// timer of a later round is no hindrance, and which timer fires first is known at any time. Nothing
/// is kept of the times that it was asked about, so these may fall, as the uptime does at a reset.
#[derive(Drop)]
pub struct Wheel {
    slots: Slots,
    // From the index `live` on, the places without a timer.
    spare: Vec<u32>,
    live: u32,
    added: u64,
}

impl Model for Wheel {
    ghost use Rattle.callouts.specs.Timers.{Kept};
    ghost use Rattle.callouts.specs.Wheels.{IsWheel};

    ghost Value = { Kept };

    ghost view = { λ w. record { added = w.added; places = w.slots } };

    ghost invariant = { λ w. IsWheel w.slots w.spare.items w.live w.added };
}

impl Wheel {
    /// A wheel with no timers, and places for so many, from 1 to 65,536.
    ///
    /// It takes all its memory here, and want of it is the only error.
    pub fn new(alloc: Global, room: u32) -> Result<Wheel, NoMemory>
        requires some { 1 ≤ room }
        requires few { room ≤ 65536 }
        ensures { IfOk result (λ w. w ≡ no_timers room) }
    {
        let mut spare = vec![in alloc; 0; room as usize]?;
        for place in 0..room {
            spare[place as usize] = place;
        }
        Ok(Wheel {
            slots: Slots::new(alloc, room)?,
            spare,
            live: 0,
            added: 0,
        })
    }

    /// Adds a timer that is due at an uptime from 0 to below 2^46 s, which may have passed. Its id is how many were
    /// added before it, which are fewer than 2^63.
    ///
    /// `WheelFull` comes exactly where as many timers live as there is room for, and changes nothing.
    pub fn add(&mut self, due: Bintime) -> Result<Timer, WheelFull>
        requires few { self.old.added < 2 ^ 63 }
        requires due { IsDue due }
        ensures exactly { IsErr result ↔ (live self.old ≡ room self.old) }
        ensures full { IfErr result (λ e. (e.live ≡ live self.old) × (self.new ≡ self.old)) }
        ensures id { IfOk result (λ t. t.id ≡ self.old.added) }
        ensures within { IfOk result (λ t. t.place < room self.old) }
        ensures place { IfOk result (λ t. timer_in self.old.places t.place ≡ None) }
        ensures added { IfOk result (λ t. self.new ≡ with_timer self.old t.place (grains_of due)) }
        ensures of { IfOk result (λ t. IsOf self.new t) }
    {
        if self.live as usize == self.spare.len() {
            return Err(WheelFull { live: self.live });
        }
        let place = self.spare[self.live as usize];
        let timer = Timer {
            id: self.added,
            place,
        };
        self.slots.insert(
            place,
            Entry {
                id: self.added,
                due: due.grains().unsigned_abs(),
            },
        );
        self.live += 1;
        self.added += 1;
        Ok(timer)
    }

    // Takes out the timer at a place.
    fn remove(&mut self, place: u32)
        requires { IsSome (timer_in self.old.places place) }
        ensures { self.new ≡ without self.old place }
    {
        self.slots.remove(place);
        self.live -= 1;
        self.spare[self.live as usize] = place;
    }

    /// Cancels a timer, if it still lives, and answers whether it did.
    ///
    /// It takes what `add` gave, at any later time: where a timer with this id lives, it is at this place.
    #[tactic(auto, using(crate::proofs::Changing::none_left))]
    pub fn cancel(&mut self, t: Timer) -> bool
        requires { IsOf self.old t }
        ensures lives { IsTrue result ↔ Lives self.old.places t.id }
        ensures gone { self.new ≡ (if result then without self.old t.place else self.old) }
        ensures dead { Lives self.new.places t.id → ⊥ }
    {
        if t.place as usize >= self.spare.len() {
            return false;
        }
        match self.slots.timer(t.place) {
            Some(timer) if timer.id == t.id => {
                self.remove(t.place);
                true
            }
            _ => false,
        }
    }

    /// Fires the first timer that is due at an uptime, from 0 to below 2^46 s: that of least due time, and of
    /// least id among equal ones. It then lives no more. `None` comes exactly where no live timer is due.
    ///
    /// The uptime may be below that of an earlier call.
    pub fn fire(&mut self, now: Bintime) -> Option<Fired>
        requires { IsDue now }
        ensures fires { IfSome result (λ f. Fires self.old (grains_of now) f self.new) }
        ensures none { IsNone result → NoneDue self.old (grains_of now) }
        ensures same { IsNone result → self.new ≡ self.old }
    {
        let place = self.slots.first()?;
        let timer = self.slots.timer(place)?;
        if timer.due > now.grains().unsigned_abs() {
            return None;
        }
        self.remove(place);
        Some(Fired {
            id: timer.id,
            due: Bintime::of_grains(timer.due as i128),
        })
    }
}
