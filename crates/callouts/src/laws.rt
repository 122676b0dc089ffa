// What follows of wheels, and of the timers that fire at ticks.
ghost use Rattle.std.specs.Prelude.{◌≡◌, ℕ, ◌+◌, ◌*◌, ◌^◌, ◌<◌, ◌≤◌, ◌↔◌, true, None, Some, List, [], ◌∷◌, All, Contains, length, slice_index_or};
ghost use Rattle.std.specs.List.{filter};
ghost use Rattle.std.specs.List.Sorted.{IsPermutation};
ghost use Rattle.ff_hands.specs.declared.hands.Hands.{Hands};
ghost use Rattle.callouts.specs.Timers.{Kept, room, live, timer_in, with_timer, without, no_timers, IsOf, fired_of, Fires, NoneDue};
ghost use Rattle.callouts.specs.Lists.{living_at, listed};
ghost use Rattle.callouts.specs.Queues.{placed, in_order, queue};
ghost use Rattle.callouts.specs.Firings.{firings, fires_at, FiresAt, timers_of};
ghost use Rattle.callouts.specs.declared.timers.Entry.{Entry};
ghost use Rattle.callouts.specs.declared.timers.Fired.{Fired};
ghost use Rattle.callouts.specs.declared.timers.Timer.{Timer};

/// The law that a timer stays one of its wheel, whatever is added, cancelled or fires afterwards.
pub fn timers_stay_at_their_places()
    ensures add { (k : Kept) (t : Timer) (p due : ℕ) → IsOf k t → t.id < k.added → IsOf (with_timer k p due) t }
    ensures cancel { (k : Kept) (t : Timer) (p : ℕ) → IsOf k t → IsOf (without k p) t }
    ensures fire { (old new : Kept) (t : Timer) (now : ℕ) (f : Fired) → IsOf old t → Fires old now f new → IsOf new t }
{}

/// The law that a wheel is a list of live timers, each with its place: a new one has none, what is added comes
/// onto the list, and what is cancelled or fires goes from it.
pub fn wheels_are_lists()
    ensures new { (n : ℕ) → (listed (no_timers n) ≡ []) × (room (no_timers n) ≡ n) × ((no_timers n).added ≡ 0) }
    ensures room { (k : Kept) (p due : ℕ) → (room (with_timer k p due) ≡ room k) × (room (without k p) ≡ room k) }
    ensures added { (k : Kept) (p due : ℕ) →
        ((with_timer k p due).added ≡ k.added + 1) × ((without k p).added ≡ k.added) }
    ensures count { (k : Kept) → length (listed k) ≡ live k }
    ensures lives { (k : Kept) (p : ℕ) (e : Entry) →
        (timer_in k.places p ≡ Some e) ↔ Contains (listed k) (living_at p e) }
    ensures add { (k : Kept) (p due : ℕ) → p < room k → timer_in k.places p ≡ None →
        IsPermutation (living_at p (record { id = k.added; due = due }) ∷ listed k) (listed (with_timer k p due)) }
    ensures gone { (k : Kept) (p : ℕ) (e : Entry) → timer_in k.places p ≡ Some e →
        IsPermutation (living_at p e ∷ listed (without k p)) (listed k) }
{}

/// The law that a wheel is a queue of timers in the order in which they fire: what is added gets its
/// place there, what is cancelled had it, what fires is the head, and where none fires none is due.
pub fn wheels_are_queues()
    ensures new { (room : ℕ) → queue (no_timers room) ≡ [] }
    ensures add { (k : Kept) (p due : ℕ) → p < room k → timer_in k.places p ≡ None →
        queue (with_timer k p due) ≡ placed (record { id = k.added; due = due }) (queue k) }
    ensures cancel { (k : Kept) (p : ℕ) (e : Entry) → timer_in k.places p ≡ Some e →
        queue k ≡ placed e (queue (without k p)) }
    ensures fire { (old new : Kept) (now : ℕ) (f : Fired) → Fires old now f new →
        (e : Entry) × (queue old ≡ e ∷ queue new) × (e.due ≤ now) × (f ≡ fired_of e) }
    ensures none { (k : Kept) (now : ℕ) → NoneDue k now → All (λ e. now < e.due) (queue k) }
{}

/// The law that of all timers those fire at a tick whose due time is reached there first.
pub fn timers_fire_at_their_first_tick()
    ensures fired { (es : List Entry) (ticks : List Hands) (n : ℕ) → n < length ticks →
        slice_index_or (firings es ticks) n [] ≡ filter (fires_at ticks n) es }
    ensures first { (ticks : List Hands) (n : ℕ) (e : Entry) →
        (fires_at ticks n e ≡ true) ↔ FiresAt ticks n e }
{}

/// The law that the timers that a report asks for fire from the last to the first, one a second.
pub fn asked_timers_are_worked()
    ensures { in_order (timers_of 3 3) ≡
        record { id = 2; due = 2 ^ 64 } ∷ record { id = 1; due = 2 * 2 ^ 64 } ∷ record { id = 0; due = 3 * 2 ^ 64 } ∷ [] }
{}
