// What holds of windups, of journals, and of all hands that stand in one.
ghost use Rattle.std.specs.Prelude.{◌≡◌, ◌≢◌, ℕ, ◌-◌, ◌^◌, ◌<◌, true, List, [], ◌∷◌, ◌++◌, length, slice_get, Some, pos, neg_ℤ, ◌-ℤ◌, ◌≤ℤ◌};
ghost use Rattle.std.specs.List.Sorted.{IsNonDecreasingBy};
ghost use Rattle.ff_grain.specs.Grains.{number_of};
ghost use Rattle.ff_hands.specs.Bounds.{IsBounded};
ghost use Rattle.ff_hands.specs.Journals.{order_of, Follows, IsJournal, IsSound};
ghost use Rattle.ff_hands.specs.Orders.{is_sane_estimate, fits};
ghost use Rattle.ff_hands.specs.Ranges.{FitsWords};
ghost use Rattle.ff_hands.specs.Windups.{moved_lerp, wind_of};
ghost use Rattle.ff_hands.specs.declared.hands.Hands.{Hands};
ghost use Rattle.ff_hands.specs.declared.hands.How.TheVariants as how;
ghost use Rattle.ff_hands.specs.declared.hands.Order.{Order};

use crate::hands::Hands;

/// Tells of hands in memory that each of their numbers fits a word.
#[inline(always)]
pub fn fits_words(h: Hands)
    ensures { FitsWords h }
{}

/// The law that hands tell by which order they were wound, and at which count.
pub fn windups_are_told()
    ensures order { (h : Hands) (count : ℕ) (o : Order) → order_of (wind_of h count o) ≡ o }
    ensures count { (h : Hands) (count : ℕ) (o : Order) → (wind_of h count o).count ≡ count }
{}

/// The law that what a windup makes follows the hands before it, where the order fits.
pub fn windups_follow()
    ensures { (h : Hands) (count : ℕ) (o : Order) → fits h count o ≡ true → Follows h (wind_of h count o) }
{}

/// The law that a journal goes on with a tick that follows its last one.
pub fn journals_grow()
    ensures { (ticks : List Hands) (h next : Hands) → IsJournal ticks → slice_get ticks (length ticks - 1) ≡ Some h → Follows h next → IsJournal (ticks ++ next ∷ []) }
{}

/// The law that the counts of a journal never fall.
pub fn journals_rise()
    ensures { (ticks : List Hands) → IsJournal ticks → IsNonDecreasingBy (λ (h : Hands). h.count) ticks }
{}

/// The law that each tick of a journal is sound.
pub fn ticks_are_sound()
    ensures { (ticks : List Hands) → IsJournal ticks → (n : ℕ) (h : Hands) → slice_get ticks n ≡ Some h → IsSound h }
{}

/// The law that the numbers of sound hands are within the bounds that [`Hands::time_at`] asks for.
pub fn sound_hands_are_bounded()
    ensures { (h : Hands) → IsSound h → IsBounded h }
{}

/// The law that the estimate of sound hands is sane: also its leap second is at most one, and is due at a
/// count below 2^62.
pub fn estimates_are_sane()
    ensures sane { (h : Hands) → IsSound h → is_sane_estimate h.est ≡ true }
    ensures leap { (h : Hands) → IsSound h → (neg_ℤ (pos 1) ≤ℤ h.est.leapsec) × (h.est.leapsec ≤ℤ pos 1) }
    ensures next { (h : Hands) → IsSound h → h.est.leapsec_next < 2 ^ 62 }
{}

/// The law that from tick to tick of a journal the uninterrupted clock goes on where it is, but for resets
/// and the jumps of a warm-up, and the uptime but for resets.
pub fn clocks_go_on()
    ensures line { (h next : Hands) → Follows h next → next.how ≢ how.Reset → next.how ≢ how.Jump → number_of next.lerp ≡ moved_lerp h next.count }
    ensures uptime { (h next : Hands) → Follows h next → next.how ≢ how.Reset → number_of next.lerp -ℤ number_of next.boot ≡ moved_lerp h next.count -ℤ number_of h.boot }
{}
