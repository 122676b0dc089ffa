// Three small journals, and what may follow in them and what may not.
ghost use Rattle.std.specs.Prelude.{◌^◌, [], ◌∷◌};
ghost use Rattle.ff_hands.specs.Journals.{Follows, IsJournal};
ghost use Rattle.ff_hands.specs.Samples.{ticks, warm_ticks, steered_ticks, set, taken, on, guessed, jumped, jumped_on, first_estimate, time, by_way, at_count, a_grain_on, booted_at, by_estimate};
ghost use Rattle.ff_hands.specs.Windups.{cold};
ghost use Rattle.ff_hands.specs.declared.hands.How.TheVariants as how;

/// The law that three samples are journals: one with a reset, a take and plain ticks, one with a jump, and
/// one in which a take steers the uninterrupted clock and the estimate gets old.
pub fn samples_are_journals()
    ensures taken { IsJournal ticks }
    ensures jumped { IsJournal warm_ticks }
    ensures steered { IsJournal steered_ticks }
{}

/// The law of what is no journal: one that does not begin with the cold hands, or in which a tick does not
/// follow the one before it.
pub fn other_lists_are_none()
    ensures none { IsJournal [] → ⊥ }
    ensures not_cold_first { IsJournal (set ∷ taken ∷ []) → ⊥ }
    ensures one_left_out { IsJournal (cold ∷ taken ∷ []) → ⊥ }
    ensures back { IsJournal (cold ∷ set ∷ taken ∷ on 60 ∷ on 50 ∷ []) → ⊥ }
    ensures last { IsJournal (cold ∷ set ∷ taken ∷ a_grain_on (on 50) ∷ []) → ⊥ }
{}

/// The law of which hands do not follow others.
#[tactic(auto, unfolding(crate::specs::Windups::wind_of))]
pub fn ticks_follow()
    ensures back { Follows taken (on 39) → ⊥ }
    ensures past_all_counts { Follows cold (at_count (2 ^ 62) (by_way how.Plain cold)) → ⊥ }
    ensures not_newer { Follows set (by_estimate first_estimate taken) → ⊥ }
    ensures of_a_later_count { Follows cold (at_count 9 set) → ⊥ }
    ensures not_taken { Follows taken (by_way how.Take (on 50)) → ⊥ }
    ensures not_jumped { Follows set (by_way how.Jump taken) → ⊥ }
    ensures not_reset { Follows cold (by_way how.Take set) → ⊥ }
    ensures reset_told_as_take { Follows set (by_way how.Reset taken) → ⊥ }
    ensures jump_told_as_take { Follows guessed (by_way how.Take jumped) → ⊥ }
    ensures never_cold_again { Follows cold cold → ⊥ }
    ensures time { Follows taken (a_grain_on (on 50)) → ⊥ }
    ensures boot_stays { Follows guessed (booted_at (time 100 0) jumped) → ⊥ }
    ensures boot_moves { Follows jumped (booted_at (time 100 0) jumped_on) → ⊥ }
{}
