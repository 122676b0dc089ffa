// What views may know of a small world, and what not.
ghost use Rattle.std.specs.Prelude.{◌≡◌, ℕ, max, length, ◌++◌, ◌∷◌, []};
ghost use Rattle.clock_logs.specs.Legal.{full, quick, past};
ghost use Rattle.clock_lines.specs.declared.readings.Entry.TheVariants as entry;
ghost use Rattle.tick_views.specs.Samples.{small};
ghost use Rattle.tick_views.specs.Views.{crank_raised, kept_of, mark_load, noted_cut, pass_cut, top_raised};
ghost use Rattle.tick_views.specs.Worlds.{AllAtMost, FitsAgain, FitsEntry, FitsMark, NeverFall};
ghost use Rattle.tick_views.specs.declared.views.CrankView.{CrankView};
ghost use Rattle.tick_views.specs.declared.views.PassView.{PassView};
ghost use Rattle.tick_views.specs.declared.views.PenView.{PenView};
ghost use Rattle.tick_views.specs.declared.views.View.TheVariants.{Note, Pass, Pen};

/// The law that the pen keeps all that a pass was answered and loaded of the counter.
pub fn passes_are_kept_whole()
    ensures number { (v : PassView) → (kept_of v).number ≡ v.number }
    ensures seen { (v : PassView) → (kept_of v).seen ≡ v.seen }
    ensures counters { (v : PassView) → (kept_of v).counters ≡ v.counters }
    ensures entries { (v : PassView) → (kept_of v).entries ≡ v.entries }
{}

/// The law that a pass that the pen cuts off has the next number, has seen all ticks so far and has loaded
/// nothing, and that a note tells all ticks so far.
pub fn cuts_have_seen_all()
    ensures number { (p : PenView) (v : PassView) → pass_cut (Pen p) ≡ Pass v → v.number ≡ p.made }
    ensures seen { (p : PenView) (v : PassView) → pass_cut (Pen p) ≡ Pass v → v.seen ≡ length p.journal }
    ensures loads { (p : PenView) (v : PassView) → pass_cut (Pen p) ≡ Pass v → (v.turns ≡ []) × (v.counters ≡ []) × (v.entries ≡ []) }
    ensures note { (p : PenView) → noted_cut (Pen p) ≡ Note (length p.journal) }
{}

/// The law that a raise, by the pen or by the crank, is kept with the counter as it left it, and that the top
/// is the greatest count that was asked for.
pub fn raises_are_kept()
    ensures pen { (to met : ℕ) (p : PenView) → ((top_raised to met p).top ≡ max p.top to) × ((top_raised to met p).met ≡ p.met ++ met ∷ []) }
    ensures crank { (to met : ℕ) (k : CrankView) → ((crank_raised to met k).top ≡ max k.top to) × ((crank_raised to met k).met ≡ k.met ++ met ∷ []) }
{}

/// The law that a call is made again only for a cause: beside a windup that stood open or came, or the slot
/// of its tick taken for one at least ten later.
pub fn again_has_a_cause()
    ensures open { FitsAgain small full 5 5 5 }
    ensures came { FitsAgain small full 4 4 6 }
    ensures none { FitsAgain small full 4 4 4 → ⊥ }
    ensures back { FitsAgain small full 4 4 2 → ⊥ }
    ensures of_another_load { FitsAgain small full 6 4 6 → ⊥ }
    ensures not_there { FitsAgain small full 4 4 26 → ⊥ }
    ensures from_open { FitsAgain small full 5 5 6 → ⊥ }
    ensures same_mark { FitsAgain small quick 4 6 6 → ⊥ }
    ensures nine_later { FitsAgain small quick 4 6 24 → ⊥ }
    ensures eleven_later { FitsAgain small quick 2 4 26 → ⊥ }
    ensures mark_of_another { FitsAgain small quick 6 6 26 → ⊥ }
    ensures not_made { FitsAgain small quick 6 8 28 → ⊥ }
    ensures past_none { FitsAgain small past 4 4 4 → ⊥ }
{}

/// The law that a count is too old only by the tenth tick, and ahead only of the counter.
pub fn other_answers_have_a_cause()
    ensures behind { FitsEntry small 24 (entry.TooOld 51 50) → ⊥ }
    ensures ninth { FitsEntry small 22 (entry.TooOld 45 50) → ⊥ }
    ensures of_no_tick { FitsEntry small 24 (entry.TooOld 45 55) → ⊥ }
    ensures ahead { FitsEntry small 24 (entry.Ahead 60 59) }
    ensures at { FitsEntry small 24 (entry.Ahead 60 60) → ⊥ }
{}

/// The law that a mark which was loaded of a tick is its own, or that of a tick at least ten later in its slot.
pub fn marks_are_of_their_slots()
    ensures own { FitsMark small (mark_load 2 6) }
    ensures later { FitsMark small (mark_load 2 26) }
    ensures later_and_open { FitsMark small (mark_load 2 25) }
    ensures not_full { FitsMark small (mark_load 2 5) → ⊥ }
    ensures none { FitsMark small (mark_load 2 0) → ⊥ }
    ensures earlier { FitsMark small (mark_load 12 6) → ⊥ }
    ensures of_another_slot { FitsMark small (mark_load 2 24) → ⊥ }
    ensures not_there { FitsMark small (mark_load 3 28) → ⊥ }
{}

/// The law of numbers that never fall, and of numbers that are none above another.
pub fn numbers_fall()
    ensures fall { NeverFall (4 ∷ 5 ∷ 3 ∷ []) → ⊥ }
    ensures above { AllAtMost 5 (4 ∷ 6 ∷ []) → ⊥ }
{}
