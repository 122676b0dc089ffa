// What a small journal allows, and what it does not.
ghost use Rattle.std.specs.Prelude.{true, false, [], ◌∷◌};
ghost use Rattle.ff_hands.specs.Samples.{ticks, warm_ticks, steered_ticks};
ghost use Rattle.ff_hands.specs.declared.hands.How.TheVariants as how;
ghost use Rattle.clock_lines.specs.declared.readings.Entry.TheVariants as entry;
ghost use Rattle.clock_lines.specs.declared.readings.Kind.TheVariants as kind;
ghost use Rattle.clock_logs.specs.Attempts.{AnswersNext, AreAttempts, kinds_of};
ghost use Rattle.clock_logs.specs.Logs.{IsEntry, IsLog, IsSince, AreSince, AreWithin};
ghost use Rattle.clock_logs.specs.Rises.{line, uptime, GoesOn, IsUninterrupted, Reads, Rises};
ghost use Rattle.clock_logs.specs.Samples.{read, every, earlier, later, rising, since, six};

/// The law that a read of the clocks is made again only where a windup stood open or came between.
pub fn full_agains_have_a_cause()
    ensures open { IsEntry ticks (entry.Again kind.Abs 5 5) }
    ensures came { IsEntry ticks (entry.Again kind.Abs 4 6) }
    ensures begun { IsEntry ticks (entry.Again kind.Abs 4 5) }
    ensures newest { IsEntry ticks (entry.Again kind.Abs 22 24) }
    ensures none { IsEntry ticks (entry.Again kind.Abs 4 4) → ⊥ }
    ensures of_mono { IsEntry ticks (entry.Again kind.Mono 4 4) → ⊥ }
    ensures of_uptime { IsEntry ticks (entry.Again kind.Uptime 4 4) → ⊥ }
    ensures of_utc { IsEntry ticks (entry.Again kind.Utc 4 4) → ⊥ }
    ensures back { IsEntry ticks (entry.Again kind.Abs 4 2) → ⊥ }
    ensures from_open { IsEntry ticks (entry.Again kind.Abs 5 6) → ⊥ }
    ensures not_made { IsEntry ticks (entry.Again kind.Abs 24 26) → ⊥ }
    ensures not_begun { IsEntry ticks (entry.Again kind.Abs 24 25) → ⊥ }
    ensures open_not_made { IsEntry ticks (entry.Again kind.Abs 25 25) → ⊥ }
{}

/// The law that a fast read, or a difference, is made again only where the slot of its tick was rewritten.
pub fn fast_agains_have_a_cause()
    ensures rewritten { IsEntry ticks (entry.Again kind.Fast 4 24) }
    ensures begun { IsEntry ticks (entry.Again kind.Diff 4 23) }
    ensures same { IsEntry ticks (entry.Again kind.Fast 4 4) → ⊥ }
    ensures of_difference { IsEntry ticks (entry.Again kind.Diff 4 4) → ⊥ }
    ensures nine_later { IsEntry ticks (entry.Again kind.Fast 6 24) → ⊥ }
    ensures eleven_later { IsEntry ticks (entry.Again kind.Fast 4 26) → ⊥ }
    ensures not_made { IsEntry ticks (entry.Again kind.Fast 8 28) → ⊥ }
    ensures no_mark { IsEntry ticks (entry.Again kind.Fast 5 24) → ⊥ }
{}

/// The law that a read at a past count is made again for either cause alone.
pub fn past_agains_have_a_cause()
    ensures came { IsEntry ticks (entry.Again kind.Back 4 6) }
    ensures rewritten { IsEntry ticks (entry.Again kind.Back 6 26) }
    ensures none { IsEntry ticks (entry.Again kind.Back 4 4) → ⊥ }
    ensures not_made { IsEntry ticks (entry.Again kind.Back 8 28) → ⊥ }
    ensures back { IsEntry ticks (entry.Again kind.Back 6 4) → ⊥ }
{}

/// The law that a past count is too old only where nine ticks came behind one that is not before it.
pub fn too_old_has_a_cause()
    ensures before { IsEntry ticks (entry.TooOld 45 50) }
    ensures at { IsEntry ticks (entry.TooOld 50 50) }
    ensures behind { IsEntry ticks (entry.TooOld 51 50) → ⊥ }
    ensures eight_later { IsEntry ticks (entry.TooOld 45 60) → ⊥ }
    ensures no_tick { IsEntry ticks (entry.TooOld 45 55) → ⊥ }
    ensures of_cold_hands { IsEntry ticks (entry.TooOld 0 0) → ⊥ }
{}

/// The law that a count is ahead only where the counter stands before it.
pub fn ahead_has_a_cause()
    ensures ahead { IsEntry ticks (entry.Ahead 60 59) }
    ensures at { IsEntry ticks (entry.Ahead 60 60) → ⊥ }
    ensures behind { IsEntry ticks (entry.Ahead 60 61) → ⊥ }
{}

/// The law that a reading shows the time and the bound of its tick at its count.
#[tactic(auto, unfolding(clock_lines::specs::Values::value_of, clock_lines::specs::Values::bound_of))]
pub fn readings_are_of_their_hands()
    ensures abs_early { IsEntry ticks (read kind.Abs 2 45 100 154424509499 73787105146) → ⊥ }
    ensures abs_late { IsEntry ticks (read kind.Abs 2 45 100 154424509501 73787105146) → ⊥ }
    ensures abs_low { IsEntry ticks (read kind.Abs 2 45 100 154424509500 73787105145) → ⊥ }
    ensures abs_high { IsEntry ticks (read kind.Abs 2 45 100 154424509500 73787105147) → ⊥ }
    ensures mono_as_abs { IsEntry ticks (read kind.Mono 2 45 100 154424509500 73787105146) → ⊥ }
    ensures uptime_as_mono { IsEntry ticks (read kind.Uptime 2 45 100 150323855380 73787105146) → ⊥ }
    ensures utc_as_abs { IsEntry ticks (read kind.Utc 2 45 100 154424509500 73787105146) → ⊥ }
    ensures utc_before_its_leap { IsEntry ticks (read kind.Utc 2 46 63 158719476800 73787113735) → ⊥ }
    ensures utc_at_its_leap { IsEntry ticks (read kind.Utc 2 45 62 154424509500 73787105146) → ⊥ }
    ensures fast { IsEntry ticks (read kind.Fast 2 40 100 132949673001 73787062196) → ⊥ }
    ensures diff { IsEntry ticks (read kind.Diff 2 1000 0 4294967300001 8589935) → ⊥ }
    ensures diff_high { IsEntry ticks (read kind.Diff 2 1000 0 4294967300000 8589936) → ⊥ }
    ensures back { IsEntry ticks (read kind.Back 1 40 100 128849018881 92233849220) → ⊥ }
    ensures no_tick { IsEntry ticks (read kind.Diff 13 1000 0 4294967300000 8589935) → ⊥ }
    ensures up_from_the_old_boot { IsEntry warm_ticks (read kind.Uptime 2 35 1 64424509500 129127401792) → ⊥ }
    ensures behind_a_jump_as_before { IsEntry warm_ticks (read kind.Mono 2 35 100 107374182400 129127401792) → ⊥ }
{}

/// The law that a reading is at a count at which its tick may be read.
#[tactic(auto, unfolding(clock_lines::specs::Values::value_of, clock_lines::specs::Values::bound_of))]
pub fn readings_are_at_their_ticks()
    ensures before { IsEntry ticks (read kind.Abs 2 39 100 132949673000 73787053606) → ⊥ }
    ensures past_the_next { IsEntry ticks (read kind.Abs 2 51 100 180194313300 73787156685) → ⊥ }
    ensures mono_before { IsEntry ticks (read kind.Mono 2 39 100 128849018880 73787053606) → ⊥ }
    ensures mono_past { IsEntry ticks (read kind.Mono 2 51 100 176093659180 73787156685) → ⊥ }
    ensures uptime_past { IsEntry ticks (read kind.Uptime 2 51 0 176093659180 73787156685) → ⊥ }
    ensures utc_past { IsEntry ticks (read kind.Utc 2 51 62 180194313300 73787156685) → ⊥ }
    ensures fast_behind { IsEntry ticks (read kind.Fast 2 41 100 132949673000 73787070786) → ⊥ }
    ensures back_at_its_own { IsEntry ticks (read kind.Back 2 40 100 128849018880 73787062196) → ⊥ }
    ensures back_by_an_older { IsEntry ticks (read kind.Back 1 41 100 133143986176 92233853514) → ⊥ }
{}

/// The law that one reading of each kind is legal.
#[tactic(auto, using(ff_hands::proofs::Samples::at_one, ff_hands::proofs::Samples::at_two, ff_hands::proofs::Samples::at_three, ff_hands::proofs::Samples::jump_at_one, ff_hands::proofs::Samples::jump_at_two, ff_hands::proofs::Samples::steered_at_four, ff_hands::proofs::Samples::steered_at_five), unfolding(clock_lines::specs::Values::value_of, clock_lines::specs::Values::bound_of))]
pub fn readings_are_allowed()
    ensures abs { IsEntry ticks (read kind.Abs 2 45 100 154424509500 73787105146) }
    ensures abs_at_its_tick { IsEntry ticks (read kind.Abs 2 40 100 132949673000 73787062196) }
    ensures abs_at_the_next { IsEntry ticks (read kind.Abs 2 50 100 175899346000 73787148095) }
    ensures mono { IsEntry ticks (read kind.Mono 2 45 100 150323855380 73787105146) }
    ensures uptime { IsEntry ticks (read kind.Uptime 2 45 0 150323855380 73787105146) }
    ensures utc { IsEntry ticks (read kind.Utc 2 45 63 154424509500 73787105146) }
    ensures utc_behind_its_leap { IsEntry ticks (read kind.Utc 2 46 62 158719476800 73787113735) }
    ensures fast { IsEntry ticks (read kind.Fast 2 40 100 132949673000 73787062196) }
    ensures diff { IsEntry ticks (read kind.Diff 2 1000 0 4294967300000 8589935) }
    ensures back { IsEntry ticks (read kind.Back 1 40 100 128849018880 92233849220) }
    ensures back_behind { IsEntry ticks (read kind.Back 2 41 100 133143986180 73787070786) }
    ensures before_a_jump { IsEntry warm_ticks (read kind.Mono 1 30 100 85899345920 0) }
    ensures behind_a_jump { IsEntry warm_ticks (read kind.Mono 2 35 101 64424509500 129127401792) }
    ensures up_before_a_jump { IsEntry warm_ticks (read kind.Uptime 1 30 0 85899345920 0) }
    ensures up_behind_a_jump { IsEntry warm_ticks (read kind.Uptime 2 35 0 107374182420 129127401792) }
    ensures diff_of_a_steered_clock { IsEntry steered_ticks (read kind.Diff 4 1048576 1 0 0) }
    ensures abs_of_a_steered_clock { IsEntry steered_ticks (read kind.Abs 4 4718592 108 9223372036854775808 0) }
{}

/// The law that in a log neither the newest tick nor the counter falls, also behind an entry that shows neither.
pub fn logs_never_fall()
    ensures full_ticks { IsLog ticks (read kind.Abs 3 50 100 175899346000 73787148095 ∷ read kind.Abs 2 50 100 175899346000 73787148095 ∷ []) → ⊥ }
    ensures fast_ticks { IsLog ticks (read kind.Fast 3 50 100 175899346000 73787148095 ∷ read kind.Fast 2 40 100 132949673000 73787062196 ∷ []) → ⊥ }
    ensures diff_ticks { IsLog ticks (read kind.Diff 3 1000 0 4294967300000 8589935 ∷ read kind.Diff 2 1000 0 4294967300000 8589935 ∷ []) → ⊥ }
    ensures fast_behind_full { IsLog ticks (read kind.Abs 3 50 100 175899346000 73787148095 ∷ read kind.Fast 2 40 100 132949673000 73787062196 ∷ []) → ⊥ }
    ensures counts { IsLog ticks (read kind.Abs 2 46 100 158719476800 73787113735 ∷ read kind.Abs 2 45 100 154424509500 73787105146 ∷ []) → ⊥ }
    ensures counts_of_kinds { IsLog ticks (read kind.Utc 2 46 62 158719476800 73787113735 ∷ read kind.Uptime 2 45 0 150323855380 73787105146 ∷ []) → ⊥ }
    ensures ahead_behind { IsLog ticks (read kind.Abs 2 46 100 158719476800 73787113735 ∷ entry.Ahead 60 45 ∷ []) → ⊥ }
    ensures behind_ahead { IsLog ticks (entry.Ahead 60 46 ∷ read kind.Mono 2 45 100 150323855380 73787105146 ∷ []) → ⊥ }
    ensures ticks_behind_an_again { IsLog ticks (read kind.Fast 3 50 100 175899346000 73787148095 ∷ entry.Again kind.Abs 6 8 ∷ read kind.Fast 2 40 100 132949673000 73787062196 ∷ []) → ⊥ }
    ensures counts_behind_an_again { IsLog ticks (read kind.Abs 2 46 100 158719476800 73787113735 ∷ entry.Again kind.Abs 4 6 ∷ read kind.Abs 2 45 100 154424509500 73787105146 ∷ []) → ⊥ }
{}

/// The law that a log with an entry of each kind is legal, and one whose past ticks and counts fall.
#[tactic(auto, using(ff_hands::proofs::Samples::at_one, ff_hands::proofs::Samples::at_two, ff_hands::proofs::Samples::at_three), unfolding(clock_lines::specs::Values::value_of, clock_lines::specs::Values::bound_of))]
pub fn logs_are_allowed()
    ensures every { IsLog ticks every }
    ensures empty { IsLog ticks [] }
    ensures past_falls { IsLog ticks (read kind.Back 2 45 100 150323855380 73787105146 ∷ read kind.Back 1 40 100 128849018880 92233849220 ∷ []) }
    ensures past_behind { IsLog ticks (read kind.Abs 3 55 100 197374182500 73787191045 ∷ read kind.Back 2 45 100 150323855380 73787105146 ∷ read kind.Diff 3 7 0 30064771100 60130 ∷ []) }
{}

/// The law of the tick or the mark that an entry shows, by its opening value.
pub fn entries_are_current()
    ensures abs { IsSince ticks (read kind.Abs 2 45 100 154424509500 73787105146) 4 }
    ensures abs_open { IsSince ticks (read kind.Abs 2 45 100 154424509500 73787105146) 5 }
    ensures abs_old { IsSince ticks (read kind.Abs 2 45 100 154424509500 73787105146) 6 → ⊥ }
    ensures abs_new { IsSince ticks (read kind.Abs 2 45 100 154424509500 73787105146) 3 → ⊥ }
    ensures fast { IsSince ticks (read kind.Fast 2 40 100 132949673000 73787062196) 4 }
    ensures fast_old { IsSince ticks (read kind.Fast 2 40 100 132949673000 73787062196) 6 → ⊥ }
    ensures fast_new { IsSince ticks (read kind.Fast 2 40 100 132949673000 73787062196) 3 → ⊥ }
    ensures back { IsSince ticks (read kind.Back 1 40 100 128849018880 92233849220) 20 }
    ensures back_old { IsSince ticks (read kind.Back 1 40 100 128849018880 92233849220) 22 → ⊥ }
    ensures back_new { IsSince ticks (read kind.Back 1 40 100 128849018880 92233849220) 1 → ⊥ }
    ensures again { IsSince ticks (entry.Again kind.Abs 5 5) 5 }
    ensures again_later { IsSince ticks (entry.Again kind.Abs 5 5) 4 → ⊥ }
    ensures mark { IsSince ticks (entry.Again kind.Fast 4 24) 3 }
    ensures mark_later { IsSince ticks (entry.Again kind.Fast 4 24) 4 → ⊥ }
    ensures mark_before { IsSince ticks (entry.Again kind.Fast 4 24) 1 → ⊥ }
    ensures past_again { IsSince ticks (entry.Again kind.Back 20 22) 20 }
    ensures past_mark { IsSince ticks (entry.Again kind.Back 6 26) 20 }
    ensures past_again_of_neither { IsSince ticks (entry.Again kind.Back 5 7) 20 → ⊥ }
    ensures past_mark_newer { IsSince ticks (entry.Again kind.Back 24 44) 20 → ⊥ }
    ensures past_mark_tenth { IsSince ticks (entry.Again kind.Back 2 22) 20 → ⊥ }
    ensures too_old { IsSince ticks (entry.TooOld 45 50) 24 }
    ensures too_old_of_another { IsSince ticks (entry.TooOld 45 50) 22 → ⊥ }
    ensures too_old_of_none { IsSince ticks (entry.TooOld 45 50) 4 → ⊥ }
{}

/// The law that the entries of a log are current one by one, and that their opening values do not fall.
pub fn openings_never_fall()
    ensures falls { AreSince ticks (since (read kind.Abs 2 45 100 154424509500 73787105146) 4 ∷ since (entry.Again kind.Back 3 3) 3 ∷ []) → ⊥ }
    ensures rise { AreSince ticks rising }
    ensures not_current { AreSince ticks (since (read kind.Abs 2 45 100 154424509500 73787105146) 6 ∷ []) → ⊥ }
{}

/// The law of the count that an entry shows to be reached.
pub fn counts_are_within()
    ensures abs { AreWithin 44 (read kind.Abs 2 45 100 154424509500 73787105146 ∷ []) → ⊥ }
    ensures mono { AreWithin 44 (read kind.Mono 2 45 100 150323855380 73787105146 ∷ []) → ⊥ }
    ensures uptime { AreWithin 44 (read kind.Uptime 2 45 0 150323855380 73787105146 ∷ []) → ⊥ }
    ensures utc { AreWithin 44 (read kind.Utc 2 45 63 154424509500 73787105146 ∷ []) → ⊥ }
    ensures fast { AreWithin 39 (read kind.Fast 2 40 100 132949673000 73787062196 ∷ []) → ⊥ }
    ensures back { AreWithin 39 (read kind.Back 1 40 100 128849018880 92233849220 ∷ []) → ⊥ }
    ensures ahead { AreWithin 44 (entry.Ahead 60 45 ∷ []) → ⊥ }
    ensures diff { AreWithin 0 (read kind.Diff 2 1000 0 4294967300000 8589935 ∷ []) }
{}

/// The law of which entry answers which attempt.
pub fn attempts_are_in_turn()
    ensures abs { AnswersNext 1000 (kinds_of true false) ([]) 0 (read kind.Abs 2 45 100 154424509500 73787105146) }
    ensures mono { AnswersNext 1000 (kinds_of true false) ([]) 1 (read kind.Mono 2 45 100 150323855380 73787105146) }
    ensures uptime { AnswersNext 1000 (kinds_of true false) ([]) 2 (read kind.Uptime 2 45 0 150323855380 73787105146) }
    ensures fast { AnswersNext 1000 (kinds_of true false) ([]) 3 (read kind.Fast 2 40 100 132949673000 73787062196) }
    ensures diff { AnswersNext 1000 (kinds_of true false) ([]) 4 (read kind.Diff 2 1000 0 4294967300000 8589935) }
    ensures back { AnswersNext 1000 (kinds_of true false) (read kind.Abs 2 45 100 154424509500 73787105146 ∷ []) 5 (read kind.Back 2 45 100 150323855380 73787105146) }
    ensures back_of_none { AnswersNext 1000 (kinds_of true false) (read kind.Mono 2 45 100 150323855380 73787105146 ∷ []) 5 (read kind.Back 0 0 0 0 0) }
    ensures back_behind_others { AnswersNext 1000 (kinds_of true false) (read kind.Abs 2 45 100 154424509500 73787105146 ∷ read kind.Uptime 2 47 0 158913789980 73787122325 ∷ read kind.Utc 2 48 62 167309411400 73787130915 ∷ []) 5 (read kind.Back 2 45 100 150323855380 73787105146) }
    ensures then_abs { AnswersNext 1000 (kinds_of true false) ([]) 6 (read kind.Abs 2 45 100 154424509500 73787105146) }
    ensures without_back { AnswersNext 1000 (kinds_of false false) ([]) 5 (read kind.Abs 2 45 100 154424509500 73787105146) }
    ensures utc { AnswersNext 1000 (kinds_of false true) ([]) 5 (read kind.Utc 2 48 62 167309411400 73787130915) }
    ensures utc_behind_back { AnswersNext 1000 (kinds_of true true) ([]) 6 (read kind.Utc 2 48 62 167309411400 73787130915) }
    ensures abs_behind_utc { AnswersNext 1000 (kinds_of true true) ([]) 7 (read kind.Abs 2 45 100 154424509500 73787105146) }
    ensures again { AnswersNext 1000 (kinds_of true false) ([]) 3 (entry.Again kind.Fast 4 24) }
    ensures too_old { AnswersNext 1000 (kinds_of true false) (read kind.Abs 2 45 100 154424509500 73787105146 ∷ []) 5 (entry.TooOld 45 50) }
    ensures ahead { AnswersNext 1000 (kinds_of true false) (read kind.Abs 2 45 100 154424509500 73787105146 ∷ []) 5 (entry.Ahead 45 44) }
    ensures not_in_turn { AnswersNext 1000 (kinds_of true false) ([]) 0 (read kind.Mono 2 45 100 150323855380 73787105146) → ⊥ }
    ensures interval { AnswersNext 1000 (kinds_of true false) ([]) 4 (read kind.Diff 2 999 0 4290672332700 8581345) → ⊥ }
    ensures count { AnswersNext 1000 (kinds_of true false) (read kind.Abs 2 45 100 154424509500 73787105146 ∷ []) 5 (read kind.Back 2 44 100 146028888080 73787096556) → ⊥ }
    ensures again_of_other { AnswersNext 1000 (kinds_of true false) ([]) 3 (entry.Again kind.Abs 4 6) → ⊥ }
    ensures too_old_of_other { AnswersNext 1000 (kinds_of true false) (read kind.Abs 2 45 100 154424509500 73787105146 ∷ []) 5 (entry.TooOld 44 50) → ⊥ }
    ensures too_old_out_of_turn { AnswersNext 1000 (kinds_of true false) (read kind.Abs 2 45 100 154424509500 73787105146 ∷ []) 4 (entry.TooOld 45 50) → ⊥ }
    ensures ahead_of_other { AnswersNext 1000 (kinds_of true false) (read kind.Abs 2 45 100 154424509500 73787105146 ∷ []) 5 (entry.Ahead 46 44) → ⊥ }
{}

/// The law that each attempt has an entry.
pub fn attempts_are_all()
    ensures six { AreAttempts 1000 (kinds_of true false) 6 six }
    ensures few { AreAttempts 1000 (kinds_of true false) 2 (read kind.Abs 2 45 100 154424509500 73787105146 ∷ []) → ⊥ }
    ensures many { AreAttempts 1000 (kinds_of true false) 0 (read kind.Abs 2 45 100 154424509500 73787105146 ∷ []) → ⊥ }
    ensures other { AreAttempts 1000 (kinds_of true false) 1 (read kind.Mono 2 45 100 150323855380 73787105146 ∷ []) → ⊥ }
{}

/// The law of what interrupts a clock, and of what reads it.
pub fn clocks_are_interrupted()
    ensures line_take { GoesOn line how.Take }
    ensures line_plain { GoesOn line how.Plain }
    ensures line_jump { GoesOn line how.Jump → ⊥ }
    ensures line_reset { GoesOn line how.Reset → ⊥ }
    ensures uptime_take { GoesOn uptime how.Take }
    ensures uptime_jump { GoesOn uptime how.Jump }
    ensures uptime_reset { GoesOn uptime how.Reset → ⊥ }
    ensures mono { Reads line kind.Mono }
    ensures back { Reads line kind.Back }
    ensures up { Reads uptime kind.Uptime }
    ensures reset_between { IsUninterrupted line ticks 0 2 → ⊥ }
    ensures reset_at_first { IsUninterrupted line ticks 1 2 }
{}

/// The law that readings of two readers that fall do not rise.
pub fn fallen_clocks_are_refused()
    ensures mono { Rises ticks ((read kind.Mono 2 45 100 150323855380 73787105146 ∷ []) ∷ (read kind.Mono 2 46 100 150323855379 73787113735 ∷ []) ∷ []) → ⊥ }
    ensures back { Rises ticks ((read kind.Mono 2 45 100 150323855380 73787105146 ∷ []) ∷ (read kind.Back 2 46 100 150323855379 73787113735 ∷ []) ∷ []) → ⊥ }
    ensures at_one_count { Rises ticks ((read kind.Mono 2 45 100 150323855380 73787105146 ∷ []) ∷ (read kind.Mono 2 45 100 150323855379 73787105146 ∷ []) ∷ []) → ⊥ }
    ensures uptime { Rises ticks ((read kind.Uptime 2 45 0 150323855380 73787105146 ∷ []) ∷ (read kind.Uptime 2 46 0 150323855379 73787113735 ∷ []) ∷ []) → ⊥ }
{}

/// The law that readings by different ticks rise too, where no tick between them interrupts the clock: by a
/// plain tick and by a take, and the uptime by a jump.
pub fn clocks_rise_across_ticks()
    ensures plain { Rises ticks ((read kind.Mono 2 45 100 150323855380 73787105146 ∷ []) ∷ (read kind.Mono 3 55 100 150323855379 73787191045 ∷ []) ∷ []) → ⊥ }
    ensures take { Rises ticks ((read kind.Mono 1 40 100 128849018880 92233849220 ∷ []) ∷ (read kind.Back 2 45 100 128849018879 73787105146 ∷ []) ∷ []) → ⊥ }
    ensures jump { Rises warm_ticks ((read kind.Uptime 1 30 0 85899345920 0 ∷ []) ∷ (read kind.Uptime 2 35 0 85899345919 129127401792 ∷ []) ∷ []) → ⊥ }
    ensures of_one_reader { Rises ticks ((read kind.Mono 2 45 100 150323855380 73787105146 ∷ read kind.Mono 3 55 100 150323855379 73787191045 ∷ []) ∷ []) → ⊥ }
    ensures rises { Rises ticks (earlier ∷ later ∷ []) }
{}
