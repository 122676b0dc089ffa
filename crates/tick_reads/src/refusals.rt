// Small reads, load by load, and what they come to.
ghost use Rattle.std.specs.Prelude.{◌≡◌, ◌∷◌, ◌++◌, [], None, Some};
ghost use Rattle.ff_hands.specs.Samples.{on, set, taken};
ghost use Rattle.clock_lines.specs.Readings.{reading_at};
ghost use Rattle.clock_lines.specs.declared.readings.Entry.TheVariants as entry;
ghost use Rattle.clock_lines.specs.declared.readings.Kind.TheVariants as kind;
ghost use Rattle.hand_words.specs.Words.{pack};
ghost use Rattle.tick_reads.specs.Converts.{ask_back};
ghost use Rattle.tick_reads.specs.Looks.{fields_from, look};
ghost use Rattle.tick_reads.specs.Reads.{whole_loads};
ghost use Rattle.tick_reads.specs.Samples.{asking, nine_looks};
ghost use Rattle.tick_reads.specs.Scans.{decided};
ghost use Rattle.tick_reads.specs.declared.loads.Load.TheVariants.{Turn, Counter, Mark};

/// The law of a full read at the turn word, the fields, the counter and the turn word again: the counter
/// and the second turn word are loaded, the fields are all there, and an odd turn word ends it at once.
#[tactic(auto, unfolding(hand_words::specs::Words::pack, hand_words::specs::Words::unpack))]
pub fn full_reads_load_all()
    ensures still { decided (asking kind.Abs) (whole_loads 2 (pack taken) 45 4) ≡ Some (entry.Read (reading_at taken 2 kind.Abs 45)) }
    ensures moved { decided (asking kind.Mono) (whole_loads 2 (pack taken) 45 6) ≡ Some (entry.Again kind.Mono 4 6) }
    ensures moved_back { decided (asking kind.Mono) (whole_loads 2 (pack taken) 45 2) ≡ Some (entry.Again kind.Mono 4 2) }
    ensures open { decided (asking kind.Utc) (Turn 5 ∷ []) ≡ Some (entry.Again kind.Utc 5 5) }
    ensures begun { decided (asking kind.Utc) (Turn 4 ∷ []) ≡ None }
    ensures without_counter { decided (asking kind.Abs) (Turn 4 ∷ fields_from 2 0 (pack taken) ++ Turn 4 ∷ []) ≡ None }
    ensures without_second_turn { decided (asking kind.Abs) (Turn 4 ∷ fields_from 2 0 (pack taken) ++ Counter 45 ∷ []) ≡ None }
    ensures counter_first { decided (asking kind.Abs) (Turn 4 ∷ Counter 45 ∷ fields_from 2 0 (pack taken) ++ Turn 4 ∷ []) ≡ None }
    ensures of_another_tick { decided (asking kind.Abs) (Turn 4 ∷ fields_from 1 0 (pack taken) ++ Counter 45 ∷ Turn 4 ∷ []) ≡ None }
    ensures without_first_field { decided (asking kind.Abs) (Turn 4 ∷ fields_from 2 1 (pack taken) ++ Counter 45 ∷ Turn 4 ∷ []) ≡ None }
{}

/// The law of a fast read: the mark is looked at, behind the fields, and has to be the tick's own. An open
/// windup does not matter.
#[tactic(auto, unfolding(hand_words::specs::Words::pack, hand_words::specs::Words::unpack))]
pub fn fast_reads_look_at_the_mark()
    ensures still { decided (asking kind.Fast) (Turn 5 ∷ look 2 (pack taken) 6) ≡ Some (entry.Read (reading_at taken 2 kind.Fast 40)) }
    ensures taken { decided (asking kind.Fast) (Turn 4 ∷ look 2 (pack taken) 26) ≡ Some (entry.Again kind.Fast 6 26) }
    ensures half_taken { decided (asking kind.Fast) (Turn 4 ∷ look 2 (pack taken) 25) ≡ Some (entry.Again kind.Fast 6 25) }
    ensures without_mark { decided (asking kind.Fast) (Turn 4 ∷ fields_from 2 0 (pack taken)) ≡ None }
    ensures mark_first { decided (asking kind.Fast) (Turn 4 ∷ Mark 2 6 ∷ fields_from 2 0 (pack taken)) ≡ None }
    ensures mark_of_another { decided (asking kind.Fast) (Turn 4 ∷ fields_from 2 0 (pack taken) ++ Mark 1 4 ∷ []) ≡ None }
{}

/// The law of a conversion: past the newest tick it needs the counter and a turn word that is even and stays,
/// else it goes down to the tick that was current, at most nine further.
#[tactic(auto, unfolding(hand_words::specs::Words::pack, hand_words::specs::Words::unpack))]
pub fn conversions_go_down()
    ensures newest { decided (ask_back 45) (Turn 4 ∷ look 2 (pack taken) 6 ++ Counter 45 ∷ Turn 4 ∷ []) ≡ Some (entry.Read (reading_at taken 2 kind.Back 45)) }
    ensures newest_without_turn { decided (ask_back 45) (Turn 4 ∷ look 2 (pack taken) 6 ++ Counter 45 ∷ []) ≡ None }
    ensures newest_without_counter { decided (ask_back 45) (Turn 4 ∷ look 2 (pack taken) 6 ++ Turn 4 ∷ []) ≡ None }
    ensures ahead { decided (ask_back 45) (Turn 4 ∷ look 2 (pack taken) 6 ++ Counter 44 ∷ []) ≡ Some (entry.Ahead 45 44) }
    ensures crossed { decided (ask_back 45) (Turn 4 ∷ look 2 (pack taken) 6 ++ Counter 45 ∷ Turn 5 ∷ []) ≡ Some (entry.Again kind.Back 4 5) }
    ensures open { decided (ask_back 45) (Turn 5 ∷ look 2 (pack taken) 6) ≡ Some (entry.Again kind.Back 5 5) }
    ensures older { decided (ask_back 40) (Turn 5 ∷ look 2 (pack taken) 6 ++ look 1 (pack set) 4) ≡ Some (entry.Read (reading_at set 1 kind.Back 40)) }
    ensures not_yet { decided (ask_back 40) (Turn 5 ∷ look 2 (pack taken) 6) ≡ None }
    ensures overtaken { decided (ask_back 40) (Turn 5 ∷ look 2 (pack taken) 6 ++ look 1 (pack set) 23) ≡ Some (entry.Again kind.Back 4 23) }
    ensures ninth { decided (ask_back 50) (Turn 24 ∷ nine_looks) ≡ None }
    ensures tenth { decided (ask_back 50) (Turn 24 ∷ nine_looks ++ look 3 (pack (on 50)) 8) ≡ Some (entry.TooOld 50 50) }
{}
