// What is not legal to be kept of a reader.
ghost use Rattle.std.specs.Prelude.{false, true, [], ◌∷◌};
ghost use Rattle.ff_hands.specs.Samples.{ticks};
ghost use Rattle.clock_logs.specs.Samples.{since};
ghost use Rattle.clock_lines.specs.declared.readings.Entry.TheVariants as entry;
ghost use Rattle.clock_lines.specs.declared.readings.Kind.TheVariants as kind;
ghost use Rattle.tick_laws.specs.Logs.{IsKeptLegal};
ghost use Rattle.tick_laws.specs.Samples.{at_45, kept};

/// The law of what is not legal to be kept, with the pen's top at 60: more ticks seen than there are, an
/// entry without its cause, or not current, and while no crank is out a counter or a count past the top.
pub fn kept_logs_are_refused()
    ensures seen { IsKeptLegal ticks 60 false (kept 14 [] []) → ⊥ }
    ensures entry { IsKeptLegal ticks 60 true (kept 13 [] (since (entry.Again kind.Abs 4 4) 4 ∷ [])) → ⊥ }
    ensures opening { IsKeptLegal ticks 60 true (kept 13 [] (at_45 6 ∷ [])) → ⊥ }
    ensures counter { IsKeptLegal ticks 60 false (kept 13 (45 ∷ 61 ∷ []) []) → ⊥ }
    ensures count { IsKeptLegal ticks 44 false (kept 13 [] (at_45 4 ∷ [])) → ⊥ }
{}
