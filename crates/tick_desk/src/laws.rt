// What holds of calls that are made in parts.
ghost use Rattle.std.specs.Prelude.{◌≡◌, ◌∷◌, ◌++◌, ◌+◌, ◌-◌, ◌≤◌, ◌<◌, ◌^◌, ℕ, List, length, false, []};
ghost use Rattle.ff_hands.specs.declared.hands.Hands.{Hands};
ghost use Rattle.clock_core.specs.Machines.{ReadsNow};
ghost use Rattle.clock_lines.specs.Readings.{newest, reading_at};
ghost use Rattle.clock_lines.specs.Values.{MayRead};
ghost use Rattle.clock_lines.specs.declared.readings.Entry.TheVariants as entry;
ghost use Rattle.clock_lines.specs.declared.readings.Reading.{Reading};
ghost use Rattle.clock_logs.specs.Legal.{quick, way_of};
ghost use Rattle.tick_table.specs.Steps.{IsSoundAt};
ghost use Rattle.ff_hands.specs.Windups.{cold};
ghost use Rattle.tick_desk.specs.Shows.{IsFresh, PenShows};
ghost use Rattle.tick_desk.specs.Winds.{IsCounter, ReadsNewest};
ghost use Rattle.tick_desk.specs.declared.reads.Answer.TheVariants as answer;
ghost use Rattle.clock_lines.specs.declared.readings.Entry.{Entry};
ghost use Rattle.clock_lines.specs.declared.readings.Kind.{Kind};
ghost use Rattle.clock_lines.specs.declared.readings.Kind.TheVariants as kind;
ghost use Rattle.tick_reads.specs.declared.loads.Load.TheVariants.{Turn};
ghost use Rattle.tick_laws.specs.Goes.{Calls, ask_of};
ghost use Rattle.tick_table.specs.Sees.{PassSees};
ghost use Rattle.tick_desk.specs.Answers.{Adds, Finishes, IsEntryBy, IsLate};

/// The law that a beginning and the rest of it are one read: what `begin` and `finish` say of a pass
/// comes to what `read` says of it.
pub fn beginnings_and_rests_are_reads()
    ensures { (old begun done : PassSees) (kind : Kind) (first : ℕ) (e : Entry) →
        begun.table ≡ old.table → Calls old.view begun.view (ask_of kind) (Turn first ∷ []) →
        Finishes begun done kind e → Adds old done (ask_of kind) e }
{}

/// The law that a reading is all by the hands of its tick, which stand there in a journal, and at a count where
/// they may be read.
pub fn readings_are_by_hands()
    ensures stands { (h : Hands) (r : Reading) → IsEntryBy h (entry.Read r) → IsSoundAt r.tick h }
    ensures is { (h : Hands) (r : Reading) → IsEntryBy h (entry.Read r) → r ≡ reading_at h r.tick r.kind r.count }
    ensures place { (h : Hands) (r : Reading) → IsEntryBy h (entry.Read r) → MayRead r.kind h.count r.count }
    ensures small { (h : Hands) (r : Reading) → IsEntryBy h (entry.Read r) → r.count < 2 ^ 62 }
{}

/// The law that a read which looks at a mark is made again only for a mark of a tick at least ten later, and
/// that the pen meets the counter at its top while no crank is out, and never below it.
pub fn answers_are_bounded()
    ensures late { (k : Kind) (first last : ℕ) → way_of k ≡ quick → IsLate k (answer.Again first last) → first + 19 ≤ last }
    ensures top { (p : PenShows) (c : ℕ) → IsCounter p c → p.top ≤ c }
    ensures home { (p : PenShows) (c : ℕ) → IsCounter p c → p.out ≡ false → c ≡ p.top }
{}

/// The law of a desk that nothing was done with: only the cold hands are there, the counter was raised to
/// nothing, no crank is out, and no pass is there or was ever made.
pub fn fresh_desks_are_unused()
    ensures journal { (pen : PenShows) (passes : List PassSees) → IsFresh pen passes → pen.journal ≡ cold ∷ [] }
    ensures pen { (pen : PenShows) (passes : List PassSees) → IsFresh pen passes → (pen.top ≡ 0) × (pen.out ≡ false) × (pen.made ≡ 0) }
    ensures passes { (pen : PenShows) (passes : List PassSees) → IsFresh pen passes → passes ≡ [] }
{}

/// The law of a pen's reading of now: it is of the kind that was asked for, by the newest tick and its hands,
/// at a counter that the pen may meet, or for `Fast` at the tick's own count. The pen keeps that counter
/// behind those that it loaded before. Utc is not for a pen: passes alone read it.
pub fn pens_read_by_the_newest_tick()
    ensures tick { (old new : PenShows) (k : Kind) (r : Reading) → ReadsNewest old new k r → r.tick ≡ length old.journal - 1 }
    ensures is { (old new : PenShows) (k : Kind) (r : Reading) → ReadsNewest old new k r → r ≡ reading_at (newest old.journal) r.tick k r.count }
    ensures fast { (old new : PenShows) (r : Reading) → ReadsNewest old new kind.Fast r → r.count ≡ (newest old.journal).count }
    ensures abs { (old new : PenShows) (r : Reading) → ReadsNewest old new kind.Abs r → IsCounter old r.count × (new.counters ≡ old.counters ++ r.count ∷ []) }
    ensures mono { (old new : PenShows) (r : Reading) → ReadsNewest old new kind.Mono r → IsCounter old r.count × (new.counters ≡ old.counters ++ r.count ∷ []) }
    ensures uptime { (old new : PenShows) (r : Reading) → ReadsNewest old new kind.Uptime r → IsCounter old r.count × (new.counters ≡ old.counters ++ r.count ∷ []) }
    ensures utc { ReadsNow kind.Utc → ⊥ }
{}
