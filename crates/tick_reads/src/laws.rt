// What the loads of a call decide, by a table and one load after the other: both say the same.
ghost use Rattle.std.specs.Prelude.{◌≡◌, ℕ, Some};
ghost use Rattle.clock_lines.specs.declared.readings.Entry.TheVariants.{Read, Again};
ghost use Rattle.tick_reads.specs.declared.loads.Ask.{Ask};
ghost use Rattle.tick_reads.specs.Scans.{decided};
ghost use Rattle.tick_reads.specs.Reads.{IsAtCounter, Reads, ReadsWhole, StoodStill, Moved};

/// The law that the loads of a call decide an entry exactly where the table of reads has them with this
/// entry. So each load of a read stands in its place, and there is none besides.
pub fn loads_decide()
    ensures decided { (ask : _) (loads : _) (e : _) → Reads ask loads e → decided ask loads ≡ Some e }
    ensures told { (ask : _) (loads : _) (e : _) → decided ask loads ≡ Some e → Reads ask loads e }
{}

/// The law that a full read which succeeds found the turn word even and the same at its end, and
/// answers by the fields and the one counter that it loaded between. So do the reads of `Abs`, `Mono`,
/// `Uptime` and `Utc`: none of these is answered without the counter.
pub fn full_reads_stood()
    ensures stood { (k : _) (loads : _) (r : _) → ReadsWhole k loads (Read r) → StoodStill k loads r }
    ensures kinds { (ask : Ask) (loads : _) (r : _) → IsAtCounter ask.kind → Reads ask loads (Read r) → StoodStill ask.kind loads r }
{}

/// The law that a full read which does not succeed found the turn word odd, or another one at its end.
pub fn full_reads_moved()
    ensures { (k : _) (loads : _) (a b : ℕ) → ReadsWhole k loads (Again k a b) → Moved loads a b }
{}
