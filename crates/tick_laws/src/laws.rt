// What holds of the logs that a pen took in, of any legal logs, and of the entries of calls.
ghost use Rattle.std.specs.Prelude.{◌≡◌, ◌≢◌, ℕ, ◌+◌, ◌*◌, ◌≤◌, ◌++◌, false, List, slice_get, Some};
ghost use mathlib.Core.Option.{some};
ghost use lib.ListN.{get_elem?};
ghost use Rattle.ff_hands.specs.declared.hands.Hands.{Hands};
ghost use Rattle.clock_lines.specs.declared.readings.Entry.{Entry};
ghost use Rattle.clock_lines.specs.declared.readings.Kind.TheVariants.{Back};
ghost use Rattle.clock_lines.specs.declared.readings.Reading.{Reading};
ghost use Rattle.clock_logs.specs.Attempts.{IsAnswerTo};
ghost use Rattle.clock_logs.specs.Logs.{IsLog};
ghost use Rattle.clock_logs.specs.Rises.{IsIn};
ghost use Rattle.clock_logs.specs.declared.noted.Kept.{Kept};
ghost use Rattle.tick_reads.specs.Reads.{Reads};
ghost use Rattle.tick_reads.specs.declared.loads.Ask.{Ask};
ghost use Rattle.tick_reads.specs.declared.loads.Load.{Load};
ghost use Rattle.tick_reads.specs.Looks.{counters_in, full_mark, turns_in};
ghost use Rattle.tick_laws.specs.Goes.{Calls, marks_in};
ghost use Rattle.tick_laws.specs.Logs.{IsKeptLegal};
ghost use Rattle.tick_table.specs.Steps.{LegalLogs};
ghost use Rattle.tick_views.specs.declared.views.MarkLoad.{MarkLoad};
ghost use Rattle.tick_views.specs.declared.views.PassView.{PassView};
ghost use Rattle.tick_views.specs.declared.views.PenView.{PenView};

/// The law that what the pen kept of a reader is legal by the pen's journal alone, where no windup
/// is open. `LegalLogs` is what the pen is told at its load of the turn word. The log is then
/// legal, each entry is current at the opening value of its call, and the counts of its readings,
/// but for differences, are below 2^62. While no crank is out, none of them is past the pen's top.
pub fn kept_logs_are_legal()
    ensures { (p : PenView) (i : ℕ) (k : Kept) → LegalLogs p → p.winding ≡ false →
        slice_get p.kept i ≡ Some k → IsKeptLegal p.journal p.top p.out k }
{}

/// The law that conversions agree: in all legal logs of one journal, two conversions of one past
/// count, by any readers at any time, are of the same tick, with the same time and the same bound.
pub fn conversions_agree()
    ensures { (ticks : List Hands) (logs : List (List Entry)) →
        ((i : ℕ) (es : List Entry) → slice_get logs i ≡ Some es → IsLog ticks es) →
        (r s : Reading) → IsIn logs r → IsIn logs s → r.kind ≡ Back → s.kind ≡ Back →
        r.count ≡ s.count → r ≡ s }
{}

/// The law that what the loads of a call come to answers what the call asked: a reading is of the kind
/// that was asked for, that of a difference is of the interval that was given, and all that comes of a
/// conversion, but for `Again`, is at the count that was given.
pub fn calls_are_answered_as_asked()
    ensures { (ask : Ask) (loads : List Load) (e : Entry) → Reads ask loads e → IsAnswerTo ask.kind ask.given e }
{}

/// The law that a call of a pass keeps its number and all that it loaded before: the turn words, the counters
/// and the marks of the call come behind them, in order.
pub fn calls_keep_their_loads()
    ensures number { (before after : PassView) (ask : Ask) (loads : List Load) → Calls before after ask loads → after.number ≡ before.number }
    ensures turns { (before after : PassView) (ask : Ask) (loads : List Load) → Calls before after ask loads → after.turns ≡ before.turns ++ turns_in loads }
    ensures counters { (before after : PassView) (ask : Ask) (loads : List Load) → Calls before after ask loads → after.counters ≡ before.counters ++ counters_in loads }
    ensures marks { (before after : PassView) (ask : Ask) (loads : List Load) → Calls before after ask loads → after.marks ≡ before.marks ++ marks_in loads }
{}

/// The law that a call of a pass sees no fewer ticks than the pass had seen: each turn word is of the newest
/// of these or of a later tick, and a mark that is not its tick's own is of a tick at least ten later.
pub fn calls_go_on()
    ensures seen { (before after : PassView) (ask : Ask) (loads : List Load) → Calls before after ask loads → before.seen ≤ after.seen }
    ensures turns { (before after : PassView) (ask : Ask) (loads : List Load) → Calls before after ask loads → (i x : ℕ) → get_elem? (turns_in loads) i ≡ some x → 2 * before.seen ≤ x + 2 }
    ensures marks { (before after : PassView) (ask : Ask) (loads : List Load) → Calls before after ask loads → (i : ℕ) (l : MarkLoad) → get_elem? (marks_in loads) i ≡ some l → l.mark ≢ full_mark l.tick → 2 * l.tick + 21 ≤ l.mark }
{}
