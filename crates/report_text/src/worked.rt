// Worked lines: one of each kind.
ghost use Rattle.std.specs.Prelude.{◌≡◌, codes, negsuc, pos, Some, None, true, false};
ghost use Rattle.stamp_text.specs.declared.accepts.Refused.TheVariants as refused;
ghost use Rattle.clock_lines.specs.declared.readings.Entry.TheVariants as entry;
ghost use Rattle.clock_lines.specs.declared.readings.Kind.TheVariants as kind;
ghost use Rattle.stamp_text.specs.declared.lines.Why.TheVariants as why;
ghost use Rattle.ntp_capture.specs.declared.pieces.CapWhy.TheVariants as capture_why;
ghost use Rattle.report_text.specs.declared.lines.FaultText.TheVariants as fault;
ghost use Rattle.report_text.specs.declared.lines.Limit.TheVariants as limit;
ghost use Rattle.report_text.specs.declared.lines.ReportHead.TheVariants as head;
ghost use Rattle.report_text.specs.Samples.{full, hands, reading, stamp, time};
ghost use Rattle.report_text.specs.Text.{base_text, end_text, entry_text, estimate_text, fault_text, head_text, ideal_text, fire_text, leap_text, refused_text, set_text, stamp_text, summary_text, tick_text};

/// The law of worked lines of accepted and refused items.
pub fn lines_of_items_are_worked()
    ensures stamp { stamp_text 7 stamp 1 ≡ codes "stamp 7 1 5+0 6+9223372036854775808 9 8\n" }
    ensures second { stamp_text 7 stamp 2 ≡ codes "stamp 7 1 5+0 6+9223372036854775808 9 8 15 2\n" }
    ensures base { base_text 3 8 (record { base = 7; start = 2; shifted = true }) ≡ codes "base 3 8 7 2 1\n" }
    ensures estimate { estimate_text 2 full 1 ≡ codes "estimate 2 9 5+1 1000 10 11 UW 12 999 1001 SL-\n" }
    ensures leaps { estimate_text 2 full 2 ≡ codes "estimate 2 9 5+1 1000 10 11 UW 12 999 1001 SL- 7 -1 1\n" }
    ensures set { set_text 20 (time 8 0) ≡ codes "set 20 8+0\n" }
    ensures leap { leap_text 21 (negsuc 0) ≡ codes "leap 21 -1\n" }
    ensures refused { refused_text 4 refused.Acausal ≡ codes "refused 4 acausal\n" }
{}

/// The law of worked lines of ticks and of what readers came to.
pub fn lines_of_replays_are_worked()
    ensures tick { tick_text 3 hands ≡ codes "tick 3 take 20 21+0 22+0 23 24+0 - 5+1 9 1000 10 11 UW 7 -1 1\n" }
    ensures fire { fire_text 3 (record { id = 1; due = time 2 0 }) ≡ codes "fire 3 1 2+0\n" }
    ensures read { entry_text 1 2 (entry.Read reading) ≡ codes "read 1 2 mono 4 30 31+0 32\n" }
    ensures again { entry_text 1 2 (entry.Again kind.Utc 4 6) ≡ codes "again 1 2 utc 4 6\n" }
    ensures old { entry_text 1 2 (entry.TooOld 30 33) ≡ codes "old 1 2 30 33\n" }
    ensures ahead { entry_text 1 2 (entry.Ahead 30 29) ≡ codes "ahead 1 2 30 29\n" }
{}

/// The law of worked lines that a report has once.
pub fn lines_of_ends_are_worked()
    ensures lane { head_text (head.Replay 1000000 1 0 100 false false false true 1) ≡ codes "report replay freq 1000000 ticks 1 readers 0 reads 100 lane\n" }
    ensures flags { head_text (head.Replay 1000000 4 2 600 true false true true 2) ≡ codes "report replay freq 1000000 ticks 4 readers 2 reads 600 back utc lane version 2\n" }
    ensures timers { head_text (head.Ticks 1000000000 1 (Some 3) 1) ≡ codes "report ticks freq 1000000000 ticks 1 timers 3\n" }
    ensures timed { head_text (head.Ticks 1000000000 0 (Some 0) 2) ≡ codes "report ticks freq 1000000000 ticks 0 timers 0 version 2\n" }
    ensures summary { summary_text (record { accepted = 40; refused = 1; shifts = 2; predicted = 3; local = 33 }) ≡ codes "summary accepted 40 refused 1 shifts 2 predicted 3 local 33\n" }
    ensures ideal { ideal_text 1 2 3 ≡ codes "ideal 1 2 3\n" }
    ensures short { end_text (record { accepted = 4; refused = 1; ticks = None; entries = None; fired = None }) ≡ codes "end accepted 4 refused 1\n" }
    ensures whole { end_text (record { accepted = 4; refused = 1; ticks = Some 5; entries = Some 6; fired = None }) ≡ codes "end accepted 4 refused 1 ticks 5 entries 6\n" }
    ensures fired { end_text (record { accepted = 2; refused = 0; ticks = Some 5; entries = None; fired = Some 3 }) ≡ codes "end accepted 2 refused 0 ticks 5 fired 3\n" }
    ensures input { fault_text (fault.Input (record { line = 3; why = why.Range })) ≡ codes "fault input 3 range\n" }
    ensures large { fault_text (fault.Large limit.Stamps) ≡ codes "fault large stamps\n" }
    ensures read { fault_text (fault.Read 17) ≡ codes "fault read 17\n" }
    ensures cut { fault_text (fault.Capture (record { at = 75; why = capture_why.Cut })) ≡ codes "fault capture 75 cut\n" }
    ensures head { fault_text (fault.Capture (record { at = 0; why = capture_why.Head })) ≡ codes "fault capture 0 head\n" }
    ensures direction { fault_text (fault.Capture (record { at = 24; why = capture_why.Direction })) ≡ codes "fault capture 24 direction\n" }
{}
