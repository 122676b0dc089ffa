// The kinds of line, each made from its end. A line's push fails exactly where the sink's push of its
// text does. Lines that a report has many of are made in a text that is lent to them, so that its bytes are
// filled once for all of them.
ghost use Rattle.std.specs.Prelude.{◌≡◌, ◌≤◌, ◌+◌, ◌++◌, length};
ghost use Rattle.report_text.specs.Text.{version_part, flags_part, options_part, head_text, server_part, stamp_text, base_text, time_part, spread_part, told_leaps_part, estimate_text, set_text, leap_text, clock_part, given_part, leap_part, tick_text, fire_text, refused_text, summary_text, ideal_text, end_text, fault_text};

use crate::line::LineText;
use crate::names::{add_how, add_marks, capture_why_name, limit_name, refused_name, why_name};
use callouts::Fired;
use ff_estimator::Full;
use ff_grain::Bintime;
use ff_hands::{Estimate, Hands};
use ntp_capture::CapFault;
use rad_io::{Failed, Sink};
use rtt_window::Base;
use stamp_text::{LineFault, Refused, Stamp};

/// Which report it is, with what its first line tells. Those over a stamp file have its version, 1 or 2, which
/// is told where it is 2.
#[derive(Clone, Copy, Debug, PartialEq, Eq)]
pub enum ReportHead {
    /// The report on stamps; `freq` is the counter's nominal frequency in Hz.
    Stamps {
        freq: u64,
        version: u32,
    },
    /// The report on the bases of the round trips.
    Rtt {
        freq: u64,
        version: u32,
    },
    /// The report on the estimates.
    Estimate {
        freq: u64,
        version: u32,
    },
    /// The report on the journal of ticks, with so many between two events.
    Ticks {
        freq: u64,
        ticks: u32,
        /// How many timers are added before the first tick, if they are asked for.
        timers: Option<u32>,
        version: u32,
    },
    /// The report on a replay: the ticks as above, so many readers, and so many attempts of each.
    Replay {
        freq: u64,
        ticks: u32,
        readers: u32,
        reads: u32,
        /// Attempts also convert a count of the past.
        back: bool,
        /// A crank raises the counter beside the one who winds.
        crank: bool,
        /// Attempts also read `Utc`.
        utc: bool,
        /// The daemon runs in a thread of its own, and its estimates come over a lane.
        lane: bool,
        version: u32,
    },
    /// The summary of a run over so many made stamps, which a number tells.
    Run {
        number: u64,
        count: u32,
        /// The summary also says how far the clock was from the truth.
        ideal: bool,
    },
}

/// What the summary of a run counts.
#[derive(Clone, Copy, Debug, PartialEq, Eq)]
pub struct Summary {
    /// Accepted stamps.
    pub accepted: u64,
    /// Refused stamps.
    pub refused: u64,
    /// Estimates at which the base of the round trips shifted upward.
    pub shifts: u64,
    /// Estimates whose time was predicted from the one before.
    pub predicted: u64,
    /// Estimates that went by the local rate.
    pub local: u64,
}

/// What the end line counts. Ticks, entries and timers are told where a report has them.
#[derive(Clone, Copy, Debug, PartialEq, Eq)]
pub struct EndCounts {
    /// Accepted stamps.
    pub accepted: u64,
    /// Refused items.
    pub refused: u64,
    /// Ticks of the journal.
    pub ticks: Option<u64>,
    /// Entries of the readers' logs.
    pub entries: Option<u64>,
    /// Timers that fired.
    pub fired: Option<u64>,
}

/// Which limit an input passes.
#[derive(Clone, Copy, Debug, PartialEq, Eq)]
pub enum Limit {
    /// More than 16,777,216 bytes.
    Bytes,
    /// More than 65,536 well-formed item lines.
    Stamps,
    /// More accepted stamps and sets together than a clock is played for.
    Accepted,
}

/// Why there is no report.
#[derive(Clone, Copy, Debug, PartialEq, Eq)]
pub enum FaultText {
    /// The words are no line of the command.
    Usage,
    /// The input is not in the grammar: its first fault.
    Input(LineFault),
    /// The input passes a limit.
    Large(Limit),
    /// A pull failed after so many bytes were taken.
    Read { taken: u64 },
    /// Memory was wanting.
    Memory,
    /// The input is no capture: its first fault.
    Capture(CapFault),
}

// Adds which version the stamp file has, where it is not the first.
fn add_version_part(line: &mut LineText, version: u32)
    requires { length line.old + 10 ≤ 640 }
    ensures text { line.new ≡ version_part version ++ line.old }
    ensures short { length line.new ≤ length line.old + 10 }
{
    line.mark(b" version 2", version == 2);
}

// Adds the flags of a replay.
#[tactic(auto, unfolding(crate::specs::Text::flags_part))]
fn add_flags_part(line: &mut LineText, back: bool, crank: bool, utc: bool, lane: bool)
    requires { length line.old + 240 ≤ 640 }
    ensures text { line.new ≡ flags_part back crank utc lane ++ line.old }
    ensures short { length line.new ≤ length line.old + 20 }
{
    line.mark(b" lane", lane);
    line.mark(b" utc", utc);
    line.mark(b" crank", crank);
    line.mark(b" back", back);
}

// Adds the options of a replay.
#[tactic(auto, unfolding(crate::specs::Text::options_part))]
fn add_options_part(
    line: &mut LineText,
    ticks: u32,
    readers: u32,
    reads: u32,
    back: bool,
    crank: bool,
    utc: bool,
    lane: bool,
)
    requires { length line.old + 240 ≤ 640 }
    ensures text { line.new ≡ options_part ticks readers reads back crank utc lane ++ line.old }
    ensures short { length line.new ≤ length line.old + 200 }
{
    add_flags_part(line, back, crank, utc, lane);
    line.number(u64::from(reads));
    line.word(b" reads ");
    line.number(u64::from(readers));
    line.word(b" readers ");
    line.number(u64::from(ticks));
    line.word(b" ticks ");
}

#[tactic(auto, unfolding(crate::specs::Text::head_text))]
fn head(h: ReportHead) -> LineText
    ensures { result ≡ head_text h }
{
    let mut line = LineText::new();
    line.word(b"\n");
    match h {
        ReportHead::Stamps { freq, version } => {
            add_version_part(&mut line, version);
            line.number(freq);
            line.word(b"report stamps freq ");
        }
        ReportHead::Rtt { freq, version } => {
            add_version_part(&mut line, version);
            line.number(freq);
            line.word(b"report rtt freq ");
        }
        ReportHead::Estimate { freq, version } => {
            add_version_part(&mut line, version);
            line.number(freq);
            line.word(b"report estimate freq ");
        }
        ReportHead::Ticks {
            freq,
            ticks,
            timers,
            version,
        } => {
            add_version_part(&mut line, version);
            line.count(b" timers ", timers.map(u64::from));
            line.number(u64::from(ticks));
            line.word(b" ticks ");
            line.number(freq);
            line.word(b"report ticks freq ");
        }
        ReportHead::Replay {
            freq,
            ticks,
            readers,
            reads,
            back,
            crank,
            utc,
            lane,
            version,
        } => {
            add_version_part(&mut line, version);
            add_options_part(&mut line, ticks, readers, reads, back, crank, utc, lane);
            line.number(freq);
            line.word(b"report replay freq ");
        }
        ReportHead::Run {
            number,
            count,
            ideal,
        } => {
            line.mark(b" ideal", ideal);
            line.number(u64::from(count));
            line.word(b" count ");
            line.number(number);
            line.word(b"report run number ");
        }
    }
    line
}

/// Pushes the report line.
pub fn head_line<K: Sink>(sink: &mut K, h: &ReportHead) -> Result<(), Failed>
    ensures { K.push_gives sink.old (head_text h.now) result sink.new }
{
    sink.push(head(*h).bytes())
}

// Adds what a stamp of version 2 says of its server.
#[inline(always)]
#[tactic(auto, unfolding(crate::specs::Text::server_part))]
fn add_server_part(line: &mut LineText, version: u32, s: &Stamp)
    requires { length line.old + 42 ≤ 640 }
    ensures text { line.new ≡ server_part version s.now ++ line.old }
    ensures short { length line.new ≤ length line.old + 42 }
{
    if version == 2 {
        line.column(u64::from(s.leap));
        line.column(u64::from(s.stratum));
    }
}

/// Pushes the line of the accepted stamp with the index `i`, from 0, and with its round trip in
/// counts. Where the file is of version 2 it ends with what the stamp says of its server.
#[tactic(auto, unfolding(crate::specs::Text::stamp_text))]
pub fn stamp_line<K: Sink>(
    sink: &mut K,
    line: &mut LineText,
    i: u64,
    s: &Stamp,
    version: u32,
) -> Result<(), Failed>
    requires { s.now.ta ≤ s.now.tf }
    ensures { K.push_gives sink.old (stamp_text i s.now version) result sink.new }
{
    line.clear();
    line.word(b"\n");
    add_server_part(line, version, s);
    line.column(s.tf - s.ta);
    line.column(s.tf);
    line.time_column(s.te);
    line.time_column(s.tb);
    line.column(s.ta);
    line.number(i);
    line.word(b"stamp ");
    sink.push(line.bytes())
}

/// Pushes the line of the accepted stamp with the index `i`, from 0, with its round trip `rtt` in
/// counts, and what is said of the base.
#[tactic(auto, unfolding(crate::specs::Text::base_text))]
pub fn base_line<K: Sink>(
    sink: &mut K,
    line: &mut LineText,
    i: u64,
    rtt: u64,
    b: &Base,
) -> Result<(), Failed>
    ensures { K.push_gives sink.old (base_text i rtt b.now) result sink.new }
{
    line.clear();
    line.word(b"\n");
    line.flag(b.shifted);
    line.word(b" ");
    line.column(b.start);
    line.column(b.base);
    line.column(rtt);
    line.number(i);
    line.word(b"base ");
    sink.push(line.bytes())
}

// Adds an estimate: the time at a count, the period, their errors, and the marks.
#[inline(always)]
#[tactic(auto, unfolding(crate::specs::Text::time_part))]
fn add_time_part(line: &mut LineText, e: &Estimate)
    requires { length line.old + 240 ≤ 640 }
    ensures text { line.new ≡ time_part e.now ++ line.old }
    ensures short { length line.new ≤ length line.old + 200 }
{
    add_marks(line, e.status);
    line.word(b" ");
    line.column(u64::from(e.errb_rate));
    line.column(u64::from(e.errb_abs));
    line.column(e.period);
    line.time_column(e.update_time);
    line.number(e.update_ffcount);
}

// Adds what stands behind an estimate: the spread, the bounds of the period, and the flags.
#[inline(always)]
#[tactic(auto, unfolding(crate::specs::Text::spread_part))]
fn add_spread_part(line: &mut LineText, f: &Full)
    requires { length line.old + 240 ≤ 640 }
    ensures text { line.new ≡ spread_part f.now ++ line.old }
    ensures short { length line.new ≤ length line.old + 200 }
{
    line.letter(b"P", f.predicted);
    line.letter(b"L", f.local);
    line.letter(b"S", f.shifted);
    line.word(b" ");
    line.column(f.rate.high);
    line.column(f.rate.low);
    line.wide(f.spread);
}

// Adds leap seconds: when the next one is due, how many there were, and which it is.
#[inline(always)]
#[tactic(auto, unfolding(crate::specs::Text::leap_part))]
fn add_leap_part(line: &mut LineText, e: &Estimate)
    requires { length line.old + 122 ≤ 640 }
    ensures text { line.new ≡ leap_part e.now ++ line.old }
    ensures short { length line.new ≤ length line.old + 122 }
{
    line.signed(i64::from(e.leapsec));
    line.word(b" ");
    line.signed(i64::from(e.leapsec_total));
    line.word(b" ");
    line.number(e.leapsec_next);
}

// Adds those of an estimate of version 2.
#[inline(always)]
#[tactic(auto, unfolding(crate::specs::Text::told_leaps_part))]
fn add_told_leaps_part(line: &mut LineText, version: u32, e: &Estimate)
    requires { length line.old + 123 ≤ 640 }
    ensures text { line.new ≡ told_leaps_part version e.now ++ line.old }
    ensures short { length line.new ≤ length line.old + 123 }
{
    if version == 2 {
        add_leap_part(line, e);
        line.word(b" ");
    }
}

/// Pushes the line of the accepted stamp with the index `i`, from 0, with all that is said at it. Where the
/// file is of version 2 it ends with what the estimate tells of leap seconds.
#[tactic(auto, unfolding(crate::specs::Text::estimate_text))]
pub fn estimate_line<K: Sink>(
    sink: &mut K,
    line: &mut LineText,
    i: u64,
    f: &Full,
    version: u32,
) -> Result<(), Failed>
    ensures { K.push_gives sink.old (estimate_text i f.now version) result sink.new }
{
    line.clear();
    line.word(b"\n");
    add_told_leaps_part(line, version, &f.est);
    add_spread_part(line, f);
    line.word(b" ");
    add_time_part(line, &f.est);
    line.word(b" ");
    line.number(i);
    line.word(b"estimate ");
    sink.push(line.bytes())
}

/// Pushes the line of an accepted set at a count, with the time that the clock is set to.
#[tactic(auto, unfolding(crate::specs::Text::set_text))]
pub fn set_line<K: Sink>(
    sink: &mut K,
    line: &mut LineText,
    count: u64,
    at: Bintime,
) -> Result<(), Failed>
    ensures { K.push_gives sink.old (set_text count at) result sink.new }
{
    line.clear();
    line.word(b"\n");
    line.time_column(at);
    line.number(count);
    line.word(b"set ");
    sink.push(line.bytes())
}

/// Pushes the line of an accepted leap second behind a count: its sign is 1 where it is put in, and -1
/// where it is left out.
#[tactic(auto, unfolding(crate::specs::Text::leap_text))]
pub fn leap_line<K: Sink>(
    sink: &mut K,
    line: &mut LineText,
    count: u64,
    leap: i8,
) -> Result<(), Failed>
    ensures { K.push_gives sink.old (leap_text count leap) result sink.new }
{
    line.clear();
    line.word(b"\n");
    line.signed(i64::from(leap));
    line.word(b" ");
    line.number(count);
    line.word(b"leap ");
    sink.push(line.bytes())
}

// Adds where the clocks stand.
#[inline(always)]
#[tactic(auto, unfolding(crate::specs::Text::clock_part))]
fn add_clock_part(line: &mut LineText, h: &Hands)
    requires { length line.old + 300 ≤ 640 }
    ensures text { line.new ≡ clock_part h.now ++ line.old }
    ensures short { length line.new ≤ length line.old + 200 }
{
    add_marks(line, h.kstatus);
    line.word(b" ");
    line.time_column(h.boot);
    line.column(h.period_lerp);
    line.time_column(h.lerp);
    line.time_column(h.time);
    line.column(h.count);
    add_how(line, h.how);
}

// Adds the estimate that the clocks go by.
#[inline(always)]
#[tactic(auto, unfolding(crate::specs::Text::given_part))]
fn add_given_part(line: &mut LineText, e: &Estimate)
    requires { length line.old + 240 ≤ 640 }
    ensures text { line.new ≡ given_part e.now ++ line.old }
    ensures short { length line.new ≤ length line.old + 200 }
{
    add_marks(line, e.status);
    line.word(b" ");
    line.column(u64::from(e.errb_rate));
    line.column(u64::from(e.errb_abs));
    line.column(e.period);
    line.column(e.update_ffcount);
    line.time(e.update_time);
}

/// Pushes the line of the tick with the number `n`, from 0.
#[tactic(auto, unfolding(crate::specs::Text::tick_text))]
pub fn tick_line<K: Sink>(
    sink: &mut K,
    line: &mut LineText,
    n: u64,
    h: &Hands,
) -> Result<(), Failed>
    ensures { K.push_gives sink.old (tick_text n h.now) result sink.new }
{
    line.clear();
    line.word(b"\n");
    add_leap_part(line, &h.est);
    line.word(b" ");
    add_given_part(line, &h.est);
    line.word(b" ");
    add_clock_part(line, h);
    line.word(b" ");
    line.number(n);
    line.word(b"tick ");
    sink.push(line.bytes())
}

/// Pushes the line of a timer that fires at the tick with the number `tick`, from 0: its id, and the uptime
/// that it was due at.
#[tactic(auto, unfolding(crate::specs::Text::fire_text))]
pub fn fire_line<K: Sink>(
    sink: &mut K,
    line: &mut LineText,
    tick: u64,
    f: &Fired,
) -> Result<(), Failed>
    ensures { K.push_gives sink.old (fire_text tick f.now) result sink.new }
{
    line.clear();
    line.word(b"\n");
    line.time_column(f.due);
    line.column(f.id);
    line.number(tick);
    line.word(b"fire ");
    sink.push(line.bytes())
}

/// Pushes the line of a refused item, with the number of its line in the file, from 1.
#[tactic(auto, unfolding(crate::specs::Text::refused_text))]
pub fn refused_line<K: Sink>(
    sink: &mut K,
    line: &mut LineText,
    number: u64,
    why: Refused,
) -> Result<(), Failed>
    ensures { K.push_gives sink.old (refused_text number why) result sink.new }
{
    line.clear();
    line.word(b"\n");
    line.word(refused_name(why));
    line.word(b" ");
    line.number(number);
    line.word(b"refused ");
    sink.push(line.bytes())
}

/// Pushes the summary of a run.
#[tactic(auto, unfolding(crate::specs::Text::summary_text))]
pub fn summary_line<K: Sink>(sink: &mut K, s: &Summary) -> Result<(), Failed>
    ensures { K.push_gives sink.old (summary_text s.now) result sink.new }
{
    let mut line = LineText::new();
    line.word(b"\n");
    line.number(s.local);
    line.word(b" local ");
    line.number(s.predicted);
    line.word(b" predicted ");
    line.number(s.shifts);
    line.word(b" shifts ");
    line.number(s.refused);
    line.word(b" refused ");
    line.number(s.accepted);
    line.word(b"summary accepted ");
    sink.push(line.bytes())
}

/// Pushes the line of the tick with the number `tick`, from 0, with the distance of its time from the
/// truth and the bound that is told of it, both in grains.
#[tactic(auto, unfolding(crate::specs::Text::ideal_text))]
pub fn ideal_line<K: Sink>(
    sink: &mut K,
    tick: u64,
    distance: u128,
    bound: u128,
) -> Result<(), Failed>
    ensures { K.push_gives sink.old (ideal_text tick distance bound) result sink.new }
{
    let mut line = LineText::new();
    line.word(b"\n");
    line.wide(bound);
    line.word(b" ");
    line.wide(distance);
    line.word(b" ");
    line.number(tick);
    line.word(b"ideal ");
    sink.push(line.bytes())
}

/// Pushes the end line.
#[tactic(auto, unfolding(crate::specs::Text::end_text))]
pub fn end_line<K: Sink>(sink: &mut K, e: &EndCounts) -> Result<(), Failed>
    ensures { K.push_gives sink.old (end_text e.now) result sink.new }
{
    let mut line = LineText::new();
    line.word(b"\n");
    line.count(b" fired ", e.fired);
    line.count(b" entries ", e.entries);
    line.count(b" ticks ", e.ticks);
    line.number(e.refused);
    line.word(b" refused ");
    line.number(e.accepted);
    line.word(b"end accepted ");
    sink.push(line.bytes())
}

#[tactic(auto, unfolding(crate::specs::Text::fault_text))]
fn fault(f: FaultText) -> LineText
    ensures { result ≡ fault_text f }
{
    let mut line = LineText::new();
    line.word(b"\n");
    match f {
        FaultText::Usage => line.word(b"fault usage"),
        FaultText::Input(fault) => {
            line.word(why_name(fault.why));
            line.word(b" ");
            line.number(fault.line);
            line.word(b"fault input ");
        }
        FaultText::Large(limit) => {
            line.word(limit_name(limit));
            line.word(b"fault large ");
        }
        FaultText::Read { taken } => {
            line.number(taken);
            line.word(b"fault read ");
        }
        FaultText::Memory => line.word(b"fault memory"),
        FaultText::Capture(fault) => {
            line.word(capture_why_name(fault.why));
            line.word(b" ");
            line.number(fault.at);
            line.word(b"fault capture ");
        }
    }
    line
}

/// Pushes the fault line.
pub fn fault_line<K: Sink>(sink: &mut K, f: &FaultText) -> Result<(), Failed>
    ensures { K.push_gives sink.old (fault_text f.now) result sink.new }
{
    sink.push(fault(*f).bytes())
}
