// The words of a report for causes, limits, refusals, ticks and kinds of clock.
ghost use Rattle.std.specs.Prelude.{◌≡◌, ◌≤◌, ◌+◌, ◌++◌, length};
ghost use Rattle.report_text.specs.Text.{why_name, capture_why_name, limit_name, refused_name, marks_text, how_name, kind_name};

use crate::line::LineText;
use crate::lines::Limit;
use clock_lines::Kind;
use ff_hands::{How, Marks};
use ntp_capture::CapWhy;
use stamp_text::{Refused, Why};

pub fn why_name(why: Why) -> &'static [u8]
    ensures name { result.now ≡ why_name why }
    ensures short { length result.now ≤ 9 }
{
    match why {
        Why::Head => b"head",
        Why::Freq => b"freq",
        Why::Columns => b"columns",
        Why::Digits => b"digits",
        Why::Range => b"range",
        Why::LongLine => b"long-line",
    }
}

pub fn capture_why_name(why: CapWhy) -> &'static [u8]
    ensures name { result.now ≡ capture_why_name why }
    ensures short { length result.now ≤ 9 }
{
    match why {
        CapWhy::Head => b"head",
        CapWhy::Freq => b"freq",
        CapWhy::Counter => b"counter",
        CapWhy::Direction => b"direction",
        CapWhy::Short => b"short",
        CapWhy::Cut => b"cut",
    }
}

pub fn limit_name(limit: Limit) -> &'static [u8]
    ensures name { result.now ≡ limit_name limit }
    ensures short { length result.now ≤ 8 }
{
    match limit {
        Limit::Bytes => b"bytes",
        Limit::Stamps => b"stamps",
        Limit::Accepted => b"accepted",
    }
}

pub fn refused_name(why: Refused) -> &'static [u8]
    ensures name { result.now ≡ refused_name why }
    ensures short { length result.now ≤ 16 }
{
    match why {
        Refused::Backward => b"backward",
        Refused::ServerBackward => b"server-backward",
        Refused::Overlap => b"overlap",
        Refused::ServerOld => b"server-old",
        Refused::LongTrip => b"long-trip",
        Refused::Acausal => b"acausal",
        Refused::Unsynchronised => b"unsynchronised",
        Refused::BeforeSet => b"before-set",
        Refused::SetOld => b"set-old",
        Refused::LeapOld => b"leap-old",
        Refused::LeapPending => b"leap-pending",
        Refused::LeapUnannounced => b"leap-unannounced",
        Refused::LeapLimit => b"leap-limit",
    }
}

/// Puts the letters of the marks that are set in front, or a dash.
#[inline(always)]
pub fn add_marks(line: &mut LineText, marks: Marks)
    requires { length line.old + 2 ≤ 640 }
    ensures text { line.new ≡ marks_text marks ++ line.old }
    ensures short { length line.new ≤ length line.old + 2 }
{
    match (marks.unsync, marks.warmup) {
        (true, true) => line.word(b"UW"),
        (true, false) => line.word(b"U"),
        (false, true) => line.word(b"W"),
        (false, false) => line.word(b"-"),
    }
}

/// Puts in front how a tick came about.
#[inline(always)]
pub fn add_how(line: &mut LineText, how: How)
    requires { length line.old + 5 ≤ 640 }
    ensures text { line.new ≡ how_name how ++ line.old }
    ensures short { length line.new ≤ length line.old + 5 }
{
    match how {
        How::Cold => line.word(b"cold"),
        How::Plain => line.word(b"plain"),
        How::Take => line.word(b"take"),
        How::Jump => line.word(b"jump"),
        How::Reset => line.word(b"reset"),
    }
}

#[inline(always)]
pub fn kind_name(kind: Kind) -> &'static [u8]
    ensures name { result.now ≡ kind_name kind }
    ensures short { length result.now ≤ 6 }
{
    match kind {
        Kind::Abs => b"abs",
        Kind::Mono => b"mono",
        Kind::Uptime => b"uptime",
        Kind::Fast => b"fast",
        Kind::Diff => b"diff",
        Kind::Back => b"back",
        Kind::Utc => b"utc",
    }
}
