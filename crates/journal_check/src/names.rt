// Words from the front of a text.
ghost use Rattle.std.specs.Prelude.{◌≡◌};
ghost use Rattle.journal_check.specs.Reading.{told, choice_at};
ghost use Rattle.journal_check.specs.Parts.{flags_at};
ghost use Rattle.journal_check.specs.Names.{how_at, kind_at, stamp_refusals, item_refusals, refused_at, marks_at};

use crate::numbers::behind;
use clock_lines::Kind;
use ff_hands::{How, Marks};
use stamp_text::Refused;

/// How a tick came about.
#[inline(always)]
pub fn how(text: &[u8]) -> Option<(How, &[u8])>
    ensures { told result ≡ how_at text.now }
{
    if let Some(rest) = behind(b"plain", text) {
        return Some((How::Plain, rest));
    }
    if let Some(rest) = behind(b"take", text) {
        return Some((How::Take, rest));
    }
    if let Some(rest) = behind(b"jump", text) {
        return Some((How::Jump, rest));
    }
    if let Some(rest) = behind(b"reset", text) {
        return Some((How::Reset, rest));
    }
    Some((How::Cold, behind(b"cold", text)?))
}

/// What is read.
#[inline(always)]
pub fn kind(text: &[u8]) -> Option<(Kind, &[u8])>
    ensures { told result ≡ kind_at text.now }
{
    if let Some(rest) = behind(b"abs", text) {
        return Some((Kind::Abs, rest));
    }
    if let Some(rest) = behind(b"mono", text) {
        return Some((Kind::Mono, rest));
    }
    if let Some(rest) = behind(b"uptime", text) {
        return Some((Kind::Uptime, rest));
    }
    if let Some(rest) = behind(b"fast", text) {
        return Some((Kind::Fast, rest));
    }
    if let Some(rest) = behind(b"diff", text) {
        return Some((Kind::Diff, rest));
    }
    if let Some(rest) = behind(b"back", text) {
        return Some((Kind::Back, rest));
    }
    Some((Kind::Utc, behind(b"utc", text)?))
}

// Why a stamp is refused that is tested by its times alone.
fn stamp_refused(text: &[u8]) -> Option<(Refused, &[u8])>
    ensures { told result ≡ choice_at stamp_refusals text.now }
{
    if let Some(rest) = behind(b"backward", text) {
        return Some((Refused::Backward, rest));
    }
    if let Some(rest) = behind(b"server-backward", text) {
        return Some((Refused::ServerBackward, rest));
    }
    if let Some(rest) = behind(b"overlap", text) {
        return Some((Refused::Overlap, rest));
    }
    if let Some(rest) = behind(b"server-old", text) {
        return Some((Refused::ServerOld, rest));
    }
    if let Some(rest) = behind(b"long-trip", text) {
        return Some((Refused::LongTrip, rest));
    }
    Some((Refused::Acausal, behind(b"acausal", text)?))
}

// Why an item is refused otherwise.
fn item_refused(text: &[u8]) -> Option<(Refused, &[u8])>
    ensures { told result ≡ choice_at item_refusals text.now }
{
    if let Some(rest) = behind(b"unsynchronised", text) {
        return Some((Refused::Unsynchronised, rest));
    }
    if let Some(rest) = behind(b"before-set", text) {
        return Some((Refused::BeforeSet, rest));
    }
    if let Some(rest) = behind(b"set-old", text) {
        return Some((Refused::SetOld, rest));
    }
    if let Some(rest) = behind(b"leap-old", text) {
        return Some((Refused::LeapOld, rest));
    }
    if let Some(rest) = behind(b"leap-pending", text) {
        return Some((Refused::LeapPending, rest));
    }
    if let Some(rest) = behind(b"leap-unannounced", text) {
        return Some((Refused::LeapUnannounced, rest));
    }
    Some((Refused::LeapLimit, behind(b"leap-limit", text)?))
}

/// Why an item is refused.
pub fn refused(text: &[u8]) -> Option<(Refused, &[u8])>
    ensures { told result ≡ refused_at text.now }
{
    if let Some(found) = stamp_refused(text) {
        return Some(found);
    }
    item_refused(text)
}

fn marked(unsync: bool, warmup: bool) -> Marks
    ensures { result ≡ record { unsync = unsync; warmup = warmup } }
{
    Marks { unsync, warmup }
}

/// The marks of a clock.
#[inline(always)]
pub fn marks(text: &[u8]) -> Option<(Marks, &[u8])>
    ensures { told result ≡ marks_at text.now }
{
    if let Some(rest) = behind(b"-", text) {
        return Some((marked(false, false), rest));
    }
    if let Some(rest) = behind(b"UW", text) {
        return Some((marked(true, true), rest));
    }
    if let Some(rest) = behind(b"U", text) {
        return Some((marked(true, false), rest));
    }
    Some((marked(false, true), behind(b"W", text)?))
}

/// The flags of an estimate: shifted, local, predicted.
pub fn flags(text: &[u8]) -> Option<((bool, bool, bool), &[u8])>
    ensures { told result ≡ flags_at text.now }
{
    if let Some(rest) = behind(b"---", text) {
        return Some(((false, false, false), rest));
    }
    if let Some(rest) = behind(b"--P", text) {
        return Some(((false, false, true), rest));
    }
    if let Some(rest) = behind(b"-L-", text) {
        return Some(((false, true, false), rest));
    }
    if let Some(rest) = behind(b"-LP", text) {
        return Some(((false, true, true), rest));
    }
    if let Some(rest) = behind(b"S--", text) {
        return Some(((true, false, false), rest));
    }
    if let Some(rest) = behind(b"S-P", text) {
        return Some(((true, false, true), rest));
    }
    if let Some(rest) = behind(b"SL-", text) {
        return Some(((true, true, false), rest));
    }
    Some(((true, true, true), behind(b"SLP", text)?))
}
