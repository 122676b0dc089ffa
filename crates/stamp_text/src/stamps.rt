// Stamp lines.
ghost use Rattle.std.specs.Prelude.{◌≡◌, ◌<◌, ◌||◌, true, [], ◌∷◌, IfSome, MatchOption};
ghost use Rattle.stamp_text.specs.Digits.{number_in};
ghost use Rattle.stamp_text.specs.Times.{time_in};
ghost use Rattle.stamp_text.specs.Pieces.{BeginsWithLine, BeginsWithNumber, BeginsWithStamp, IsNumberPiece, IsTimePiece};
ghost use Rattle.stamp_text.specs.Stamps.{is_empty, pieces_of, stamp_of_pieces, stamp_in, stamp_within, stamp_of_numbers};

use crate::cuts::cut_at;
use crate::lines::{Stamp, Why};
use crate::numbers::{
    NANO_DIGITS, Written, digits_ahead, filled, number_ahead, number_of, time_of,
};
use ff_grain::from_nanos;

/// The first counter that is too large.
pub const COUNTS: u64 = 1 << 62;

/// The first second that is too large.
pub const SECONDS: u64 = 1 << 32;

/// The first stratum that is too large.
const STRATA: u64 = 256;

/// The first word on leap seconds that is too large.
const LEAPS: u64 = 4;

// The stamp of version 1 of two counters and two times, if they are in their ranges.
#[inline(always)]
fn stamp_within_ranges(ta: u64, tb: Written, te: Written, tf: u64) -> Result<Stamp, Why>
    requires tb { tb.nanos < 1000000000 }
    requires te { te.nanos < 1000000000 }
    ensures { result ≡ stamp_within ta tb te tf 1 0 }
{
    if ta < COUNTS && tb.sec < SECONDS && te.sec < SECONDS && tf < COUNTS {
        Ok(Stamp {
            ta,
            tb: from_nanos(tb.sec, tb.nanos),
            te: from_nanos(te.sec, te.nanos),
            tf,
            stratum: 1,
            leap: 0,
        })
    } else {
        Err(Why::Range)
    }
}

// The stamp of two counters and two times, with a stratum and a leap, if they are in their ranges.
#[inline(always)]
fn stamp_within(
    ta: u64,
    tb: Written,
    te: Written,
    tf: u64,
    stratum: u64,
    leap: u64,
) -> Result<Stamp, Why>
    requires tb { tb.nanos < 1000000000 }
    requires te { te.nanos < 1000000000 }
    ensures { result ≡ stamp_within ta tb te tf stratum leap }
{
    let stamp = stamp_within_ranges(ta, tb, te, tf)?;
    if stratum < STRATA && leap < LEAPS {
        Ok(Stamp {
            stratum: stratum as u32,
            leap: leap as u32,
            ..stamp
        })
    } else {
        Err(Why::Range)
    }
}

// The same, if they are all told.
fn stamp_of_numbers(
    ta: Option<u64>,
    tb: Option<Written>,
    te: Option<Written>,
    tf: Option<u64>,
    stratum: Option<u64>,
    leap: Option<u64>,
) -> Result<Stamp, Why>
    requires tb { IfSome tb (λ t. t.nanos < 1000000000) }
    requires te { IfSome te (λ t. t.nanos < 1000000000) }
    ensures { result ≡ stamp_of_numbers ta tb te tf stratum leap }
{
    match (ta, tb, te, tf, stratum, leap) {
        (Some(ta), Some(tb), Some(te), Some(tf), Some(stratum), Some(leap)) => {
            stamp_within(ta, tb, te, tf, stratum, leap)
        }
        _ => Err(Why::Digits),
    }
}

fn stamp_of_texts(a: &[u8], b: &[u8], c: &[u8], d: &[u8], e: &[u8], f: &[u8]) -> Result<Stamp, Why>
    ensures { result ≡ stamp_of_numbers (number_in a.now) (time_in b.now) (time_in c.now)
        (number_in d.now) (number_in e.now) (number_in f.now) }
{
    stamp_of_numbers(
        number_of(a),
        time_of(b),
        time_of(c),
        number_of(d),
        number_of(e),
        number_of(f),
    )
}

fn has_empty(a: &[u8], b: &[u8], c: &[u8]) -> bool
    ensures { result ≡ (is_empty a.now || is_empty b.now || is_empty c.now) }
{
    a.is_empty() || b.is_empty() || c.is_empty()
}

fn stamp_of_six(a: &[u8], b: &[u8], c: &[u8], d: &[u8], e: &[u8], f: &[u8]) -> Result<Stamp, Why>
    ensures { result ≡
        stamp_of_pieces (a.now ∷ b.now ∷ c.now ∷ d.now ∷ e.now ∷ f.now ∷ []) }
{
    if has_empty(a, b, c) || d.is_empty() || e.is_empty() || f.is_empty() {
        return Err(Why::Columns);
    }
    stamp_of_texts(a, b, c, d, e, f)
}

/// The first piece of a line, and what stands behind its space, if it has one.
pub fn cut_piece(text: &[u8]) -> Option<(&[u8], &[u8])>
    ensures { MatchOption result
        (pieces_of text.now ≡ text.now ∷ [])
        (λ p. pieces_of text.now ≡ p.0.now ∷ pieces_of p.1.now) }
{
    cut_at(text, b' ')
}

// The number that a text begins with, and what stands behind its space.
#[inline(always)]
fn number_piece(text: &[u8]) -> Option<(u64, &[u8])>
    ensures { IfSome result (λ p. IsNumberPiece text.now p.0 p.1.now) }
{
    let (value, count) = number_ahead(text)?;
    if count < text.len() && text[count] == b' ' {
        Some((value, &text[count + 1..]))
    } else {
        None
    }
}

// The number that a text begins with, and how many digits it has. Strata and leaps mostly have one digit,
// with `end` behind it.
#[inline(always)]
fn small_ahead(text: &[u8], end: u8) -> Option<(u64, usize)>
    ensures { IfSome result (λ p. BeginsWithNumber text.now p.0 p.1) }
{
    if text.len() > 1 && text[1] == end && text[0].is_ascii_digit() {
        return Some((u64::from(text[0] - b'0'), 1));
    }
    number_ahead(text)
}

// Such a number, and what stands behind its space.
#[inline(always)]
fn small_piece(text: &[u8]) -> Option<(u64, &[u8])>
    ensures { IfSome result (λ p. IsNumberPiece text.now p.0 p.1.now) }
{
    let (value, count) = small_ahead(text, b' ')?;
    if count < text.len() && text[count] == b' ' {
        Some((value, &text[count + 1..]))
    } else {
        None
    }
}

// The time that a text begins with, where it has a point, and what stands behind its space.
#[inline(always)]
fn time_piece(text: &[u8]) -> Option<(Written, &[u8])>
    ensures piece { IfSome result (λ p. IsTimePiece text.now p.0 p.1.now) }
    ensures below { IfSome result (λ p. p.0.nanos < 1000000000) }
{
    let (sec, count) = number_ahead(text)?;
    if count >= text.len() || text[count] != b'.' {
        return None;
    }
    let rest = &text[count + 1..];
    let (value, digits) = digits_ahead(rest)?;
    if digits == 0 || digits > NANO_DIGITS || digits >= rest.len() || rest[digits] != b' ' {
        return None;
    }
    let nanos = filled(value, digits) as u32;
    Some((Written { sec, nanos }, &rest[digits + 1..]))
}

/// What the stamp line says that a text begins with, and how many bytes it has, in one walk. Only
/// lines of two counters and two times with points are told.
#[inline(always)]
pub fn stamp_ahead(text: &[u8]) -> Option<(Result<Stamp, Why>, usize)>
    ensures { IfSome result (λ p. BeginsWithStamp text.now p.0 p.1) }
{
    let (ta, rest) = number_piece(text)?;
    let (tb, rest) = time_piece(rest)?;
    let (te, rest) = time_piece(rest)?;
    let (tf, count) = number_ahead(rest)?;
    let before = text.len() - rest.len();
    Some((stamp_within_ranges(ta, tb, te, tf), before + count))
}

/// The same of version 2, with a stratum and a leap behind them.
#[inline(always)]
pub fn second_ahead(text: &[u8]) -> Option<(Result<Stamp, Why>, usize)>
    ensures { IfSome result (λ p. BeginsWithLine true text.now p.0 p.1) }
{
    let (ta, rest) = number_piece(text)?;
    let (tb, rest) = time_piece(rest)?;
    let (te, rest) = time_piece(rest)?;
    let (tf, rest) = number_piece(rest)?;
    let (stratum, rest) = small_piece(rest)?;
    let (leap, count) = small_ahead(rest, b'\n')?;
    let before = text.len() - rest.len();
    let answer = stamp_within(ta, tb, te, tf, stratum, leap);
    Some((answer, before + count))
}

/// The stamp that a line of version 1 says.
pub fn stamp_of(line: &[u8]) -> Result<Stamp, Why>
    ensures { result ≡ stamp_in line.now }
{
    match stamp_ahead(line) {
        Some((answer, count)) if count == line.len() => answer,
        _ => stamp_by_pieces(line),
    }
}

// The same, piece by piece.
#[tactic(auto, unfolding(crate::specs::Stamps::stamp_in))]
fn stamp_by_pieces(line: &[u8]) -> Result<Stamp, Why>
    ensures { result ≡ stamp_in line.now }
{
    let (a, rest) = cut_piece(line).ok_or(Why::Columns)?;
    let (b, rest) = cut_piece(rest).ok_or(Why::Columns)?;
    let (c, rest) = cut_piece(rest).ok_or(Why::Columns)?;
    match cut_piece(rest) {
        None => stamp_of_six(a, b, c, rest, b"1", b"0"),
        Some(_) => Err(Why::Columns),
    }
}

/// The stamp of version 2 that a first piece and the rest behind its space say.
pub fn stamp_of_pieces(first: &[u8], rest: &[u8]) -> Result<Stamp, Why>
    ensures { result ≡ stamp_of_pieces (first.now ∷ pieces_of rest.now) }
{
    let (b, rest) = cut_piece(rest).ok_or(Why::Columns)?;
    let (c, rest) = cut_piece(rest).ok_or(Why::Columns)?;
    let (d, rest) = cut_piece(rest).ok_or(Why::Columns)?;
    let (e, rest) = cut_piece(rest).ok_or(Why::Columns)?;
    match cut_piece(rest) {
        None => stamp_of_six(first, b, c, d, e, rest),
        Some(_) => Err(Why::Columns),
    }
}
