// Lines of version 2.
ghost use Rattle.std.specs.Prelude.{◌≡◌, ◌<◌, [], ◌∷◌, codes, IfSome, MatchOption, None, Some};
ghost use Rattle.std.specs.Str.{bytes_eq};
ghost use Rattle.stamp_text.specs.Stamps.{pieces_of};
ghost use Rattle.stamp_text.specs.Items.{item_in, item_of_pieces, leap_of, leap_says, set_of, set_says, sign_in, stamp_item, two_of};

use crate::lines::{Item, Stamp, Why};
use crate::numbers::{Written, number_of, time_of};
use crate::stamps::{COUNTS, SECONDS, cut_piece, stamp_of, stamp_of_pieces};
use ff_grain::from_nanos;

// A leap second is put in, or left out.
fn sign_of(text: &[u8]) -> Option<i8>
    ensures { result ≡ sign_in text.now }
{
    match text {
        b"1" => Some(1),
        b"-1" => Some(-1),
        _ => None,
    }
}

// The set of a counter and a time, if they are told and in their ranges.
fn set_of_numbers(count: Option<u64>, at: Option<Written>) -> Result<Item, Why>
    requires at { IfSome at (λ t. t.nanos < 1000000000) }
    ensures { result ≡ set_of count at }
{
    let (Some(count), Some(at)) = (count, at) else {
        return Err(Why::Digits);
    };
    if count < COUNTS && at.sec < SECONDS {
        Ok(Item::Set {
            count,
            at: from_nanos(at.sec, at.nanos),
        })
    } else {
        Err(Why::Range)
    }
}

// The leap second of a counter and a sign, if they are told and in their ranges.
fn leap_of_numbers(count: Option<u64>, leap: Option<i8>) -> Result<Item, Why>
    ensures { result ≡ leap_of count leap }
{
    let (Some(count), Some(leap)) = (count, leap) else {
        return Err(Why::Digits);
    };
    if count < COUNTS {
        Ok(Item::Leap { count, leap })
    } else {
        Err(Why::Range)
    }
}

// Two pieces, where none of them is empty.
fn both_of<'a>(a: &'a [u8], b: &'a [u8]) -> Option<(&'a [u8], &'a [u8])>
    ensures { MatchOption result
        (two_of (a.now ∷ b.now ∷ []) ≡ None)
        (λ p. two_of (a.now ∷ b.now ∷ []) ≡ Some (p.0.now, p.1.now)) }
{
    if a.is_empty() || b.is_empty() {
        return None;
    }
    Some((a, b))
}

// Two pieces, none of them empty, where a text has as many.
fn two_of(text: &[u8]) -> Option<(&[u8], &[u8])>
    ensures { MatchOption result
        (two_of (pieces_of text.now) ≡ None)
        (λ p. two_of (pieces_of text.now) ≡ Some (p.0.now, p.1.now)) }
{
    let (a, b) = cut_piece(text)?;
    match cut_piece(b) {
        Some(_) => None,
        None => both_of(a, b),
    }
}

// The set that the rest behind its word says.
fn set_of(rest: &[u8]) -> Result<Item, Why>
    ensures { result ≡ set_says (two_of (pieces_of rest.now)) }
{
    match two_of(rest) {
        Some((count, at)) => set_of_numbers(number_of(count), time_of(at)),
        None => Err(Why::Columns),
    }
}

// The leap second that the rest behind its word says.
fn leap_of(rest: &[u8]) -> Result<Item, Why>
    ensures { result ≡ leap_says (two_of (pieces_of rest.now)) }
{
    match two_of(rest) {
        Some((count, sign)) => leap_of_numbers(number_of(count), sign_of(sign)),
        None => Err(Why::Columns),
    }
}

fn is_set(word: &[u8]) -> bool
    ensures { result ≡ bytes_eq word.now (codes "set") }
{
    word == b"set".as_slice()
}

fn is_leap(word: &[u8]) -> bool
    ensures { result ≡ bytes_eq word.now (codes "leap") }
{
    word == b"leap".as_slice()
}

fn as_item(stamp: Result<Stamp, Why>) -> Result<Item, Why>
    ensures { result ≡ stamp_item stamp }
{
    Ok(Item::Stamp(stamp?))
}

fn item_by_pieces(line: &[u8]) -> Result<Item, Why>
    ensures { result ≡ item_of_pieces (pieces_of line.now) }
{
    let (word, rest) = cut_piece(line).ok_or(Why::Columns)?;
    if is_set(word) {
        set_of(rest)
    } else if is_leap(word) {
        leap_of(rest)
    } else {
        as_item(stamp_of_pieces(word, rest))
    }
}

/// The item that a line says, in a file of version 2 or of version 1.
#[tactic(auto, unfolding(crate::specs::Items::item_in))]
pub fn item_of(second: bool, line: &[u8]) -> Result<Item, Why>
    ensures { result ≡ item_in second line.now }
{
    if second {
        item_by_pieces(line)
    } else {
        as_item(stamp_of(line))
    }
}
