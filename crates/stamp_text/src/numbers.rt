// Numbers and times as they are written.
ghost use Rattle.std.specs.Prelude.{◌≡◌, ◌-◌, ◌^◌, ◌<◌, ◌≤◌, length, min, replicate, IfSome};
ghost use Rattle.std.specs.Option.{option_map};
ghost use Rattle.stamp_text.specs.Digits.{all_digits, number_in, value_from};
ghost use Rattle.stamp_text.specs.Pieces.{BeginsWithDigits, BeginsWithNumber};
ghost use Rattle.stamp_text.specs.Times.{nanos_in, written_of, time_in, capped};

use crate::cuts::cut_at;

/// A time as it is written: seconds, and nanoseconds below 10^9.
#[derive(Clone, Copy, Debug, PartialEq, Eq)]
pub struct Written {
    pub sec: u64,
    pub nanos: u32,
}

/// How many digits nanoseconds have.
pub const NANO_DIGITS: usize = 9;

/// The most digits whose value surely has 64 bits, so that it has not wrapped.
const SHORT: usize = 19;

// The value of digits, or the greatest value where that is more.
fn value_of(digits: &[u8]) -> u64
    ensures { result ≡ min (value_from 0 digits.now) (2 ^ 64 - 1) }
{
    let mut value = 0u64;
    for digit in digits {
        value = value
            .saturating_mul(10)
            .saturating_add(u64::from(digit.saturating_sub(b'0')));
    }
    value
}

fn has_digits_alone(text: &[u8]) -> bool
    ensures { result ≡ all_digits text.now }
{
    text.iter().all(u8::is_ascii_digit)
}

/// The number that a text is: `0`, or a digit from 1 to 9 followed by digits. A number from 2^64 on
/// is answered as 2^64 - 1, and a text that is no number as `None`.
pub fn number_of(text: &[u8]) -> Option<u64>
    ensures { result ≡ option_map (λ n. min n (2 ^ 64 - 1)) (number_in text.now) }
{
    match text {
        [b'0'] => Some(0),
        [b'1'..=b'9', ..] if has_digits_alone(text) => Some(value_of(text)),
        _ => None,
    }
}

// The value of eight bytes, where all of them are digits, by one word that has the first of them in
// its lowest byte. `^` leaves 0 to 9 of a digit and more of any other byte, whose top bit the sum then
// sets; no sum carries into the byte above. The products join the digits to pairs, and all pairs.
#[inline(always)]
fn eight_digits(text: &[u8; 8]) -> Option<u64>
    ensures { IfSome result (λ n. BeginsWithDigits text.now n 8) }
{
    let digits = u64::from_le_bytes(*text) ^ 0x3030_3030_3030_3030;
    let others = (digits & 0x7f7f_7f7f_7f7f_7f7f) + 0x7676_7676_7676_7676 | digits;
    if others & 0x8080_8080_8080_8080 != 0 {
        return None;
    }
    let pairs = digits.wrapping_mul(10).wrapping_add(digits >> 8);
    let odd = (pairs & 0x0000_00ff_0000_00ff).wrapping_mul(100 + (1_000_000 << 32));
    let even = ((pairs >> 16) & 0x0000_00ff_0000_00ff).wrapping_mul(1 + (10_000 << 32));
    Some(odd.wrapping_add(even) >> 32)
}

// The value of the first eight bytes of a text, where all of them are digits.
#[inline(always)]
fn first_eight(text: &[u8]) -> Option<u64>
    ensures { IfSome result (λ n. BeginsWithDigits text.now n 8) }
{
    eight_digits(text.first_chunk()?)
}

// The value of the digits that a text begins with, where they are nineteen at most, and how many they
// are.
#[inline(always)]
pub fn digits_ahead(text: &[u8]) -> Option<(u64, usize)>
    ensures { IfSome result (λ p. BeginsWithDigits text.now p.0 p.1) }
{
    let (mut value, mut count) = match first_eight(text) {
        Some(value) => (value, 8),
        None => (0, 0),
    };
    while count < text.len() && text[count].is_ascii_digit() {
        value = value
            .wrapping_mul(10)
            .wrapping_add(u64::from(text[count] - b'0'));
        count += 1;
    }
    if count > SHORT {
        return None;
    }
    Some((value, count))
}

// The number that a text begins with, and how many digits it has.
#[inline(always)]
pub fn number_ahead(text: &[u8]) -> Option<(u64, usize)>
    ensures { IfSome result (λ p. BeginsWithNumber text.now p.0 p.1) }
{
    let (value, count) = digits_ahead(text)?;
    if count == 0 || text[0] == b'0' && count != 1 {
        return None;
    }
    Some((value, count))
}

// The value of digits with as many zeros behind it as nine digits have.
#[inline(always)]
pub fn filled(value: u64, digits: usize) -> u64
    requires few { digits ≤ 9 }
    requires below { value < 10 ^ digits }
    ensures value { result ≡ value_from value (replicate (9 - digits) 48) }
    ensures below { result < 10 ^ 9 }
{
    let mut filled = value;
    for _place in digits..NANO_DIGITS {
        filled *= 10;
    }
    filled
}

// The nanoseconds that digits behind a point are.
fn nanos_of(digits: &[u8]) -> Option<u32>
    ensures nanos { result ≡ nanos_in digits.now }
    ensures below { IfSome result (λ n. n < 1000000000) }
{
    if digits.is_empty() || digits.len() > NANO_DIGITS || !has_digits_alone(digits) {
        return None;
    }
    Some(filled(value_of(digits), digits.len()) as u32)
}

// Seconds and nanoseconds, where both are told.
fn written_of(sec: Option<u64>, nanos: Option<u32>) -> Option<Written>
    requires { IfSome nanos (λ n. n < 1000000000) }
    ensures written { result ≡ written_of sec nanos }
    ensures below { IfSome result (λ t. t.nanos < 1000000000) }
{
    Some(Written {
        sec: sec?,
        nanos: nanos?,
    })
}

/// The time that a text is, with the greatest number of seconds where they are more.
pub fn time_of(text: &[u8]) -> Option<Written>
    ensures time { result ≡ option_map capped (time_in text.now) }
    ensures below { IfSome result (λ t. t.nanos < 1000000000) }
{
    match cut_at(text, b'.') {
        None => written_of(number_of(text), Some(0)),
        Some((whole, fraction)) => written_of(number_of(whole), nanos_of(fraction)),
    }
}
