// The head and the records of a capture, each by the bytes that it begins with.
ghost use Rattle.std.specs.Prelude.{◌≡◌, ◌+◌, ◌-◌, ◌^◌, ◌<◌, ◌≤◌, true, false, IfSome, length, drop, take};
ghost use Rattle.ntp_capture.specs.Cut.{packet_length, size_of};
ghost use Rattle.ntp_capture.specs.Steps.{field_end};
ghost use Rattle.ntp_capture.specs.Grammar.{counter_in, freq_in, is_freq, refusal_in, piece_in};

use crate::pieces::{CapFault, CapWhy, Piece, Record};
use byteorder::{BigEndian, ByteOrder};

/// What a capture begins with.
const MARK: &[u8; 8] = b"RADCAP01";

/// The bytes of the head.
pub const HEAD: usize = 16;

/// The bytes before a packet: counter, direction and length.
pub const FRONT: usize = 11;

/// The bytes of a packet that are kept, and the fewest that it may have.
pub const PACKET: usize = 48;

/// The bytes of a unit that are kept.
pub const KEPT: usize = FRONT + PACKET;

/// The first counter that is too large.
const COUNT_LIMIT: u64 = 1 << 62;

/// The least and the greatest nominal frequency, in Hz.
const LEAST_FREQ: u64 = 1_000_000;

const GREATEST_FREQ: u64 = 16_000_000_000;

fn counter_in(unit: &[u8]) -> u64
    requires { 8 ≤ length unit.now }
    ensures { result ≡ counter_in unit.now }
{
    BigEndian::read_u64(&unit[..8])
}

fn freq_in(head: &[u8]) -> u64
    requires { 16 ≤ length head.now }
    ensures { result ≡ freq_in head.now }
{
    BigEndian::read_u64(&head[8..16])
}

fn is_freq(freq: u64) -> bool
    ensures { result ≡ is_freq freq }
{
    LEAST_FREQ <= freq && freq <= GREATEST_FREQ
}

fn packet_length(unit: &[u8]) -> usize
    requires { 11 ≤ length unit.now }
    ensures value { result ≡ packet_length unit.now }
    ensures fits { result < 65536 }
{
    usize::from(BigEndian::read_u16(&unit[9..11]))
}

/// The end of the field that the next byte belongs to, behind so many bytes of a unit of this size.
pub fn field_end(is_head: bool, seen: usize, size: usize) -> usize
    ensures { result ≡ field_end is_head seen size }
{
    if seen < 8 {
        8
    } else if is_head {
        size
    } else if seen < 9 {
        9
    } else if seen < FRONT {
        FRONT
    } else {
        size
    }
}

fn packet_in(unit: &[u8]) -> [u8; 48]
    requires { 59 ≤ length unit.now }
    ensures { result ≡ take 48 (drop 11 unit.now) }
{
    *unit[FRONT..].first_chunk().unwrap()
}

/// How many bytes a unit has, as far as its first bytes tell.
#[tactic(auto, unfolding(crate::specs::Cut::size_of))]
pub fn size_of(is_head: bool, unit: &[u8]) -> usize
    ensures { result ≡ size_of is_head unit.now }
{
    if is_head {
        HEAD
    } else if unit.len() < FRONT {
        FRONT
    } else {
        FRONT + packet_length(unit)
    }
}

#[tactic(auto, unfolding(crate::specs::Grammar::refusal_in))]
fn head_refusal(head: &[u8]) -> Option<(usize, CapWhy)>
    ensures refusal { result ≡ refusal_in true head.now }
    ensures near { IfSome result (λ r. r.0 < 16) }
{
    if head.len() >= 8 && head[..8] != MARK[..] {
        return Some((0, CapWhy::Head));
    }
    if head.len() >= HEAD && !is_freq(freq_in(head)) {
        return Some((8, CapWhy::Freq));
    }
    None
}

#[tactic(auto, unfolding(crate::specs::Grammar::refusal_in))]
fn record_refusal(unit: &[u8]) -> Option<(usize, CapWhy)>
    ensures refusal { result ≡ refusal_in false unit.now }
    ensures near { IfSome result (λ r. r.0 < 16) }
{
    if unit.len() >= 8 && counter_in(unit) >= COUNT_LIMIT {
        return Some((0, CapWhy::Counter));
    }
    if unit.len() >= 9 && unit[8] > 1 {
        return Some((8, CapWhy::Direction));
    }
    if unit.len() >= FRONT && packet_length(unit) < PACKET {
        return Some((9, CapWhy::Short));
    }
    None
}

/// Why a unit is refused, as far as it is there, and at which of its bytes.
pub fn refusal_in(is_head: bool, unit: &[u8]) -> Option<(usize, CapWhy)>
    ensures refusal { result ≡ refusal_in is_head unit.now }
    ensures near { IfSome result (λ r. r.0 < 16) }
{
    if is_head {
        head_refusal(unit)
    } else {
        record_refusal(unit)
    }
}

/// What a whole unit gives.
#[tactic(auto, unfolding(crate::specs::Grammar::piece_in))]
pub fn piece_in(is_head: bool, unit: &[u8]) -> Piece
    requires head { is_head ≡ true → 16 ≤ length unit.now }
    requires packet { is_head ≡ false → 59 ≤ length unit.now }
    ensures { result ≡ piece_in is_head unit.now }
{
    if is_head {
        return Piece::Freq(freq_in(unit));
    }
    Piece::Record(Record {
        count: counter_in(unit),
        sent: unit[8] == 0,
        packet: packet_in(unit),
    })
}
