// A text cut in two.
ghost use Rattle.std.specs.Prelude.{◌≡◌, ◌<◌, ◌==◌, length, IfSome, OnSome, IfNone};
ghost use Rattle.std.specs.List.{position, position_or_len, before_first, after_first};

use memchr::memchr;

#[tactic(auto, using(crate::proofs::PlaceLaws::first_place))]
fn place_of(text: &[u8], byte: u8) -> Option<usize>
    ensures { result ≡ position (λ b. b == byte) text.now }
{
    memchr(byte, text)
}

/// What stands before the first byte of this kind, and what stands behind it; `None` where there is
/// no such byte.
pub fn cut_at(text: &[u8], byte: u8) -> Option<(&[u8], &[u8])>
    ensures none { IfNone result (position_or_len (λ b. b == byte) text.now ≡ length text.now) }
    ensures found { OnSome result (position_or_len (λ b. b == byte) text.now < length text.now) }
    ensures before { IfSome result (λ parts. parts.0.now ≡ before_first (λ b. b == byte) text.now) }
    ensures behind { IfSome result (λ parts. parts.1.now ≡ after_first (λ b. b == byte) text.now) }
{
    let at = place_of(text, byte)?;
    Some((&text[..at], &text[at + 1..]))
}
