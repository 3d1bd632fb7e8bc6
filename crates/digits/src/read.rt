// The number that the digits at a place spell, or none where one of the bytes is no digit.
ghost use Rattle.std.specs.Prelude.{◌≡◌, ◌+◌, ◌≤◌, length};
ghost use Rattle.model.specs.Frames.{one_byte, two_bytes, three_bytes};
ghost use Rattle.digits.specs.Digits.{value_at, spelt};

use crate::packed::{pack, values_of, word_of};

// A digit's value.
#[tactic(auto, unfolding(crate::specs::Digits::value_of))]
fn value(b: u8) -> Option<u8>
    ensures { result ≡ value_at b }
{
    match b {
        b'0'..=b'9' => Some(b - b'0'),
        b'A'..=b'F' => Some(b - b'A' + 10),
        _ => None,
    }
}

// Two digits.
#[tactic(auto, using(crate::proofs::ReadLaws::two_digits, crate::proofs::ReadLaws::value_small))]
pub fn byte_at(text: &[u8], at: usize) -> Option<u8>
    requires { at + one_byte ≤ length text.now }
    ensures { result ≡ spelt text.now at one_byte }
{
    let high = value(text[at])?;
    let low = value(text[at + 1])?;
    Some(16 * high + low)
}

// Four digits, at once.
pub fn word_at(text: &[u8], at: usize) -> Option<u16>
    requires { at + two_bytes ≤ length text.now }
    ensures { result ≡ spelt text.now at two_bytes }
{
    let bytes = pack(text[at], text[at + 1], text[at + 2], text[at + 3]);
    let values = values_of(bytes)?;
    Some(word_of(values))
}

// Six digits.
#[tactic(auto, using(crate::proofs::ReadLaws::six_digits))]
pub fn triple_at(text: &[u8], at: usize) -> Option<u32>
    requires { at + three_bytes ≤ length text.now }
    ensures { result ≡ spelt text.now at three_bytes }
{
    let high = byte_at(text, at)?;
    let low = word_at(text, at + 2)?;
    Some(65536 * high as u32 + low as u32)
}
