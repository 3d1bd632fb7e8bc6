// The argument's pattern.
ghost use Rattle.std.specs.Prelude.{◌≡◌};
ghost use Rattle.cec_eval.specs.Program.{pattern_of};

use digits::read::word_at;

pub const PATTERN_DIGITS: usize = 16;

// The pattern that 16 digits spell; no other argument is one.
pub fn pattern_of(digits: &[u8]) -> Option<u64>
    ensures { result ≡ pattern_of digits.now }
{
    if digits.len() != PATTERN_DIGITS {
        return None;
    }
    let first = word_at(digits, 0)? as u64;
    let second = word_at(digits, 4)? as u64;
    let third = word_at(digits, 8)? as u64;
    let fourth = word_at(digits, 12)? as u64;
    let high = 65536 * first + second;
    let low = 65536 * third + fourth;
    Some(4294967296 * high + low)
}
