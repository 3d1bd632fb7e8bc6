// The digits of a line (document 01, 'Lines on the wire'): which bytes are digits, how many a text begins with, and the numbers of one, two and
// three bytes that they spell.
#![tactic(auto)]

pub mod packed; // four bytes in one number, and the digits that they spell
pub mod read; // the number that the digits at a place spell

ghost use Rattle.std.specs.Prelude.{◌≡◌, ◌≤◌, length};
ghost use Rattle.model.specs.Lines.{is_digit};
ghost use Rattle.digits.specs.Digits.{run};

pub fn is_digit(b: u8) -> bool
    ensures { result ≡ is_digit b }
{
    matches!(b, b'0'..=b'9' | b'A'..=b'F')
}

// How many digits a text begins with, one behind the other.
pub fn digits_of(text: &[u8]) -> usize
    ensures { (result ≡ run text.now) × (result ≤ length text.now) }
{
    text.iter().take_while(|b| is_digit(**b)).count()
}
