// Four bytes in one number, the first lowest: values of digits spelt at once, and taken from their digits at once.
ghost use Rattle.std.specs.Prelude.{◌≡◌, ℕ, ◌+◌, ◌*◌, ◌<◌, ◌≤◌};
ghost use Rattle.model.specs.Lines.{digit_of};
ghost use Rattle.digits.specs.Packed.{packed, four_values};

pub fn pack(a: u8, b: u8, c: u8, d: u8) -> u32
    ensures { (result ≡ packed a b c d) × (a < 256) × (b < 256) × (c < 256) × (d < 256) }
{
    u32::from_le_bytes([a, b, c, d])
}

// The digits of four values: a letter stands seven bytes behind where a tenth figure would.
pub fn spelling(values: u32) -> u32
    requires { values ≤ 0x0F0F0F0F }
    ensures { (a b c d : ℕ) → a < 16 → b < 16 → c < 16 → d < 16 → values ≡ packed a b c d → result ≡ packed (digit_of a) (digit_of b) (digit_of c) (digit_of d) }
{
    values + 0x30303030 + 7 * (((values + 0x06060606) & 0x10101010) / 16)
}

// The values of four digits, or none where one of the bytes is no digit. Of digits only letters have 64; their lower half is nine less than
// their value, and 17 less puts 'A' where '0' is. From there on stand ten figures, or six letters: just these are 48 to 63, and are so still with 6
// more, or for a letter 10 more. One `&` tests both: where that leads to the next sixteen, one of the two sixteens is even, and 48 is the third.
pub fn values_of(bytes: u32) -> Option<u32>
    ensures { (a b c d : ℕ) → a < 256 → b < 256 → c < 256 → d < 256 → bytes ≡ packed a b c d → result ≡ four_values a b c d }
{
    let letters = (bytes & 0x40404040) / 64;
    let figures = bytes - 17 * letters;
    let above = figures + 0x06060606 + 4 * letters;
    let both = figures & above & 0xF0F0F0F0;
    if both != 0x30303030 {
        return None;
    }
    Some((bytes & 0x0F0F0F0F) + 9 * letters)
}

// The number that four values give.
pub fn word_of(values: u32) -> u16
    requires { values ≤ 0x0F0F0F0F }
    ensures { (a b c d : ℕ) → a < 16 → b < 16 → c < 16 → d < 16 → values ≡ packed a b c d → result ≡ 4096 * a + 256 * b + 16 * c + d }
{
    let pairs = 4097 * (values as u64);
    (256 * (pairs / 256 % 256) + pairs / 16777216 % 256) as u16
}
