// Zeros in lent memory from a place on, whatever kind of number it is made of. Where the place lies behind the last, nothing changes; nothing is
// asked of the caller.
#![tactic(auto)]

ghost use Rattle.std.specs.Prelude.{◌≡◌, ◌++◌, ◌-◌, length, take, replicate};

// A kind of number that buffers are lent in.
pub trait Number: Copy {
    ghost ZERO: { Self };

    const ZERO: Self;
}

impl Number for u8 {
    ghost ZERO = { 0 };

    const ZERO: u8 = 0;
}

impl Number for u16 {
    ghost ZERO = { 0 };

    const ZERO: u16 = 0;
}

impl Number for u64 {
    ghost ZERO = { 0 };

    const ZERO: u64 = 0;
}

pub fn clear<T: Number>(numbers: &mut [T], from: usize)
    ensures { numbers.new ≡ take from numbers.old ++ replicate (length numbers.old - from) T.ZERO }
{
    for at in from..numbers.len() {
        numbers[at] = T::ZERO;
    }
}
