// A stream's report with the two limits of this program: 4 MiB, and a store of 65,535 clauses.
ghost use Rattle.std.specs.Prelude.{◌≡◌};
ghost use Rattle.cec_check_large.specs.Large.{large_program};

use frame::kinds::REPORT_BYTES;

// The most bytes that the program takes.
pub const LARGE_BYTES: usize = 4194304;

// The numbers of a store of 65,535 clauses, the most that have a number.
const STORE_NUMBERS: usize = 524280;

// The line that the program prints for a stream.
// Stands by itself for its own definition; the work is `reports::report`.
pub fn report(stream: &[u8]) -> [u8; REPORT_BYTES]
    ensures { result ≡ large_program stream.now }
{
    reports::report::<LARGE_BYTES, STORE_NUMBERS>(stream)
}
