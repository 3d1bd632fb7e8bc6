// A stream's report with the limits of document 01: 65,536 bytes, and a store of 4,096 clauses.
ghost use Rattle.std.specs.Prelude.{◌≡◌};
ghost use Rattle.model.specs.Checker.{program};

use frame::kinds::REPORT_BYTES;
use streams::STREAM_BYTES;

// The numbers of a store of 4,096 clauses.
const STORE_NUMBERS: usize = 32768;

// The line that the program prints for a stream.
// Stands by itself for its own definition; the work is `reports::report`.
pub fn report(stream: &[u8]) -> [u8; REPORT_BYTES]
    ensures { result ≡ program stream.now }
{
    reports::report::<STREAM_BYTES, STORE_NUMBERS>(stream)
}
