// The checking program for long evidence: the same verdict and report frame as the checking program of document 01, for a standard input of
// up to 4 MiB and with a store of 65,535 clauses.
#![tactic(auto)]

mod report; // a stream's report

ghost use Rattle.std.specs.Prelude.{◌≡◌, ◌+◌, length};
ghost use Rattle.cec_check_large.specs.Large.{large_bytes};

use report::report;
use streams::{answer_stream, print, room};

// One byte more than a stream may have.
const LARGE_ROOM: usize = 4194305;

// An empty buffer of that size.
fn large_room() -> [u8; LARGE_ROOM]
    ensures { length result ≡ large_bytes + 1 }
{
    room::<LARGE_ROOM>()
}

// Name, buffer, answer and output differ from the other programs'; what they share is in `streams`.
fn main(rt: HostRuntime) {
    let mut stream = large_room();
    answer_stream(
        &rt,
        &mut stream,
        b"cec_check_large: standard input was not read to its end\n",
        |stream| {
            print(
                &rt,
                &[&report(stream)],
                b"cec_check_large: standard output was not written to its end\n",
            )
        },
    );
}
