// The checking program (document 01): it checks standard input with a store of 4,096 clauses and prints one report frame.
#![tactic(auto)]

mod report; // a stream's report

use report::report;
use streams::{answer_stream, print, stream_room};

// Name, buffer, answer and output differ from the other programs'; what they share is in `streams`.
fn main(rt: HostRuntime) {
    let mut stream = stream_room();
    answer_stream(
        &rt,
        &mut stream,
        b"cec_check: standard input was not read to its end\n",
        |stream| {
            print(
                &rt,
                &[&report(stream)],
                b"cec_check: standard output was not written to its end\n",
            )
        },
    );
}
