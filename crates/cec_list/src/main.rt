// The reading program: one list on standard input; on standard output the counts of the list as its header frame, or one report frame with the
// refusal.
#![tactic(auto)]

mod answer; // a stream's answer

use answer::answer;
use streams::{answer_stream, print, stream_room};

// Name, buffer, answer and output differ from the other programs'; what they share is in `streams`.
fn main(rt: HostRuntime) {
    let mut stream = stream_room();
    answer_stream(
        &rt,
        &mut stream,
        b"cec_list: standard input was not read to its end\n",
        |stream| {
            print(
                &rt,
                &[answer(stream).bytes()],
                b"cec_list: standard output was not written to its end\n",
            )
        },
    );
}
