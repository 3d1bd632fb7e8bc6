// The proving program: two lists on standard input; on standard output both lists as they came and a proof behind them, ready for the
// checking program, or one report frame with the refusal.
#![tactic(auto)]

mod evidence; // what is printed for a stream

use evidence::{PROOF_BYTES, WORKING_NUMBERS, evidence};
use streams::{answer_stream, print, stream_room};

// Name, buffer, answer and output differ from the other programs'; what they share is in `streams`.
fn main(rt: HostRuntime) {
    let mut stream = stream_room();
    answer_stream(
        &rt,
        &mut stream,
        b"cec_prove: standard input was not read to its end\n",
        |stream| {
            let mut out = [0u8; PROOF_BYTES];
            let mut work = [0u16; WORKING_NUMBERS];
            let (lists, behind) = evidence(stream, &mut out, &mut work);
            print(
                &rt,
                &[lists, &out[..behind]],
                b"cec_prove: standard output was not written to its end\n",
            )
        },
    );
}
