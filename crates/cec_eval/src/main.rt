// The evaluating program: a list on standard input and a pattern as its argument; on standard output the word's digits, or one report frame
// with the refusal.
#![tactic(auto)]

mod answer; // a stream's answer
mod pattern; // the argument's pattern

use answer::answer;
use pattern::{PATTERN_DIGITS, pattern_of};
use std::env::{Env, FillError};
use streams::{answer_stream, complain, print, stream_room};

// The pattern of the one argument. An argument that is longer than a pattern is none.
fn argument(rt: &HostRuntime) -> Option<u64> {
    let mut digits = [0u8; PATTERN_DIGITS];
    let Err(FillError::NotPresent) = rt.arg(2, &mut digits) else {
        return None;
    };
    let Ok(n) = rt.arg(1, &mut digits) else {
        return None;
    };
    pattern_of(&digits[..n])
}

// Name, buffer, answer and output differ from the other programs'; what they share is in `streams`.
fn main(rt: HostRuntime) {
    let Some(pattern) = argument(&rt) else {
        complain(
            &rt,
            b"cec_eval: its one argument is a pattern of 16 digits 0-9 and A-F\n",
        );
        return;
    };
    let mut stream = stream_room();
    answer_stream(
        &rt,
        &mut stream,
        b"cec_eval: standard input was not read to its end\n",
        |stream| {
            print(
                &rt,
                &[answer(stream, pattern).bytes()],
                b"cec_eval: standard output was not written to its end\n",
            )
        },
    );
}
