// A stream's answer: the word of its list on a pattern, or the refusal, as the one line that the program prints.
ghost use Rattle.std.specs.Prelude.{◌≡◌};
ghost use Rattle.refusal.specs.Answers.{answer_of};
ghost use Rattle.cec_eval.specs.Program.{evaluated, program, word_line};

use evaluator::evaluate;
use frame::fields::put_hex;
use frame::kinds::REPORT_BYTES;
use printed::{Printed, refusal_line};
use refusal::{Reason, Refusal};
use streams::STREAM_BYTES;

// The digits of a word of 64 bits.
const WORD_DIGITS: usize = 16;

// Working bytes for the largest list: 1 + 64 + 1,024.
const WORKING_BYTES: usize = 1089;

// The word of a stream's list on a pattern, or 1 for a stream that is too long.
fn evaluate_stream(stream: &[u8], pattern: u64) -> Result<u64, Refusal>
    ensures { answer_of result ≡ evaluated stream.now pattern }
{
    if STREAM_BYTES < stream.len() {
        return Err(Reason::Stream.at(0));
    }
    let mut work = [0u8; WORKING_BYTES];
    evaluate(stream, pattern, &mut work)
}

// A word's digits and LF.
fn word_line(word: u64) -> Printed
    ensures { result ≡ word_line word }
{
    let mut line = [0u8; REPORT_BYTES];
    put_hex(&mut line, 0, word as usize, WORD_DIGITS);
    line[WORD_DIGITS] = b'\n';
    Printed::of(line, WORD_DIGITS + 1)
}

// The line that the program prints for a stream and a pattern.
pub fn answer(stream: &[u8], pattern: u64) -> Printed
    ensures { result ≡ program stream.now pattern }
{
    match evaluate_stream(stream, pattern) {
        Ok(word) => word_line(word),
        Err(refusal) => refusal_line(refusal.reason.number(), refusal.line),
    }
}
