// The calls under C names, as include/cec.h declares them: answers become numbers in an array that the caller lends.
#![tactic(auto)]

mod numbers; // a frame from a kind and numbers
mod replies; // an answer as numbers

ghost use Rattle.std.specs.Prelude.{◌≡◌, length, get_or};
ghost use Rattle.model.specs.Answers.{zeros};
ghost use Rattle.model.specs.Frames.{lone_line};
ghost use Rattle.model.specs.Lists.{read_one, read_lists};
ghost use Rattle.model.specs.Evaluator as model;
ghost use Rattle.model.specs.Checker as checking;
ghost use Rattle.model.specs.Engine as engine;
ghost use Rattle.laws.specs.Soundness.{AgreeingLists};
ghost use Rattle.frame.specs.Frames.{decoded_of, written_of};
ghost use Rattle.cec_abi.specs.Replies.{frame_reply, number_reply, list_reply, lists_reply, check_reply};
ghost use Rattle.cec_abi.specs.Calls.{Replied, write_answer, written_answer, write_numbers, written_numbers};

use checker::check;
use clearing::clear;
use engine::prove;
use evaluator::evaluate;
use frame::{Frame, read_frame, write_frame};
use netlist::{read_list, read_lists};
use numbers::frame_from;
use refusal::Refusal;
use replies::{check_reply, frame_reply, list_reply, lists_reply, number_reply};

// A lone line, as numbers: refusal, line, kind, four fields.
#[unsafe(no_mangle)]
pub extern "C" fn cec_read_frame(text: &[u8], reply: &mut [u64; 7])
    ensures { reply.new ≡ frame_reply (lone_line text.now) }
{
    *reply = frame_reply(read_frame(text));
}

// The line of a frame, or of none: a refusal leaves zeros.
fn write_answer(answer: Result<Frame, Refusal>, out: &mut [u8]) -> Result<usize, Refusal>
    ensures replies { written_of result ≡ write_answer (decoded_of answer) (length out.old) }
    ensures leaves { out.new ≡ written_answer (decoded_of answer) (length out.old) }
{
    match answer {
        Ok(frame) => write_frame(frame, out),
        Err(refusal) => {
            clear(out, 0);
            Err(refusal)
        }
    }
}

// A frame's line, its kind and fields given as numbers; the reply is refusal, line, length.
#[unsafe(no_mangle)]
pub extern "C" fn cec_write_frame(kind: u8, fields: &[u64; 4], out: &mut [u8], reply: &mut [u64; 3])
    ensures replies { reply.new ≡ number_reply (write_numbers kind fields.now (length out.old)) }
    ensures leaves { out.new ≡ written_numbers kind fields.now (length out.old) }
{
    let written = write_answer(frame_from(kind, *fields), out);
    *reply = number_reply(written.map(|len| len as u64));
}

// One list, as numbers: refusal, line, inputs, gates, outputs.
#[unsafe(no_mangle)]
pub extern "C" fn cec_read_list(text: &[u8], reply: &mut [u64; 5])
    ensures { reply.new ≡ list_reply (read_one text.now) }
{
    *reply = list_reply(read_list(text));
}

// Two lists, as numbers: refusal, line, inputs, gates of the left and of the right, outputs.
#[unsafe(no_mangle)]
pub extern "C" fn cec_read_lists(text: &[u8], reply: &mut [u64; 6])
    ensures { reply.new ≡ lists_reply (read_lists text.now) }
{
    *reply = lists_reply(read_lists(text));
}

// The word of one list on a pattern; the reply is refusal, line, word.
#[unsafe(no_mangle)]
pub extern "C" fn cec_evaluate(text: &[u8], pattern: u64, work: &mut [u8], reply: &mut [u64; 3])
    ensures replies { reply.new ≡ number_reply (model.evaluate text.now pattern (length work.old)) }
    ensures leaves { work.new ≡ zeros (length work.old) }
{
    *reply = number_reply(evaluate(text, pattern, work));
}

// The verdict on a text of two lists and a proof; the reply is refusal, line, steps, clauses. Where the refusal is 0, both lists agree on
// every pattern.
#[unsafe(no_mangle)]
pub extern "C" fn cec_check(text: &[u8], store: &mut [u16], reply: &mut [u64; 4])
    ensures replies { reply.new ≡ check_reply (checking.check text.now (length store.old)) }
    ensures leaves { store.new ≡ checking.store_after (length store.old) (checking.check text.now (length store.old)) }
    ensures agrees { get_or reply.new 0 1 ≡ 0 → AgreeingLists text.now }
{
    *reply = check_reply(check(text, store));
}

// A proof for the two lists of a text; the reply is refusal, line, lines.
#[unsafe(no_mangle)]
pub extern "C" fn cec_prove(text: &[u8], proof: &mut [u8], work: &mut [u16], reply: &mut [u64; 3])
    ensures { Replied reply.new (engine.Engine text.now (length proof.old) (length work.old)) proof.new work.new }
{
    let proved = prove(text, proof, work);
    *reply = number_reply(proved.map(|lines| lines as u64));
}
