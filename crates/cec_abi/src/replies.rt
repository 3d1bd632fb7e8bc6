// An answer as numbers: the refusal and its line first, zeros for what it does not have.
ghost use Rattle.std.specs.Prelude.{◌≡◌};
ghost use Rattle.refusal.specs.Answers.{number_of, answer_of};
ghost use Rattle.frame.specs.Frames.{frame_of, decoded_of};
ghost use Rattle.checker.specs.Verdicts.{counted_of};
ghost use Rattle.model.specs.Answers.{Answer};
ghost use Rattle.model.specs.Answers.Answer.{ok};
ghost use Rattle.model.specs.Steps.{State};
ghost use Rattle.cec_abi.specs.Replies.{frame_reply, number_reply, list_reply, lists_reply, check_reply};

use checker::Accepted;
use frame::Frame;
use frame::fields::fields_of;
use listing::GateList;
use netlist::pair::Pair;
use refusal::Refusal;

fn number(refusal: Refusal) -> u64
    ensures { result ≡ number_of refusal.reason }
{
    refusal.reason.number() as u64
}

// The reply for a frame that was read.
fn frame_numbers(frame: Frame) -> [u64; 7]
    ensures { result ≡ frame_reply (ok (frame_of frame)) }
{
    let w = fields_of(frame);
    let kind = w.kind as u64;
    let first = w.value(0) as u64;
    let second = w.value(1) as u64;
    let third = w.value(2) as u64;
    let fourth = w.value(3) as u64;
    [0, 0, kind, first, second, third, fourth]
}

pub fn frame_reply(answer: Result<Frame, Refusal>) -> [u64; 7]
    ensures { result ≡ frame_reply (decoded_of answer) }
{
    match answer {
        Ok(frame) => frame_numbers(frame),
        Err(refusal) => [number(refusal), refusal.line as u64, 0, 0, 0, 0, 0],
    }
}

// The reply for a length, a word or a number of lines. Each reply spells the zeros behind a refusal: a function for all sizes would be longer than
// they are.
pub fn number_reply(answer: Result<u64, Refusal>) -> [u64; 3]
    ensures { result ≡ number_reply (answer_of answer) }
{
    match answer {
        Ok(n) => [0, 0, n],
        Err(refusal) => [number(refusal), refusal.line as u64, 0],
    }
}

// The reply for a list that was read.
pub fn list_reply(answer: Result<GateList<'_>, Refusal>) -> [u64; 5]
    ensures { result ≡ list_reply (answer_of answer.entry) }
{
    match answer {
        Ok(list) => {
            let counts = list.counts();
            let inputs = counts.inputs as u64;
            let gates = counts.gates as u64;
            let outputs = counts.outputs as u64;
            [0, 0, inputs, gates, outputs]
        }
        Err(refusal) => [number(refusal), refusal.line as u64, 0, 0, 0],
    }
}

// The same for two lists.
pub fn lists_reply(answer: Result<Pair<'_>, Refusal>) -> [u64; 6]
    ensures { result ≡ lists_reply (answer_of answer.entry) }
{
    match answer {
        Ok(pair) => {
            let counts = pair.left.counts();
            let inputs = counts.inputs as u64;
            let left = counts.gates as u64;
            let right = pair.right.counts().gates as u64;
            let outputs = counts.outputs as u64;
            [0, 0, inputs, left, right, outputs]
        }
        Err(refusal) => [number(refusal), refusal.line as u64, 0, 0, 0, 0],
    }
}

// The reply of every verdict that comes to these counts or to this refusal.
pub fn check_reply(answer: Result<Accepted, Refusal>) -> [u64; 4]
    ensures { (a : Answer State) → answer_of answer ≡ counted_of a → result ≡ check_reply a }
{
    match answer {
        Ok(accepted) => [0, 0, accepted.steps as u64, accepted.clauses as u64],
        Err(refusal) => [number(refusal), refusal.line as u64, 0, 0],
    }
}
