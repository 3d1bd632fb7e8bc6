// The engine (document 01, 'Folded form and the engine'): two lists in, a proof that they agree out, exactly when each output pair has the
// same folded form. The first pass folds, the outputs are compared, and the second pass writes the proof.
#![tactic(auto)]

ghost use Rattle.std.specs.Prelude.{length};
ghost use Rattle.model.specs.Engine as model;
ghost use Rattle.refusal.specs.Answers.{answer_of};
ghost use Rattle.engine.specs.Replies.{FoldedSays, AnswerSays};

use clearing::clear;
use emit::pass::emit;
use fold::pass::{first_apart, fold};
use frame::kinds::RESOLVE_BYTES;
use netlist::pair::Pair;
use netlist::read_lists;
use refusal::{Reason, Refusal};

const LINES_PER_GATE: usize = 16;

const LINES_PER_OUTPUT: usize = 12;

const NUMBERS_PER_NET: usize = 16;

// The answer to both lists, where they were read: memory is tested, then the first pass is made and the outputs compared, then the second.
fn folded(pair: &Pair<'_>, proof: &mut [u8], work: &mut [u16]) -> Result<usize, Refusal>
    ensures { FoldedSays pair.now (length proof.old) (length work.old) proof.new result }
{
    let parts = pair.parts();
    let bound = LINES_PER_GATE * (parts.left + parts.right) + LINES_PER_OUTPUT * parts.outputs;
    if proof.len() < RESOLVE_BYTES * bound {
        return Err(Reason::Room.at(0));
    }
    if work.len() < NUMBERS_PER_NET * parts.nets() {
        return Err(Reason::Work.at(0));
    }
    fold(pair, work);
    if let Some(apart) = first_apart(pair, work) {
        return Err(Reason::Forms.at(apart));
    }
    clear(proof, 0);
    Ok(emit(pair, work, proof))
}

// The answer, with the working numbers in use; where there is a proof, its lines stand in the proof bytes.
fn answer(text: &[u8], proof: &mut [u8], work: &mut [u16]) -> Result<usize, Refusal>
    ensures { AnswerSays text.now (length proof.old) (length work.old) proof.new result }
{
    let pair = read_lists(text)?;
    folded(&pair, proof, work)
}

// A proof for the two lists of a text, from the start of the proof bytes with zeros behind; or a refusal of the text, 16, 17, or 18 with the
// first output whose forms differ. The working numbers end as zeros, after a refusal the proof bytes too.
pub fn prove(text: &[u8], proof: &mut [u8], work: &mut [u16]) -> Result<usize, Refusal>
    ensures { model.Engine text.now (length proof.old) (length work.old) (answer_of result) proof.new work.new }
{
    let answered = answer(text, proof, work);
    clear(work, 0);
    if answered.is_err() {
        clear(proof, 0);
    }
    answered
}
