// The evaluator: one list from a text, a pattern in, a word out (document 01, 'Lines on the wire').
#![tactic(auto)]

ghost use Rattle.std.specs.Prelude.{◌≡◌, ◌+◌, ◌≤◌, length};
ghost use Rattle.model.specs.Answers.{zeros};
ghost use Rattle.model.specs.Nets.{eval};
ghost use Rattle.model.specs.Evaluator as model;
ghost use Rattle.refusal.specs.Answers.{answer_of};

use clearing::clear;
use listing::GateList;
use netlist::read_list;
use refusal::{Reason, Refusal};
use values::{read_word, run_gates, set_inputs};

// The word of a list, by the values of its nets.
fn word_of(list: &GateList<'_>, pattern: u64, work: &mut [u8]) -> u64
    requires { 1 + list.now.inputs + length list.now.gates ≤ length work.old }
    ensures { result ≡ eval list.now pattern }
{
    set_inputs(work, list.counts().inputs, pattern);
    run_gates(list, work);
    read_word(list, work)
}

// The answer, with the working bytes in use.
fn answer(text: &[u8], pattern: u64, work: &mut [u8]) -> Result<u64, Refusal>
    ensures { answer_of result ≡ model.evaluate text.now pattern (length work.old) }
{
    let list = read_list(text)?;
    let counts = list.counts();
    let nets = 1 + counts.inputs + counts.gates;
    if work.len() < nets {
        return Err(Reason::Work.at(0));
    }
    Ok(word_of(&list, pattern, work))
}

// The word of a list on a pattern; or a refusal of the text, or 17. The working bytes end as zeros in every case.
pub fn evaluate(text: &[u8], pattern: u64, work: &mut [u8]) -> Result<u64, Refusal>
    ensures replies { answer_of result ≡ model.evaluate text.now pattern (length work.old) }
    ensures leaves { work.new ≡ zeros (length work.old) }
{
    let answered = answer(text, pattern, work);
    clear(work, 0);
    answered
}
