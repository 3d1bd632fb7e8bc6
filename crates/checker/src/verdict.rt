// The verdict on a text: both lists are read, the miter's clauses written, and the proof's lines replayed.
ghost use Rattle.std.specs.Prelude.{◌≡◌, length};
ghost use Rattle.model.specs.Checker as model;
ghost use Rattle.checker.specs.Verdicts.{VerdictSays};

use crate::Accepted;
use crate::replay::replay;
use clause::Clause;
use miter::begin::begin;
use netlist::read_both;
use refusal::{Reason, Refusal};
use steps::Proof;

// How many clauses a store of so many numbers holds.
fn capacity(numbers: usize) -> usize
    ensures { result ≡ model.capacity numbers }
{
    (numbers / Clause::WIDTH).min(Clause::MOST)
}

// The verdict, with the clauses left in the store.
pub fn verdict(text: &[u8], store: &mut [u16]) -> Result<Accepted, Refusal>
    ensures { VerdictSays (model.check text.now (length store.old)) store.new result }
{
    let room = capacity(store.len());
    let (pair, next) = read_both(text)?;
    let mut proof = Proof::new(store, room);
    begin(&pair, &mut proof)?;
    replay(next, &mut proof)?;
    if !proof.empty {
        return Err(Reason::Empty.at(0));
    }
    Ok(Accepted {
        steps: proof.steps,
        clauses: proof.clauses,
    })
}
