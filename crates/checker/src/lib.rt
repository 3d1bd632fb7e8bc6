// The checker (document 01, 'Steps'): a text of two lists and a proof, and a lent clause store. Every text gets a reply: the counts of an
// accepted proof, or a refusal with its place.
#![tactic(auto)]

mod replay; // all lines of a proof
mod verdict; // the verdict, with the clauses left in the store

ghost use Rattle.std.specs.Prelude.{◌≡◌, length};
ghost use Rattle.model.specs.Checker as model;
ghost use Rattle.refusal.specs.Answers.{answer_of};
ghost use Rattle.checker.specs.Verdicts.{counted_of, Agreeing};

use clause::Clause;
use clearing::clear;
use refusal::Refusal;
use verdict::verdict;

// An accepted proof's lines and clauses.
#[derive(Clone, Copy, PartialEq, Eq)]
pub struct Accepted {
    pub steps: usize,
    pub clauses: usize,
}

// The verdict on a text. After acceptance the store holds every clause in order and zeros behind, after a refusal zeros. Where a text is
// accepted, its two lists agree on every pattern.
pub fn check(text: &[u8], store: &mut [u16]) -> Result<Accepted, Refusal>
    ensures replies { answer_of result ≡ counted_of (model.check text.now (length store.old)) }
    ensures leaves { store.new ≡ model.store_after (length store.old) (model.check text.now (length store.old)) }
    ensures agrees { Agreeing text.now result }
{
    match verdict(text, store) {
        Ok(accepted) => {
            clear(store, Clause::WIDTH * accepted.clauses);
            Ok(accepted)
        }
        Err(refusal) => {
            clear(store, 0);
            Err(refusal)
        }
    }
}
