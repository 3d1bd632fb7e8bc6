// Clauses in the store (document 01, 'The checker'): each literal plus one, rising, then zeros.
ghost use Rattle.std.specs.Prelude.{◌≡◌, ◌+◌, ◌*◌, ◌≤◌, length};
ghost use Rattle.std.proofs.lemmas.List.Edits.{sets};
ghost use Rattle.model.specs.Limits.{clause_width};
ghost use Rattle.model.specs.Checker.{stored};
ghost use Rattle.clause.specs.Sets.{Rising, Proper};

use crate::Clause;

// The clause is put behind k others from the start of the store, all of its places at once: the bound, plus one, is a zero.
pub fn save(store: &mut [u16], k: usize, clause: Clause)
    requires room { clause_width * k + clause_width ≤ length store.old }
    requires rising { Rising clause }
    ensures stores { store.new ≡ sets store.old (clause_width * k) (stored clause) }
    ensures proper { Proper clause }
{
    let at = Clause::WIDTH * k;
    for i in 0..Clause::WIDTH {
        store[at + i] = clause.literals[i].wrapping_add(1);
    }
}
