// A gate's clauses, put into the store.
ghost use Rattle.std.specs.Prelude.{◌≡◌, ℕ, ◌+◌, ◌<◌, List, [], ◌++◌, length, get_or};
ghost use Rattle.model.specs.Clauses as model;
ghost use Rattle.steps.specs.Kept.{clauses_of, Held};
ghost use Rattle.steps.specs.Gates.{clauses_for, Room};

use clause::Clause;
use clause::gates::{AND_CLAUSES, XOR_CLAUSES, and_clause, xor_clause};
use clause::store::save;
use frame::Op;
use literal::Literal;

// n = AND or XOR of x, y.
#[derive(Clone, Copy)]
pub struct Definition {
    pub op: Op,
    pub n: Literal,
    pub x: Literal,
    pub y: Literal,
}

// How many clauses define a gate.
pub fn clause_count(op: Op) -> usize
    ensures { (n x y : ℕ) → result ≡ length (clauses_of op n x y) }
{
    // one match for both, since closures would only give the arms names
    match op {
        Op::And => AND_CLAUSES,
        Op::Xor => XOR_CLAUSES,
    }
}

// Clause j of a gate.
fn gate_clause(d: Definition, j: usize) -> Clause
    requires { j < length (clauses_for d) }
    ensures { result ≡ get_or (clauses_for d) j [] }
{
    // one match for both, since closures would only give the arms names
    match d.op {
        Op::And => and_clause(d.n, d.x, d.y, j),
        Op::Xor => xor_clause(d.n, d.x, d.y, j),
    }
}

// A gate's clauses behind so many in the store; how many there are then.
pub fn push_gate(store: &mut [u16], count: usize, d: Definition) -> usize
    requires { Room (length store.old) count d }
    ensures { (result ≡ count + length (clauses_for d))
        × ((cs : List model.Clause) → Held store.old cs → length cs ≡ count → Held store.new (cs ++ clauses_for d)) }
{
    let total = clause_count(d.op);
    for j in 0..total {
        save(store, count + j, gate_clause(d, j));
    }
    count + total
}
