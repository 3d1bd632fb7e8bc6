// The clauses that define an AND gate and an XOR gate (document 01, 'The miter's clauses'), one at a time.
ghost use Rattle.std.specs.Prelude.{◌≡◌, [], ◌<◌, get_or};
ghost use Rattle.model.specs.Clauses.{and_clauses, xor_clauses};

use crate::Clause;
use literal::Literal;

// The clauses of an AND gate are 0 to 2.
pub const AND_CLAUSES: usize = 3;

// Those of an XOR gate are 0 to 3.
pub const XOR_CLAUSES: usize = 4;

// Clause j of n = AND of x, y.
#[tactic(auto, unfolding(model::specs::Clauses::and_clauses))]
pub fn and_clause(n: Literal, x: Literal, y: Literal, j: usize) -> Clause
    requires { j < 3 }
    ensures { result ≡ get_or (and_clauses n.code x.code y.code) j [] }
{
    match j {
        0 => Clause::of([n.complement(), x]),
        1 => Clause::of([n.complement(), y]),
        _ => Clause::of([n, x.complement(), y.complement()]),
    }
}

// Clause j of n = XOR of x, y. It stands beside the AND's: they share no clause.
#[tactic(auto, unfolding(model::specs::Clauses::xor_clauses))]
pub fn xor_clause(n: Literal, x: Literal, y: Literal, j: usize) -> Clause
    requires { j < 4 }
    ensures { result ≡ get_or (xor_clauses n.code x.code y.code) j [] }
{
    let literals = match j {
        0 => [x, y, n.complement()],
        1 => [x, y.complement(), n],
        2 => [x.complement(), y, n],
        _ => [x.complement(), y.complement(), n.complement()],
    };
    Clause::of(literals)
}
