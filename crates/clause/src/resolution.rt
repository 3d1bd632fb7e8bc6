// One resolution step (document 01, 'Steps') on two clauses as `save` leaves them in the store. Each is copied without its pivot, and the copies
// are joined. No branch asks where a pivot stands, which of two literals is lower or where a long clause ends: such branches are mispredicted.
ghost use Rattle.std.specs.Prelude.{◌≡◌, ℕ, true, ◌<◌, ◌≤◌, drop, length};
ghost use Rattle.model.specs.Limits.{clause_width};
ghost use Rattle.model.specs.Clauses as model;
ghost use Rattle.refusal.specs.Answers.{number_of};
ghost use Rattle.clause.specs.Places.{literal_bound, head_of};
ghost use Rattle.clause.specs.Sets.{Stores, Copies, Sought, fitted, resolve_of, refusal_of, answer_of};

use crate::Clause;
use literal::Literal;
use refusal::Reason;

// Why two clauses have no resolvent.
#[derive(Clone, Copy, PartialEq, Eq)]
pub enum Unresolved {
    Pivot, // a clause lacks its pivot: refusal 10
    Length, // the result has more literals than a clause holds: refusal 11
}

impl From<Unresolved> for Reason {
    ghost from_gives = { λ why reason. number_of reason ≡ refusal_of why };

    fn from(why: Unresolved) -> Reason {
        match why {
            Unresolved::Pivot => Reason::Pivot,
            Unresolved::Length => Reason::Length,
        }
    }
}

// The literal at place i of a stored clause, and past its end the bound: what stands for no literal is 0, and 0 less one is the bound.
fn head(s: &[u16], i: usize) -> u16
    ensures { (c : model.Clause) → Stores s.now c → result ≡ head_of (drop i c) }
{
    match s.get(i) {
        Some(x) => x.wrapping_sub(1),
        None => Literal::BOUND,
    }
}

// Refuses unless a stored clause holds a literal. All places are looked at, so that no branch depends on where it stands.
fn seek(s: &[u16], l: u16) -> Result<(), Unresolved>
    requires { l < literal_bound }
    ensures { (c : model.Clause) → Stores s.now c → Sought (model.holds l c) result }
{
    let mut met = false;
    for i in 0..Clause::WIDTH {
        met |= head(s, i) == l;
    }
    if met { Ok(()) } else { Err(Unresolved::Pivot) }
}

// A copy of a stored clause without a literal that it holds: each place below that literal stays, and each other takes the next. The copy is no
// `Clause`, since its length is not counted: to count it costs a third of the step.
fn without(s: &[u16], l: u16) -> [u16; Clause::WIDTH]
    ensures { (c : model.Clause) → Stores s.now c → model.holds l c ≡ true → Copies result (model.without l c) }
{
    let mut literals = [Literal::BOUND; Clause::WIDTH];
    for i in 0..Clause::WIDTH {
        let x = head(s, i);
        literals[i] = if x < l { x } else { head(s, i + 1) };
    }
    literals
}

// The literal at place i of a copy, and past its end the bound.
fn at(a: &[u16; Clause::WIDTH], i: usize) -> u16
    ensures { (c : model.Clause) → Copies a.now c → result ≡ head_of (drop i c) }
{
    match a.get(i) {
        Some(x) => *x,
        None => Literal::BOUND,
    }
}

// The join of two copies. A turn takes the lowest literal from each copy that has it; where both are at their ends, the bound is put again. The
// end is asked for in the first half: many short clauses in a row end alike, and long ones each elsewhere.
#[tactic(auto, using(crate::proofs::PlaceLaws::whole_ends))]
fn join(a: &[u16; Clause::WIDTH], b: &[u16; Clause::WIDTH]) -> Result<Clause, Unresolved>
    ensures { (c d : model.Clause) (line : ℕ) → Copies a.now c → Copies b.now d → answer_of result line ≡ fitted (model.join c d) line }
{
    let mut literals = [Literal::BOUND; Clause::WIDTH];
    let mut len: usize = 0;
    let mut i: usize = 0;
    let mut j: usize = 0;
    for k in 0..Clause::WIDTH {
        let x = at(a, i);
        let y = at(b, j);
        let lowest = y.min(x); // by the comparison that i needs too: x.min(y) costs a twentieth of the step
        if k <= Clause::WIDTH / 2 && lowest == Literal::BOUND {
            return Ok(Clause { literals, len });
        }
        literals[k] = lowest;
        len = if lowest < Literal::BOUND { k + 1 } else { len };
        i += usize::from(x <= y);
        j += usize::from(y <= x);
    }
    if at(a, i).min(at(b, j)) == Literal::BOUND {
        return Ok(Clause { literals, len });
    }
    Err(Unresolved::Length)
}

// Two stored clauses resolved on variable v: the first without v joined with the second without ¬v. No clause holds the complement of a variable
// whose complement is the bound or above it, and no pivot of any other wraps.
pub fn resolve(first: &[u16], second: &[u16], v: u16) -> Result<Clause, Unresolved>
    requires { (length first.now ≡ clause_width) × (length second.now ≡ clause_width) }
    ensures { (c d : model.Clause) (line : ℕ) → Stores first.now c → Stores second.now d → answer_of result line ≡ resolve_of v c d line }
{
    if Literal::BOUND / 2 <= v {
        return Err(Unresolved::Pivot);
    }
    let p = Literal::positive(v).code;
    let q = Literal::negative(v).code;
    seek(first, p)?;
    seek(second, q)?;
    let a = without(first, p);
    let b = without(second, q);
    join(&a, &b)
}
