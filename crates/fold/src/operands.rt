// What two representatives fold to: a literal, or the key of a core to be found.
ghost use Rattle.std.specs.Prelude.{◌≡◌, false, true};
ghost use Rattle.fold_laws.specs.Cases as model;
ghost use Rattle.fold_laws.specs.Table.{ordered, part};
ghost use Rattle.fold.specs.Entries.{folded_of};

use literal::Literal;

#[derive(Clone, Copy, PartialEq, Eq)]
pub enum Folded {
    Is(Literal),
    Key(Literal, Literal),
}

// The AND of a ≤ b: a constant, if there is one, is a.
#[tactic(auto, unfolding(fold_laws::specs::Cases::and_case))]
fn and_ordered(a: Literal, b: Literal) -> Folded
    ensures { folded_of result ≡ model.made false a.code b.code }
{
    if a == Literal::FALSE || a == b.complement() {
        return Folded::Is(Literal::FALSE);
    }
    if a == Literal::TRUE || a == b {
        return Folded::Is(b);
    }
    Folded::Key(a, b)
}

// The XOR of a ≤ b, which have no sign. It stands beside the AND: of their cases only one is the same.
#[tactic(auto, unfolding(fold_laws::specs::Cases::xor_case))]
fn xor_ordered(a: Literal, b: Literal) -> Folded
    ensures { folded_of result ≡ model.made true a.code b.code }
{
    if a == Literal::FALSE {
        return Folded::Is(b);
    }
    if a == b {
        return Folded::Is(Literal::FALSE);
    }
    Folded::Key(a, b)
}

// The AND of two, put in order. Which is the lower nobody can foresee; `min` and `max` take no branch.
pub fn and_of(p: Literal, q: Literal) -> Folded
    ensures { folded_of result ≡ ordered false p.code q.code }
{
    and_ordered(p.min(q), p.max(q))
}

// The XOR of two with their signs taken off, put in order.
pub fn xor_of(p: Literal, q: Literal) -> Folded
    ensures { folded_of result ≡ ordered true (part true p.code) (part true q.code) }
{
    let a = p.unsigned();
    let b = q.unsigned();
    xor_ordered(a.min(b), a.max(b))
}
