// The lines of an AND gate, case by case, where the representatives of its operands rise: it links the gate to what it stands for, or gives
// its clauses over its key. Why no case is one function with its like of an XOR is said in `xors`.
ghost use Rattle.std.specs.Prelude.{◌<◌, false, [], length, get_or};
ghost use Rattle.fold_laws.specs.Cases.AndCase.{nil, pass, opp, pair};
ghost use Rattle.derivation.specs.Emission.{Room, Few, Emits, EmitsAll};
ghost use Rattle.derivation.specs.Known.{OfGate};
ghost use Rattle.derivation.specs.Parts.{gate_trees, and_case_trees, and_own, and_down, and_up};

use crate::gates::{DefinedGate, DerivedGate};
use crate::lines::Proof;
use crate::nets::Nets;
use crate::subst::{link2, subst2};
use literal::Literal;
use table::links::number_at;
use table::rows::representative;

// An operand is false: so is the gate.
fn and_false(nets: Nets, proof: &mut Proof, d: DefinedGate) -> DerivedGate
    requires { Room proof.old 2 }
    ensures few { Few proof.old 2 proof.new }
    ensures emits { OfGate nets.entry d (λ t links. EmitsAll proof.old proof.new result (and_case_trees t links nil d)) }
{
    let down = link2(nets, proof, d.n, d.a, d.x, d.x);
    DerivedGate::Linked(down, 0)
}

// The first operand is true, or both are the same: the gate is the second.
fn and_pass(nets: Nets, proof: &mut Proof, d: DefinedGate) -> DerivedGate
    requires { Room proof.old 4 }
    ensures few { Few proof.old 4 proof.new }
    ensures emits { OfGate nets.entry d (λ t links. EmitsAll proof.old proof.new result (and_case_trees t links pass d)) }
{
    let not_n = d.n.complement();
    let not_x = d.x.complement();
    let not_y = d.y.complement();
    let down = link2(nets, proof, d.n, d.b, d.y, d.y);
    let up = link2(nets, proof, not_n, d.c, not_x, not_y);
    DerivedGate::Linked(down, up)
}

// The operands are opposite: the gate is false.
fn and_opposite(nets: Nets, proof: &mut Proof, d: DefinedGate) -> DerivedGate
    requires { Room proof.old 5 }
    ensures few { Few proof.old 5 proof.new }
    ensures emits { OfGate nets.entry d (λ t links. EmitsAll proof.old proof.new result (and_case_trees t links opp d)) }
{
    let first = subst2(nets, proof, d.a, d.x, d.x);
    let second = subst2(nets, proof, d.b, d.y, d.y);
    let down = proof.resolve(first, second, representative(nets.table, d.x));
    DerivedGate::Linked(down, 0)
}

// The key is new: the gate's clauses over it.
fn and_own(nets: Nets, proof: &mut Proof, d: DefinedGate) -> DerivedGate
    requires { Room proof.old 6 }
    ensures few { Few proof.old 6 proof.new }
    ensures emits { OfGate nets.entry d (λ t links. EmitsAll proof.old proof.new result (and_own t links d)) }
{
    let not_x = d.x.complement();
    let not_y = d.y.complement();
    let first = subst2(nets, proof, d.a, d.x, d.x);
    let second = subst2(nets, proof, d.b, d.y, d.y);
    let third = subst2(nets, proof, d.c, not_x, not_y);
    DerivedGate::Own([first, second, third, 0])
}

// The gate implies the earlier gate u with its key.
fn and_down(nets: Nets, proof: &mut Proof, d: DefinedGate, u: u16) -> u16
    requires { Room proof.old 6 }
    ensures few { Few proof.old 6 proof.new }
    ensures emits { OfGate nets.entry d (λ t links. u < length links → Emits proof.old proof.new result (and_down t links d (get_or links u []))) }
{
    let second = subst2(nets, proof, d.b, d.y, d.y);
    let first = subst2(nets, proof, d.a, d.x, d.x);
    let half = proof.resolve(
        first,
        number_at(nets.links, u, 2),
        representative(nets.table, d.x),
    );
    proof.resolve(second, half, representative(nets.table, d.y))
}

// The earlier gate u with its key implies the gate.
fn and_up(nets: Nets, proof: &mut Proof, d: DefinedGate, u: u16) -> u16
    requires { Room proof.old 4 }
    ensures few { Few proof.old 4 proof.new }
    ensures emits { OfGate nets.entry d (λ t links. u < length links → Emits proof.old proof.new result (and_up t links d (get_or links u []))) }
{
    let not_x = d.x.complement();
    let not_y = d.y.complement();
    let third = subst2(nets, proof, d.c, not_x, not_y);
    let half = proof.resolve(
        number_at(nets.links, u, 0),
        third,
        representative(nets.table, d.x),
    );
    proof.resolve(
        number_at(nets.links, u, 1),
        half,
        representative(nets.table, d.y),
    )
}

// The key is not constant: the gate stands for itself, or for the earlier gate with its key.
fn and_pair(nets: Nets, proof: &mut Proof, d: DefinedGate) -> DerivedGate
    requires { Room proof.old 10 }
    ensures few { Few proof.old 10 proof.new }
    ensures emits { OfGate nets.entry d (λ t links. EmitsAll proof.old proof.new result (and_case_trees t links pair d)) }
{
    let rep = representative(nets.table, d.n);
    if rep == d.n {
        return and_own(nets, proof, d);
    }
    let u = rep.variable();
    let down = and_down(nets, proof, d, u);
    let up = and_up(nets, proof, d, u);
    DerivedGate::Linked(down, up)
}

// The lines of an AND in normal form.
pub fn and_gate(nets: Nets, proof: &mut Proof, d: DefinedGate) -> DerivedGate
    requires { Room proof.old 16 }
    ensures few { Few proof.old 16 proof.new }
    ensures emits { OfGate nets.entry d (λ t links. EmitsAll proof.old proof.new result (gate_trees t links false d)) }
{
    let p = representative(nets.table, d.x);
    let q = representative(nets.table, d.y);
    if p == Literal::FALSE {
        return and_false(nets, proof, d);
    }
    if p == Literal::TRUE || p == q {
        return and_pass(nets, proof, d);
    }
    if p == q.complement() {
        return and_opposite(nets, proof, d);
    }
    and_pair(nets, proof, d)
}
