// The lines of an XOR gate, case by case, where the representatives of its operands have no sign and rise: it links the gate to what it
// stands for, or gives its clauses over its key. A case is no one function with its like in `ands`: the two name other clauses over other
// literals, each of which would be a parameter, and share two or three calls.
ghost use Rattle.std.specs.Prelude.{◌<◌, true, length};
ghost use Rattle.model.specs.Nets.{net_of};
ghost use Rattle.model.specs.Clauses.{neg};
ghost use Rattle.fold_laws.specs.Table.{rep_of};
ghost use Rattle.fold_laws.specs.Cases.XorCase.{pass, same, pair};
ghost use Rattle.emit_laws.specs.Trees.Tree.{old};
ghost use Rattle.emit_laws.specs.Subst.{imply_xor};
ghost use Rattle.derivation.specs.Emission.{Room, Few, Emits, EmitsAll};
ghost use Rattle.derivation.specs.Known.{OfNets, OfGate};
ghost use Rattle.derivation.specs.Parts.{over, gate_trees, xor_case_trees, xor_own};

use crate::gates::{DefinedGate, DerivedGate};
use crate::lines::Proof;
use crate::nets::Nets;
use crate::subst::{link2, subst2};
use literal::Literal;
use table::links::number_at;
use table::rows::representative;

// The first operand is false: the gate is the second.
fn xor_pass(nets: Nets, proof: &mut Proof, d: DefinedGate) -> DerivedGate
    requires { Room proof.old 4 }
    ensures few { Few proof.old 4 proof.new }
    ensures emits { OfGate nets.entry d (λ t links. EmitsAll proof.old proof.new result (xor_case_trees t links pass d)) }
{
    let not_n = d.n.complement();
    let not_y = d.y.complement();
    let down = link2(nets, proof, d.n, d.a, d.x, d.y);
    let up = link2(nets, proof, not_n, d.b, d.x, not_y);
    DerivedGate::Linked(down, up)
}

// The operands are the same: the gate is false.
fn xor_same(nets: Nets, proof: &mut Proof, d: DefinedGate) -> DerivedGate
    requires { Room proof.old 5 }
    ensures few { Few proof.old 5 proof.new }
    ensures emits { OfGate nets.entry d (λ t links. EmitsAll proof.old proof.new result (xor_case_trees t links same d)) }
{
    let not_x = d.x.complement();
    let not_y = d.y.complement();
    let first = subst2(nets, proof, d.a, d.x, d.y);
    let fourth = subst2(nets, proof, d.d, not_x, not_y);
    let down = proof.resolve(first, fourth, representative(nets.table, d.x));
    DerivedGate::Linked(down, 0)
}

// The key is new: the gate's clauses over it.
fn xor_own(nets: Nets, proof: &mut Proof, d: DefinedGate) -> DerivedGate
    requires { Room proof.old 8 }
    ensures few { Few proof.old 8 proof.new }
    ensures emits { OfGate nets.entry d (λ t links. EmitsAll proof.old proof.new result (xor_own t links d)) }
{
    let not_x = d.x.complement();
    let not_y = d.y.complement();
    let first = subst2(nets, proof, d.a, d.x, d.y);
    let second = subst2(nets, proof, d.b, d.x, not_y);
    let third = subst2(nets, proof, d.c, not_x, d.y);
    let fourth = subst2(nets, proof, d.d, not_x, not_y);
    DerivedGate::Own([first, second, third, fourth])
}

// What links two XORs of x and y: from the clauses of one where both are as they stand and where both are complemented, and from the other's
// clauses over the representatives where y is complemented and where x is. Inlined, since its calls
// cost a fifth of the time of such a gate.
#[inline(always)]
fn imply_xor(
    nets: Nets,
    proof: &mut Proof,
    x: Literal,
    y: Literal,
    k00: u16,
    k11: u16,
    m01: u16,
    m10: u16,
) -> u16
    requires { Room proof.old 7 }
    ensures few { Few proof.old 7 proof.new }
    ensures emits { OfNets nets.entry (λ t links. net_of x.code < length links → net_of y.code < length links
        → Emits proof.old proof.new result (imply_xor (over t links k00 x.code y.code) (over t links k11 (neg x.code) (neg y.code))
        (old m01) (old m10) (rep_of t x.code) (rep_of t y.code))) }
{
    let q = representative(nets.table, y);
    let not_x = x.complement();
    let not_y = y.complement();
    let one = subst2(nets, proof, k00, x, y);
    let left = proof.resolve(one, m01, q);
    let two = subst2(nets, proof, k11, not_x, not_y);
    let right = proof.resolve(m10, two, q);
    proof.resolve(left, right, representative(nets.table, x))
}

// The key is not constant: the gate stands for itself, or for the core of the earlier gate with its key.
fn xor_pair(nets: Nets, proof: &mut Proof, d: DefinedGate) -> DerivedGate
    requires { Room proof.old 14 }
    ensures few { Few proof.old 14 proof.new }
    ensures emits { OfGate nets.entry d (λ t links. EmitsAll proof.old proof.new result (xor_case_trees t links pair d)) }
{
    let rep = representative(nets.table, d.n);
    if rep == d.n {
        return xor_own(nets, proof, d);
    }
    let u = rep.variable();
    let not_y = d.y.complement();
    let second = number_at(nets.links, u, 1);
    let third = number_at(nets.links, u, 2);
    let down = imply_xor(nets, proof, d.x, d.y, d.a, d.d, second, third);
    let first = number_at(nets.links, u, 0);
    let fourth = number_at(nets.links, u, 3);
    let up = imply_xor(nets, proof, d.x, not_y, d.b, d.c, first, fourth);
    DerivedGate::Linked(down, up)
}

// The lines of an XOR in normal form.
pub fn xor_gate(nets: Nets, proof: &mut Proof, d: DefinedGate) -> DerivedGate
    requires { Room proof.old 16 }
    ensures few { Few proof.old 16 proof.new }
    ensures emits { OfGate nets.entry d (λ t links. EmitsAll proof.old proof.new result (gate_trees t links true d)) }
{
    let p = representative(nets.table, d.x);
    let q = representative(nets.table, d.y);
    if p == Literal::FALSE {
        return xor_pass(nets, proof, d);
    }
    if p == q {
        return xor_same(nets, proof, d);
    }
    xor_pair(nets, proof, d)
}
