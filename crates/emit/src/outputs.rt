// The outputs: each z is false, then each w, down to the empty clause.
ghost use Rattle.std.specs.Prelude.{◌≡◌, ◌+◌, ◌*◌, ◌<◌, ◌≤◌, length};
ghost use Rattle.model.specs.Limits.{lines_per_output, highest_variable, most_clauses};
ghost use Rattle.model.specs.Nets.{net_of};
ghost use Rattle.model.specs.Nets.Op.{xor};
ghost use Rattle.model.specs.Clauses.{positive};
ghost use Rattle.fold_laws.specs.Table.{rep_of};
ghost use Rattle.emit_laws.specs.Trees.{lay};
ghost use Rattle.emit_laws.specs.Trees.Tree.{old, cut as cut_tree};
ghost use Rattle.emit_laws.specs.Gates.{link_of};
ghost use Rattle.emit_laws.specs.Outputs.{out_tree};
ghost use Rattle.emit_laws.specs.Emit.{last_tree};
ghost use Rattle.miter.specs.Miters.{Numbered};
ghost use Rattle.derivation.specs.Emission.{Room, Few, Adds, Emits};
ghost use Rattle.derivation.specs.Known.{OfNets};

use derivation::lines::Proof;
use derivation::nets::Nets;
use derivation::subst::subst2;
use literal::Literal;
use miter::both::outputs_of;
use miter::clauses::ClauseNumbers;
use netlist::pair::Pair;
use table::rows::representative;

// ¬z, from the clauses of z, the XOR of x and y, which begin with number k.
fn out(nets: Nets, proof: &mut Proof, k: u16, x: u16, y: u16) -> u16
    requires { Room proof.old 5 × (k + 3 ≤ most_clauses) }
    ensures few { Few proof.old 5 proof.new }
    ensures emits { OfNets nets.entry (λ t links. net_of x < length links → net_of y < length links
        → Emits proof.old proof.new result (out_tree (rep_of t) (link_of links) k (record { op = xor; x = x; y = y }))) }
{
    let left = Literal::from(x);
    let right = Literal::from(y);
    let p = representative(nets.table, left);
    let not_x = left.complement();
    let not_y = right.complement();
    if p == Literal::TRUE {
        return subst2(nets, proof, k + 3, not_x, not_y);
    }
    let first = subst2(nets, proof, k, left, right);
    if p == Literal::FALSE {
        return first;
    }
    let fourth = subst2(nets, proof, k + 3, not_x, not_y);
    proof.resolve(first, fourth, p)
}

// One output more: clause run is ¬w, the next w has its clauses from kw on, and z, the XOR of x and y, from kz on. It gives ¬ of the next w.
fn next_out(
    nets: Nets,
    proof: &mut Proof,
    run: u16,
    w: u16,
    kw: u16,
    z: u16,
    kz: u16,
    x: u16,
    y: u16,
) -> u16
    requires { Room proof.old 7 × (w ≤ highest_variable) × (z ≤ highest_variable)
        × (kw + 2 ≤ most_clauses) × (kz + 3 ≤ most_clauses) }
    ensures few { Few proof.old 7 proof.new }
    ensures emits { OfNets nets.entry (λ t links. net_of x < length links → net_of y < length links
        → Emits proof.old proof.new result
        (cut_tree (cut_tree (old (kw + 2)) (old run) (positive w))
        (out_tree (rep_of t) (link_of links) kz (record { op = xor; x = x; y = y })) (positive z))) }
{
    let half = proof.resolve(kw + 2, run, Literal::positive(w));
    let one = out(nets, proof, kz, x, y);
    proof.resolve(half, one, Literal::positive(z))
}

// All outputs, and the empty clause.
pub fn outputs(pair: &Pair<'_>, nets: Nets, proof: &mut Proof, numbers: ClauseNumbers)
    requires { Room proof.old (lines_per_output * length pair.now.left.outs) × Numbered numbers pair.now.left pair.now.right }
    ensures few { Few proof.old (lines_per_output * length pair.now.left.outs) proof.new }
    ensures adds { OfNets nets.entry (λ t links. length links ≡ 1 + pair.now.left.inputs + length pair.now.left.gates + length pair.now.right.gates
        → Adds proof.old proof.new (lay proof.old.clauses (last_tree (rep_of t) links pair.now.left pair.now.right))) }
{
    let parts = pair.parts();
    let count = parts.outputs as u16;
    let z = parts.first_z() as u16;
    let first_w = parts.first_w() as u16;
    let first = outputs_of(pair, 0);
    let mut run = out(nets, proof, numbers.first_z, first.x, first.y);
    let mut w = z;
    for i in 1..count {
        let gate = outputs_of(pair, i as usize);
        let j = numbers.first_w + 3 * (i - 1); // the clauses of the next w
        let k = numbers.first_z + 4 * i; // of this z
        run = next_out(nets, proof, run, w, j, z + i, k, gate.x, gate.y);
        w = first_w + (i - 1);
    }
    proof.resolve(numbers.last, run, Literal::positive(w));
}
