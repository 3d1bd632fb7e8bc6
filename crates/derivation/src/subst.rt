// Representatives put for literals in a clause that is there, by resolutions with the clauses that link them.
ghost use Rattle.std.specs.Prelude.{◌<◌, length};
ghost use Rattle.model.specs.Nets.{net_of};
ghost use Rattle.fold_laws.specs.Table.{rep_of};
ghost use Rattle.emit_laws.specs.Trees.Tree.{old};
ghost use Rattle.emit_laws.specs.Subst as model;
ghost use Rattle.emit_laws.specs.Gates.{link_of};
ghost use Rattle.derivation.specs.Emission.{Room, Few, Emits};
ghost use Rattle.derivation.specs.Known.{OfNets};

use crate::lines::Proof;
use crate::nets::Nets;
use literal::Literal;
use table::links::link;
use table::rows::representative;

// In clause c, the representative of l for l.
pub fn subst1(nets: Nets, proof: &mut Proof, c: u16, l: Literal) -> u16
    requires { Room proof.old 1 }
    ensures few { Few proof.old 1 proof.new }
    ensures emits { OfNets nets.entry (λ t links. net_of l.code < length links
        → Emits proof.old proof.new result (model.subst1 (rep_of t) (link_of links) (old c) l.code)) }
{
    if representative(nets.table, l) == l && l > Literal::TRUE {
        return c;
    }
    proof.resolve(c, link(nets.links, l), l)
}

// Those of l and m for both, in turn; once if they are the same.
pub fn subst2(nets: Nets, proof: &mut Proof, c: u16, l: Literal, m: Literal) -> u16
    requires { Room proof.old 2 }
    ensures few { Few proof.old 2 proof.new }
    ensures emits { OfNets nets.entry (λ t links. net_of l.code < length links → net_of m.code < length links
        → Emits proof.old proof.new result (model.subst2 (rep_of t) (link_of links) (old c) l.code m.code)) }
{
    let one = subst1(nets, proof, c, l);
    if l == m {
        return one;
    }
    subst1(nets, proof, one, m)
}

// From a clause of ¬n, l and m, the one that links n to its representative; none where that is true.
pub fn link2(nets: Nets, proof: &mut Proof, n: Literal, c: u16, l: Literal, m: Literal) -> u16
    requires { Room proof.old 2 }
    ensures few { Few proof.old 2 proof.new }
    ensures emits { OfNets nets.entry (λ t links. net_of n.code < length t → net_of l.code < length links → net_of m.code < length links
        → Emits proof.old proof.new result (model.link2 (rep_of t) (link_of links) n.code (old c) l.code m.code)) }
{
    if representative(nets.table, n) == Literal::TRUE {
        return 0;
    }
    subst2(nets, proof, c, l, m)
}
