// The miter's clauses put into the store, before the first step: 'not variable 0', those of every variable, and the last w.
ghost use Rattle.std.specs.Prelude.{◌≡◌, [], ◌∷◌, ◌+◌, ◌≤◌, length};
ghost use Rattle.model.specs.Nets.{Netlist};
ghost use Rattle.model.specs.Miter.{first_clause, miter_gates, miter_vars};
ghost use Rattle.steps.specs.Kept.{replied};
ghost use Rattle.steps.specs.Proofs.{state_of, nothing, SamePlace};
ghost use Rattle.miter.specs.Miters.{FilledSays, begin_of, gate_count, gates_up_to};

use crate::variables::variable;
use clause::Clause;
use literal::Literal;
use netlist::pair::Pair;
use refusal::{Reason, Refusal};
use steps::Proof;
use steps::gates::clause_count;

// The last clause, of the last variable; or 8.
fn close(proof: &mut Proof, last: usize) -> Result<(), Refusal>
    requires { last ≤ 4096 }
    ensures begins { (a b : Netlist) → state_of proof.old ≡ record nothing { clauses = gates_up_to a b (length (miter_gates a b)) } → miter_vars a b ≡ last + 1
        → replied result (state_of proof.new) ≡ begin_of proof.old.room a b }
    ensures place { SamePlace proof.old proof.new }
{
    if proof.clauses == proof.room {
        return Err(Reason::Miter.at(0));
    }
    proof.push(Clause::of([Literal::positive(last as u16)]));
    proof.use_variables((last + 1) as u16);
    Ok(())
}

// The variables in order, each with its clauses, behind the first clause; or 8.
fn write_variables(pair: &Pair<'_>, proof: &mut Proof) -> Result<(), Refusal>
    requires { (state_of proof.old).clauses ≡ first_clause ∷ [] }
    ensures fills { FilledSays proof.old.room (gates_up_to pair.now.left pair.now.right (gate_count pair.now)) (state_of proof.old) (state_of proof.new) result }
    ensures place { SamePlace proof.old proof.new }
{
    let parts = pair.parts();
    for v in parts.first_gate()..parts.variables() {
        let d = variable(pair, v);
        if proof.room < proof.clauses + clause_count(d.op) {
            return Err(Reason::Miter.at(0));
        }
        proof.define(d);
    }
    Ok(())
}

// All of the miter's clauses, where there is no clause yet: the proof before its first step; or 8.
pub fn begin(pair: &Pair<'_>, proof: &mut Proof) -> Result<(), Refusal>
    requires { state_of proof.old ≡ nothing }
    ensures begins { replied result (state_of proof.new) ≡ begin_of proof.old.room pair.now.left pair.now.right }
    ensures place { SamePlace proof.old proof.new }
{
    if proof.room == 0 {
        return Err(Reason::Miter.at(0));
    }
    let last = pair.parts().variables() - 1;
    proof.push(Clause::of([Literal::negative(0)]));
    write_variables(pair, proof)?;
    close(proof, last)
}
