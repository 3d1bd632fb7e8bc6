// The miter's variables (document 01, 'The miter's clauses'): left gates, right gates, one z for each output, one w for each output from the
// second on. Each is the AND or XOR of two literals, or for a w the OR, which is an AND of complements.
ghost use Rattle.std.specs.Prelude.{◌≡◌, true, ℕ, ◌+◌, ◌<◌, ◌≤◌, get_or};
ghost use Rattle.model.specs.Limits.{highest_variable};
ghost use Rattle.model.specs.Nets.{reads_below};
ghost use Rattle.model.specs.Miter.{miter_gates};
ghost use Rattle.listing.specs.Gates.{gate_meant, no_gate};
ghost use Rattle.miter.specs.Miters.{Defines, gate_count, w_variable, w_gate};

use crate::both::{gate_of, outputs_of};
use frame::{Gate, Op};
use literal::Literal;
use netlist::pair::Pair;
use steps::gates::Definition;

// Variable v as this gate.
fn defined(v: usize, gate: Gate) -> Definition
    requires { v ≤ highest_variable }
    ensures { reads_below v (gate_meant gate) ≡ true → Defines result v (gate_meant gate) }
{
    Definition {
        op: gate.op,
        n: Literal::positive(v as u16),
        x: Literal::from(gate.x),
        y: Literal::from(gate.y),
    }
}

// The variable of w of output k, from 0, behind the first z and the first w: w of the first output means its z.
fn w_variable(z: usize, w: usize, k: usize) -> usize
    requires { w + k < highest_variable }
    ensures { result ≡ w_variable z w k }
{
    if k == 0 {
        return z;
    }
    w + (k - 1)
}

// w of output k + 1, from 0: the OR of the w before it, or the first z, and of its z.
fn w_gate(z: usize, w: usize, k: usize) -> Definition
    requires { (z ≤ w) × (w + k < highest_variable) }
    ensures { Defines result (w + k) (w_gate z w k) }
{
    Definition {
        op: Op::And,
        n: Literal::negative((w + k) as u16),
        x: Literal::negative(w_variable(z, w, k) as u16),
        y: Literal::negative((z + 1 + k) as u16),
    }
}

// Variable v of the miter, from the first left gate on.
pub fn variable(pair: &Pair<'_>, v: usize) -> Definition
    requires { (1 + pair.now.left.inputs ≤ v) × (v < 1 + pair.now.left.inputs + gate_count pair.now) }
    ensures { (i : ℕ) → v ≡ 1 + pair.now.left.inputs + i → Defines result v (get_or (miter_gates pair.now.left pair.now.right) i no_gate) }
{
    let parts = pair.parts();
    let z = parts.first_z();
    if v < z {
        return defined(v, gate_of(pair, v - parts.first_gate()));
    }
    let w = parts.first_w();
    if v < w {
        return defined(v, outputs_of(pair, v - z));
    }
    w_gate(z, w, v - w)
}
