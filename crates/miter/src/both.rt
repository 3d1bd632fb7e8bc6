// The gates and outputs of both lists in the miter's numbering: the right list's gates lie behind the left list's.
ghost use Rattle.std.specs.Prelude.{◌≡◌, ◌+◌, ◌≤◌, ◌<◌, length, get_or};
ghost use Rattle.model.specs.Limits.{most_gates};
ghost use Rattle.model.specs.Miter as model;
ghost use Rattle.model.specs.Miter.{gates_of, z_gates};
ghost use Rattle.frame.specs.Frames.{op_of};
ghost use Rattle.listing.specs.Gates.{gate_meant, no_gate};

use frame::{Gate, Op};
use literal::Literal;
use netlist::pair::Pair;

// A right list's literal as the miter's: its gates lie behind the left list's.
fn shift(inputs: usize, left: usize, l: u16) -> u16
    requires { (l < 4096) × (left ≤ most_gates) }
    ensures { result ≡ model.shift inputs left l }
{
    if Literal::from(l).variable() as usize <= inputs {
        return l;
    }
    l + 2 * (left as u16)
}

// Gate k of both lists, from 0.
pub fn gate_of(pair: &Pair<'_>, k: usize) -> Gate
    requires { k < length pair.now.left.gates + length pair.now.right.gates }
    ensures { gate_meant result ≡ get_or (gates_of pair.now.left pair.now.right) k no_gate }
{
    let left = pair.left.counts();
    if k < left.gates {
        return pair.left.gate(k);
    }
    let gate = pair.right.gate(k - left.gates);
    Gate {
        op: gate.op,
        x: shift(left.inputs, left.gates, gate.x),
        y: shift(left.inputs, left.gates, gate.y),
    }
}

// Its operation alone.
pub fn op_of(pair: &Pair<'_>, k: usize) -> Op
    requires { k < length pair.now.left.gates + length pair.now.right.gates }
    ensures { op_of result ≡ (get_or (gates_of pair.now.left pair.now.right) k no_gate).op }
{
    let left = pair.left.counts().gates;
    if k < left {
        return pair.left.op(k);
    }
    pair.right.op(k - left)
}

// The left and the right output k, from 0, as the XOR that compares them.
pub fn outputs_of(pair: &Pair<'_>, k: usize) -> Gate
    requires { k < length pair.now.left.outs }
    ensures { gate_meant result ≡ get_or (z_gates pair.now.left pair.now.right) k no_gate }
{
    let left = pair.left.counts();
    let x = pair.left.output(k);
    let y = pair.right.output(k);
    Gate {
        op: Op::Xor,
        x,
        y: shift(left.inputs, left.gates, y),
    }
}
