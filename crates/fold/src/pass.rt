// The whole table of both lists: net 0 and the inputs, then the gates; and the first output whose representatives differ.
ghost use Rattle.std.specs.Prelude.{◌≡◌, ◌+◌, ◌*◌, ◌≤◌, length};
ghost use Rattle.model.specs.Limits.{numbers_per_net};
ghost use Rattle.fold_laws.specs.Table as model;
ghost use Rattle.fold_laws.specs.Engine.{both_table, by_reps};
ghost use Rattle.table.specs.Rows.{HoldsTable};
ghost use Rattle.table.specs.Buckets.{Indexed, Among};
ghost use Rattle.fold.specs.Entries.{numbered};

use crate::entry::entry;
use literal::Literal;
use miter::both::{gate_of, outputs_of};
use netlist::pair::Pair;
use table::buckets::{empty, insert};
use table::rows::{keyless, representative};

// The table of net 0 and the inputs, which represent themselves.
fn set_bases(work: &mut [u16], nets: usize, inputs: usize)
    requires { Among (length work.old) nets inputs }
    ensures { Indexed work.new nets (model.bases 0 (1 + inputs)) }
{
    empty(work, nets);
    for k in 0..1 + inputs {
        insert(work, nets, k, keyless(Literal::positive(k as u16), 0));
    }
}

// The table of both lists.
pub fn fold(pair: &Pair<'_>, work: &mut [u16])
    requires { numbers_per_net * (1 + pair.now.left.inputs + length pair.now.left.gates + length pair.now.right.gates) ≤ length work.old }
    ensures { HoldsTable work.new (both_table pair.now.left pair.now.right) }
{
    let parts = pair.parts();
    let nets = parts.nets();
    set_bases(work, nets, parts.inputs);
    for k in 0..parts.left + parts.right {
        let v = parts.first_gate() + k;
        let own = entry(work, nets, v, gate_of(pair, k));
        insert(work, nets, v, own);
    }
}

// The first output whose representatives differ, from 1.
pub fn first_apart(pair: &Pair<'_>, work: &[u16]) -> Option<usize>
    ensures { HoldsTable work.now (both_table pair.now.left pair.now.right) → result ≡ numbered (by_reps pair.now.left pair.now.right) }
{
    for k in 0..pair.parts().outputs {
        let gate = outputs_of(pair, k);
        let x = representative(work, Literal::from(gate.x));
        let y = representative(work, Literal::from(gate.y));
        if x != y {
            return Some(k + 1);
        }
    }
    None
}
