// A gate's entry, from the table of the nets before it.
ghost use Rattle.std.specs.Prelude.{◌≡◌, Bool, true, List, length};
ghost use Rattle.model.specs.Nets.{reads_below};
ghost use Rattle.listing.specs.Gates.{gate_meant};
ghost use Rattle.fold_laws.specs.Cases.Made.{key};
ghost use Rattle.fold_laws.specs.Table as model;
ghost use Rattle.table.specs.Rows.{entry_of};
ghost use Rattle.table.specs.Buckets.{Indexed, Among};
ghost use Rattle.fold.specs.Entries.{folded_of};

use crate::operands::{Folded, and_of, xor_of};
use frame::{Gate, Op};
use literal::Literal;
use table::buckets::find;
use table::rows::{AND, Entry, XOR, core_of, keyless, representative};

// The entry of net v of this key, where its literal of this sign is the AND or XOR of the key: of the first net that has it, or its own.
fn found(
    work: &[u16],
    nets: usize,
    v: usize,
    kind: u16,
    sign: bool,
    a: Literal,
    b: Literal,
) -> Entry
    requires { Among (length work.now) nets v }
    ensures { (t : List model.Entry) (k : Bool) → Indexed work.now nets t → length t ≡ v → kind ≡ model.kind_of k
        → entry_of result ≡ model.enter t k sign (key a.code b.code) }
{
    match find(work, nets, v, kind, a, b) {
        // that the net is below v is known of a table alone, and `core_of` asks it of any numbers
        Some(u) if u < v => keyless(core_of(work, u).complement_if(sign), kind),
        _ => {
            let own = Literal::positive(v as u16);
            Entry {
                rep: own,
                kind,
                ka: a,
                kb: b,
                core: own.complement_if(sign),
            }
        }
    }
}

// The entry of net v, where its literal of this sign is what its operands fold to.
fn entered(work: &[u16], nets: usize, v: usize, kind: u16, sign: bool, folded: Folded) -> Entry
    requires { Among (length work.now) nets v }
    ensures { (t : List model.Entry) (k : Bool) → Indexed work.now nets t → length t ≡ v → kind ≡ model.kind_of k → entry_of result ≡ model.enter t k sign (folded_of folded) }
{
    match folded {
        Folded::Is(l) => keyless(l.complement_if(sign), kind),
        Folded::Key(a, b) => found(work, nets, v, kind, sign, a, b),
    }
}

// The entry of net v as this gate.
pub fn entry(work: &[u16], nets: usize, v: usize, gate: Gate) -> Entry
    requires { Among (length work.now) nets v }
    ensures { (t : List model.Entry) → Indexed work.now nets t → length t ≡ v → reads_below v (gate_meant gate) ≡ true → entry_of result ≡ model.entry t (gate_meant gate) }
{
    let p = representative(work, Literal::from(gate.x));
    let q = representative(work, Literal::from(gate.y));
    // one match for both, since closures would only give the arms names
    match gate.op {
        Op::And => entered(work, nets, v, AND, false, and_of(p, q)),
        Op::Xor => entered(work, nets, v, XOR, p.sign() != q.sign(), xor_of(p, q)),
    }
}
