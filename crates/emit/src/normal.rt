// A gate and the numbers of its clauses, in normal form: an XOR's operands are complemented so that their representatives have no sign, and
// the operands are put in the order of their representatives.
ghost use Rattle.std.specs.Prelude.{◌≡◌, false, List, ◌<◌, length};
ghost use Rattle.model.specs.Nets.{net_of};
ghost use Rattle.fold_laws.specs.Table.{Entry, rep_of};
ghost use Rattle.emit_laws.specs.Gates as model;
ghost use Rattle.table.specs.Rows.{HoldsTable};
ghost use Rattle.derivation.specs.Known.{literals_of, numbers_of};

use derivation::gates::DefinedGate;
use table::rows::representative;

// The operands exchanged, and two clauses with them: of an AND the first two, of an XOR the middle two.
fn swap<const XOR: bool>(d: DefinedGate) -> DefinedGate
    ensures literals { literals_of result ≡ model.order false (literals_of d) }
    ensures numbers { numbers_of result ≡ model.order_numbers XOR false (numbers_of d) }
{
    let (a, b, c) = if XOR {
        (d.a, d.c, d.b)
    } else {
        (d.b, d.a, d.c)
    };
    DefinedGate {
        x: d.y,
        y: d.x,
        a,
        b,
        c,
        ..d
    }
}

// Each operand of an XOR complemented where its flag is set, and the gate with them.
fn turn(d: DefinedGate, first: bool, second: bool) -> DefinedGate
    ensures literals { literals_of result ≡ model.turn first second (literals_of d) }
    ensures numbers { numbers_of result ≡ model.turn_numbers first second (numbers_of d) }
{
    let n = d.n.complement_if(first != second);
    let x = d.x.complement_if(first);
    let y = d.y.complement_if(second);
    let (a, b, c, d) = match (first, second) {
        (false, false) => (d.a, d.b, d.c, d.d),
        (true, false) => (d.c, d.d, d.a, d.b),
        (false, true) => (d.b, d.a, d.d, d.c),
        (true, true) => (d.d, d.c, d.b, d.a),
    };
    DefinedGate {
        n,
        x,
        y,
        a,
        b,
        c,
        d,
    }
}

// A gate in normal form: the operands of an AND keep their signs.
pub fn normal<const XOR: bool>(table: &[u16], d: DefinedGate) -> DefinedGate
    ensures { (t : List Entry) → HoldsTable table.now t → net_of d.x.code < length t → net_of d.y.code < length t
        → (literals_of result ≡ model.normal (rep_of t) XOR (literals_of d))
        × (numbers_of result ≡ model.normal_numbers (rep_of t) XOR (literals_of d) (numbers_of d)) }
{
    let first = XOR & representative(table, d.x).sign();
    let second = XOR & representative(table, d.y).sign();
    let unsigned = turn(d, first, second);
    if representative(table, unsigned.x) <= representative(table, unsigned.y) {
        return unsigned;
    }
    swap::<XOR>(unsigned)
}
