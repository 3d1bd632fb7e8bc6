// Gates and outputs in a row whose lines have their frames and read nets that they may. Long lists have no others, and neither frame nor cursor is
// built for them: how many there are says where they end.
ghost use Rattle.std.specs.Prelude.{◌≡◌, ℕ, ◌<◌, ◌≤◌, true, length};
ghost use Rattle.model.specs.Nets.{is_below};
ghost use Rattle.netlist.specs.Plain.{PlainGate, PlainOutput, Rows};

use frame::rows::{gate_line, output_line};
use literal::Literal;

// Whether a literal is over a net below this one.
fn is_below(net: usize, literal: u16) -> bool
    ensures { result ≡ is_below net literal }
{
    (Literal::from(literal).variable() as usize) < net
}

// Whether the first line is the gate that is this net.
pub fn plain_gate(text: &[u8], net: usize) -> bool
    ensures { PlainGate text.now net result }
{
    let Some(gate) = gate_line(text) else {
        return false;
    };
    is_below(net, gate.x) && is_below(net, gate.y)
}

// Whether the first line is an output of a list with so many nets.
pub fn plain_output(text: &[u8], nets: usize) -> bool
    ensures { PlainOutput text.now nets result }
{
    let Some(literal) = output_line(text) else {
        return false;
    };
    is_below(nets, literal)
}

// How many of so many rows stand one behind the other, each with so many bytes: whether row i stands is asked of what is left there.
pub fn rows<F: Fn(&[u8], usize) -> bool>(
    text: &[u8],
    bytes: usize,
    count: usize,
    stands: F,
) -> usize
    requires asks { (s : _) (i : ℕ) → i < count → F.pre stands s i }
    requires long { (s : _) (i : ℕ) → i < count → F.post stands s i true → bytes ≤ length s.now }
    ensures { Rows (F.post stands) bytes text.now count result }
{
    let mut rest = text;
    for i in 0..count {
        if !stands(rest, i) {
            return i;
        }
        rest = &rest[bytes..];
    }
    count
}
