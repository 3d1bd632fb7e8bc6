// The values of nets, a byte of 0 or 1 each in a lent slice: net 0 and the inputs, then what each gate makes of those before it. Nothing here
// reads or refuses a list.
#![tactic(auto)]

ghost use Rattle.std.specs.Prelude.{◌≡◌, ℕ, ◌+◌, ◌≤◌, ◌<◌, Bool, List, length};
ghost use Rattle.model.specs.Nets.{net_of, bit, apply, literal, start, nets, eval};
ghost use Rattle.frame.specs.Frames.{op_of};
ghost use Rattle.values.specs.Values.{HoldsValues};

use frame::Op;
use listing::GateList;
use literal::Literal;

// AND or XOR of two values.
pub fn gate_value(op: Op, a: u8, b: u8) -> u8
    ensures { (x y : Bool) → a ≡ bit x → b ≡ bit y → result ≡ bit (apply (op_of op) x y) }
{
    // one match for both, since closures would only give the arms names
    match op {
        Op::And => a & b,
        Op::Xor => a ^ b,
    }
}

// The value of a literal: XOR of its net's value and its sign. A byte that holds no value counts by its lowest bit.
pub fn literal_at(values: &[u8], l: Literal) -> u8
    ensures small { result ≤ 1 }
    ensures value { (vs : List Bool) → HoldsValues values.now vs → net_of l.code < length vs → result ≡ bit (literal vs l.code) }
{
    let net = l.variable() as usize;
    let sign = l.sign() as u8;
    if values.len() <= net {
        return 0;
    }
    (values[net] ^ sign) % 2
}

// Net 0 and the inputs, from the lowest bits of the pattern.
pub fn set_inputs(values: &mut [u8], inputs: usize, pattern: u64)
    requires { 1 + inputs ≤ length values.old }
    ensures { HoldsValues values.new (start inputs pattern) }
{
    values[0] = 0;
    let mut rest = pattern;
    for k in 0..inputs {
        values[1 + k] = (rest % 2) as u8;
        rest /= 2;
    }
}

// The gates in order, behind net 0 and the inputs.
pub fn run_gates(list: &GateList<'_>, values: &mut [u8])
    requires { 1 + list.now.inputs + length list.now.gates ≤ length values.old }
    ensures { (p : ℕ) → HoldsValues values.old (start list.now.inputs p) → HoldsValues values.new (nets list.now p) }
{
    let counts = list.counts();
    let first = 1 + counts.inputs;
    for k in 0..counts.gates {
        let gate = list.gate(k);
        let a = literal_at(values, Literal::from(gate.x));
        let b = literal_at(values, Literal::from(gate.y));
        values[first + k] = gate_value(gate.op, a, b);
    }
}

// The word of the outputs: bit k-1 is output k.
pub fn read_word(list: &GateList<'_>, values: &[u8]) -> u64
    ensures { (p : ℕ) → HoldsValues values.now (nets list.now p) → result ≡ eval list.now p }
{
    let mut word: u64 = 0;
    for k in (0..list.counts().outputs).rev() {
        let bit = literal_at(values, Literal::from(list.output(k)));
        word = 2 * word + (bit as u64);
    }
    word
}
