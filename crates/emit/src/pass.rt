// All gates of both lists, one after the other, and then the outputs.
ghost use Rattle.std.specs.Prelude.{◌≡◌, true, List, [], ℕ, ◌+◌, ◌*◌, ◌<◌, ◌≤◌, length};
ghost use Rattle.model.specs.Limits.{lines_per_gate, lines_per_output, proof_line_bytes, numbers_per_net, highest_variable};
ghost use Rattle.model.specs.Nets.{reads_below};
ghost use Rattle.model.specs.Answers.{filled};
ghost use Rattle.laws.specs.Pairs.{is_xor};
ghost use Rattle.frame.specs.Frames.{op_of};
ghost use Rattle.fold_laws.specs.Table.{Entry};
ghost use Rattle.fold_laws.specs.Engine.{both_table};
ghost use Rattle.emit_laws.specs.Loop.{slots};
ghost use Rattle.emit_laws.specs.Emit.{start_links};
ghost use Rattle.listing.specs.Gates.{gate_meant};
ghost use Rattle.table.specs.Rows.{HoldsTable};
ghost use Rattle.table.specs.Links.{link_width};
ghost use Rattle.derivation.specs.Emission.{Written, Room, Few, Numbers};
ghost use Rattle.derivation.specs.Known.{Known, OfGate};
ghost use Rattle.emit.specs.Pass.{EmitsGate, GateDone, AllDone, lines_of, normal_odd, normal_trees};

use crate::begin::start_links;
use crate::normal::normal;
use crate::outputs::outputs;
use derivation::ands::and_gate;
use derivation::gates::{DefinedGate, DerivedGate};
use derivation::lines::Proof;
use derivation::nets::Nets;
use derivation::xors::xor_gate;
use frame::{Gate, Op};
use literal::Literal;
use miter::both::gate_of;
use miter::clauses::{FIRST_GATE_CLAUSE, behind, clause_numbers};
use netlist::pair::Pair;
use table::links::{LINKS, keep};
use table::rows::ROW;

// The numbers as they are kept: two links that were made for an odd literal and its complement change places.
fn kept_numbers(gate: DerivedGate, turned: bool) -> [u16; LINKS]
    ensures { (ns : List ℕ) → Numbers gate ns → result ≡ filled link_width (slots turned ns) }
{
    match gate {
        DerivedGate::Linked(a, b) if turned => [b, a, 0, 0],
        DerivedGate::Linked(a, b) => [a, b, 0, 0],
        DerivedGate::Own(numbers) => numbers,
    }
}

// The lines of a gate, from its clauses, and the numbers to be kept of it.
fn gate_lines(nets: Nets, proof: &mut Proof, op: Op, d: DefinedGate) -> [u16; LINKS]
    requires { Room proof.old lines_per_gate }
    ensures few { Few proof.old lines_per_gate proof.new }
    ensures emits { OfGate nets.entry d (λ t links.
        EmitsGate proof.old proof.new result (normal_odd t (is_xor (op_of op)) d) (normal_trees t links (is_xor (op_of op)) d)) }
{
    // one match for both, since closures would only give the arms names
    match op {
        Op::And => {
            let normal = normal::<false>(nets.table, d);
            kept_numbers(and_gate(nets, proof, normal), normal.n.sign())
        }
        Op::Xor => {
            let normal = normal::<true>(nets.table, d);
            kept_numbers(xor_gate(nets, proof, normal), normal.n.sign())
        }
    }
}

// Gate v, whose clauses begin with number k; the number with which those of the next gate begin.
fn one_gate(
    table: &[u16],
    links: &mut [u16],
    proof: &mut Proof,
    k: u16,
    v: usize,
    gate: Gate,
) -> u16
    requires { Room proof.old lines_per_gate × (link_width * v + link_width ≤ length links.old) × (v ≤ highest_variable) × (k ≤ 60000) }
    ensures few { Few proof.old lines_per_gate proof.new × (result ≤ k + 4) }
    ensures done { (t : List Entry) (kept : List (List ℕ)) → Known table.now links.old t kept
        → length kept ≡ v → v < length t → reads_below v (gate_meant gate) ≡ true
        → GateDone proof.old proof.new table.now links.new t kept k result v (gate_meant gate) }
{
    let op = gate.op;
    let d = DefinedGate {
        n: Literal::positive(v as u16),
        x: Literal::from(gate.x),
        y: Literal::from(gate.y),
        a: k,
        b: k + 1,
        c: k + 2,
        d: k + 3,
    };
    let numbers = gate_lines(Nets { table, links }, proof, op, d);
    keep(links, v, numbers);
    behind(k, op)
}

// The gates of both lists.
fn gates(pair: &Pair<'_>, table: &[u16], links: &mut [u16], proof: &mut Proof)
    requires { Room proof.old (lines_per_gate * (length pair.now.left.gates + length pair.now.right.gates))
        × (link_width * (1 + pair.now.left.inputs + length pair.now.left.gates + length pair.now.right.gates) ≤ length links.old) }
    ensures few { Few proof.old (lines_per_gate * (length pair.now.left.gates + length pair.now.right.gates)) proof.new }
    ensures done { (t : List Entry) → Known table.now links.old t (start_links pair.now.left.inputs)
        → length t ≡ 1 + pair.now.left.inputs + length pair.now.left.gates + length pair.now.right.gates → AllDone proof.old proof.new table.now links.new t pair.now.left pair.now.right }
{
    let parts = pair.parts();
    let first = parts.first_gate();
    let mut k = FIRST_GATE_CLAUSE;
    for i in 0..parts.left + parts.right {
        let gate = gate_of(pair, i);
        k = one_gate(table, links, proof, k, first + i, gate);
    }
}

// The lines of a proof for both lists, from the table of the first pass; their number.
pub fn emit(pair: &Pair<'_>, work: &mut [u16], proof: &mut [u8]) -> usize
    requires { (proof_line_bytes * (lines_per_gate * (length pair.now.left.gates + length pair.now.right.gates) + lines_per_output * length pair.now.left.outs) ≤ length proof.old)
        × (numbers_per_net * (1 + pair.now.left.inputs + length pair.now.left.gates + length pair.now.right.gates) ≤ length work.old) }
    ensures { HoldsTable work.old (both_table pair.now.left pair.now.right) → Written proof.old []
        → Written proof.new (lines_of pair.now.left pair.now.right) × (result ≡ length (lines_of pair.now.left pair.now.right)) }
{
    let parts = pair.parts();
    let numbers = clause_numbers(pair);
    let (table, links) = work.split_at_mut(ROW * parts.nets());
    start_links(links, parts.inputs);
    let mut written = Proof {
        bytes: proof,
        lines: 0,
        clauses: numbers.behind - 1,
    };
    gates(pair, table, links, &mut written);
    outputs(pair, Nets { table, links }, &mut written, numbers);
    written.lines
}
