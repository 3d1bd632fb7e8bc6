// A gate list that stands in a text, with its gates and outputs each read at its own place: the lines of a list have fixed lengths. Contracts see
// the list of the definitions, so that nobody proves the reading again; nothing here reads a whole list or refuses one.
#![tactic(auto)]

ghost use Rattle.std.specs.Prelude.{◌≡◌, ◌<◌, length, get_or};
ghost use Rattle.laws.specs.ListText.{list_bytes};
ghost use Rattle.frame.specs.Frames.{op_of};
ghost use Rattle.listing.specs.Gates.{gate_meant, no_gate};
ghost use Rattle.listing.specs.Counts.{Counted};
ghost use Rattle.listing.specs.Listing.{list_in, Lists};

use frame::kinds::{GATE_BYTES, HEADER_BYTES, OUTPUT_BYTES};
use frame::rows::{gate_line, op_line, output_line};
use frame::{Gate, Op};
use std::marker::Model;

// What a header states.
#[derive(Clone, Copy, PartialEq, Eq)]
pub struct Counts {
    pub inputs: usize,
    pub gates: usize,
    pub outputs: usize,
}

// The lines from a list's header on, and what that states.
#[derive(Clone, Drop)]
pub struct GateList<'a> {
    lines: &'a [u8],
    counts: Counts,
}

impl<'a> Model for GateList<'a> {
    ghost use Rattle.model.specs.Nets.{Netlist};

    ghost Value = { Netlist };

    ghost use Rattle.listing.specs.Listing.{list_of, IsList};

    ghost view = { list_of };

    ghost invariant = { IsList };
}

impl<'a> GateList<'a> {
    // The list that lines begin with, where it was read.
    pub fn new(lines: &'a [u8], counts: Counts) -> GateList<'a>
        requires { Lists lines.now counts }
        ensures { result ≡ list_in lines.now }
    {
        GateList { lines, counts }
    }

    pub fn counts(&self) -> Counts
        ensures { Counted result self.now }
    {
        self.counts
    }

    // Its bytes, for its lines have fixed lengths.
    pub fn bytes(&self) -> usize
        ensures { result ≡ list_bytes self.now }
    {
        let counts = self.counts;
        HEADER_BYTES + GATE_BYTES * counts.gates + OUTPUT_BYTES * counts.outputs
    }

    // Gate k, from 0.
    pub fn gate(&self, k: usize) -> Gate
        requires { k < length self.now.gates }
        ensures { gate_meant result ≡ get_or self.now.gates k no_gate }
    {
        gate_line(&self.lines[HEADER_BYTES + GATE_BYTES * k..]).unwrap()
    }

    // The operation of gate k alone, which its kind tells: who counts clauses need not read the operands.
    pub fn op(&self, k: usize) -> Op
        requires { k < length self.now.gates }
        ensures { op_of result ≡ (get_or self.now.gates k no_gate).op }
    {
        op_line(&self.lines[HEADER_BYTES + GATE_BYTES * k..]).unwrap()
    }

    // The literal of output k, from 0.
    pub fn output(&self, k: usize) -> u16
        requires { k < length self.now.outs }
        ensures { result ≡ get_or self.now.outs k 0 }
    {
        let place = HEADER_BYTES + GATE_BYTES * self.counts.gates + OUTPUT_BYTES * k;
        output_line(&self.lines[place..]).unwrap()
    }
}
