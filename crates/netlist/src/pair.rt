// Two lists that can be compared, and the variables of their miter (document 01, 'The miter's clauses'): 0 and the inputs, then part by part.
ghost use Rattle.std.specs.Prelude.{◌≡◌, ◌+◌, ◌-◌, ◌*◌, ◌≤◌, length};
ghost use Rattle.model.specs.Limits.{most_inputs, most_gates, most_outputs};
ghost use Rattle.laws.specs.Pairs as pairs;

use listing::GateList;
use std::marker::Model;

// How many inputs and outputs two lists share, and how many gates each has: as many as a header may state, so that sums of these are small.
#[derive(Clone, Copy)]
pub struct Parts {
    pub inputs: usize,
    pub left: usize,
    pub right: usize,
    pub outputs: usize,
    ghost few_inputs: { inputs ≤ most_inputs },
    ghost few_left: { left ≤ most_gates },
    ghost few_right: { right ≤ most_gates },
    ghost some: { 1 ≤ outputs },
    ghost few_outputs: { outputs ≤ most_outputs },
}

impl Parts {
    // The first left gate's variable.
    pub fn first_gate(self) -> usize
        ensures { result ≡ 1 + self.inputs }
    {
        1 + self.inputs
    }

    // The first right gate's.
    pub fn first_right(self) -> usize
        ensures { result ≡ 1 + self.inputs + self.left }
    {
        self.first_gate() + self.left
    }

    // The first z's.
    pub fn first_z(self) -> usize
        ensures { result ≡ 1 + self.inputs + self.left + self.right }
    {
        self.first_right() + self.right
    }

    // How many nets both lists have, net 0 and the inputs counted once: as many variables lie before the first z.
    pub fn nets(self) -> usize
        ensures { result ≡ 1 + self.inputs + self.left + self.right }
    {
        self.first_z()
    }

    // The first w's.
    pub fn first_w(self) -> usize
        ensures { result ≡ 1 + self.inputs + self.left + self.right + self.outputs }
    {
        self.first_z() + self.outputs
    }

    // How many variables there are, 0 counted: the first that is not in use.
    pub fn variables(self) -> usize
        ensures { result ≡ 1 + self.inputs + self.left + self.right + self.outputs + (self.outputs - 1) }
    {
        self.first_w() + (self.outputs - 1)
    }
}

// Contracts see both lists of the definitions.
#[derive(Clone, Drop)]
pub struct Pair<'a> {
    pub left: GateList<'a>,
    pub right: GateList<'a>,
}

impl<'a> Model for Pair<'a> {
    ghost use Rattle.model.specs.Lists.{Lists};

    ghost Value = { Lists };

    ghost use Rattle.netlist.specs.Pairs.{lists_of, Alike};

    ghost view = { lists_of };

    ghost invariant = { Alike };
}

impl<'a> Pair<'a> {
    ghost use Rattle.netlist.specs.Counts.{CountsOf};

    pub fn parts(&self) -> Parts
        ensures counts { CountsOf result self.now.left self.now.right }
        ensures alike { pairs.Pair self.now.left self.now.right }
    {
        let left = self.left.counts();
        Parts {
            inputs: left.inputs,
            left: left.gates,
            right: self.right.counts().gates,
            outputs: left.outputs,
        }
    }
}
