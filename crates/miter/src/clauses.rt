// The numbers of the miter's clauses, which count from 1 (document 01, 'The miter's clauses'): where each part begins, the last, and the first
// behind the miter.
ghost use Rattle.std.specs.Prelude.{◌≡◌, ◌+◌, ◌≤◌};
ghost use Rattle.model.specs.Miter.{clause_count, first_z_clause};
ghost use Rattle.frame.specs.Frames.{op_of};
ghost use Rattle.miter.specs.Miters.{numbers_of, Numbered};

use crate::both::op_of;
use frame::Op;
use netlist::pair::{Pair, Parts};
use steps::gates::clause_count;

// The first left gate's first clause, behind 'not variable 0'.
pub const FIRST_GATE_CLAUSE: u16 = 2;

// Where the parts behind the gates begin.
#[derive(Clone, Copy, PartialEq, Eq)]
pub struct ClauseNumbers {
    pub first_z: u16,
    pub first_w: u16,
    pub last: u16,
    pub behind: u16, // the first step's
}

// The number behind a gate's clauses, which begin with number k.
pub fn behind(k: u16, op: Op) -> u16
    requires { k ≤ 60000 }
    ensures { result ≡ k + clause_count (op_of op) }
{
    k + clause_count(op) as u16
}

// The first z's first clause, behind those of the gates of both lists.
pub fn first_z_clause(pair: &Pair<'_>) -> u16
    ensures few { result ≤ 8194 }
    ensures number { result ≡ first_z_clause pair.now.left pair.now.right }
{
    let parts = pair.parts();
    let mut next = FIRST_GATE_CLAUSE;
    for i in 0..parts.left + parts.right {
        next = behind(next, op_of(pair, i));
    }
    next
}

// All of them, where those of the z begin with number z: each z is an XOR, and each w an OR.
pub fn numbers_from(parts: Parts, z: u16) -> ClauseNumbers
    requires { z ≤ 60000 }
    ensures { result ≡ numbers_of parts.outputs z }
{
    let outputs = parts.outputs as u16;
    let first_w = z + 4 * outputs;
    let last = first_w + 3 * (outputs - 1);
    ClauseNumbers {
        first_z: z,
        first_w,
        last,
        behind: last + 1,
    }
}

// Those of two lists.
pub fn clause_numbers(pair: &Pair<'_>) -> ClauseNumbers
    ensures { Numbered result pair.now.left pair.now.right }
{
    numbers_from(pair.parts(), first_z_clause(pair))
}
