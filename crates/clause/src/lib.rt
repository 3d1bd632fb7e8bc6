// Clauses by value (document 01, 'The miter's clauses' and 'Steps'). Clauses are sets of literals: the literals of a clause rise, and equal ones
// stand once.
#![tactic(auto)]

pub mod gates; // the clauses that define an AND gate and an XOR gate
pub mod resolution; // one resolution step on two clauses of the store
pub mod store; // clauses put into the store

ghost use Rattle.std.specs.Prelude.{◌≡◌, ◌<◌, ◌≤◌, length};
ghost use Rattle.model.specs.Limits.{clause_width};
ghost use Rattle.model.specs.Clauses.{clause_of, holds, insert, is_empty};
ghost use Rattle.clause.specs.Sets.{Ascending, codes};

use literal::Literal;
use std::marker::Model;

// The literals in use are the first `len`; behind them stands Literal::BOUND. An array and its length, since a `Vec` would be on the heap (document 01
// has fixed memory).
#[derive(Clone, Copy)]
pub struct Clause {
    literals: [u16; Clause::WIDTH],
    len: usize,
}

// Contracts see the literals in use.
impl Model for Clause {
    ghost use Rattle.std.specs.Prelude.{ℕ, List, length, take};
    ghost use Rattle.model.specs.Limits.{clause_width};
    ghost use Rattle.clause.specs.Places.{filled, Whole, same_literals, same_length};

    ghost Value = { List ℕ };

    ghost view = { λ c. take c.len c.literals };

    ghost invariant = { λ c. Whole c.literals c.len };

    ghost inverse = { λ l. record { literals = filled clause_width l; len = length l } };

    ghost inverse_ok = { λ c h i. record {
      literals = same_literals c.literals c.len h i;
      len = same_length c.literals c.len h i;
    } };
}

impl Clause {
    // The most literals of a clause, and the numbers that it takes in the store.
    pub const WIDTH: usize = 8;

    // The most clauses of a store.
    pub const MOST: usize = 65535;

    // The clause of literals in any order.
    pub fn of<const N: usize>(literals: [Literal; N]) -> Clause
        requires { N ≤ clause_width }
        ensures { result ≡ clause_of (codes literals.entry) }
    {
        let mut clause = Clause {
            literals: [Literal::BOUND; Clause::WIDTH],
            len: 0,
        };
        for l in literals {
            clause.insert(l.code);
        }
        clause
    }

    pub fn len(self) -> usize
        ensures { result ≡ length self }
    {
        let Clause { len, .. } = self;
        len
    }

    // The literals in use.
    pub fn literals(&self) -> &[u16]
        ensures { result.now ≡ self.now }
    {
        &self.literals[..self.len]
    }

    pub fn is_empty(self) -> bool
        ensures { result ≡ is_empty self }
    {
        self.len == 0
    }

    // Whether a literal is among those in use. All places are looked at, so that no branch depends on where it stands.
    fn holds(self, l: u16) -> bool
        ensures { result ≡ holds l self }
    {
        let mut met = false;
        for i in 0..Clause::WIDTH {
            met |= i < self.len && self.literals[i] == l;
        }
        met
    }

    // One literal more, if it is not there. Each place takes the lower of its own and the one that is carried along, and behind the last literal the
    // bound is carried on: no branch depends on which is lower, or on how many there are.
    fn insert(&mut self, l: u16)
        requires room { length self.old < clause_width }
        requires ascending { Ascending self.old }
        ensures { self.new ≡ insert l self.old }
    {
        if self.holds(l) {
            return;
        }
        let mut carried = l;
        for i in 0..Clause::WIDTH {
            let x = self.literals[i];
            self.literals[i] = x.min(carried);
            carried = x.max(carried);
        }
        self.len += 1;
    }
}
