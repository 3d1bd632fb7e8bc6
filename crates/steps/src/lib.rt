// One step of a proof (document 01, 'Steps') over the clause store, and the clauses of a gate put into it. The store holds the clauses from its
// start, Clause::WIDTH numbers each; the rest of it is of no account here. No work on a step depends on the size of the store.
#![tactic(auto)]

pub mod gates; // a gate's clauses, put into the store

ghost use Rattle.std.specs.Prelude.{◌≡◌, ℕ, ◌+◌, ◌*◌, ◌<◌, ◌≤◌, [], ◌∷◌, ◌++◌, ◌&&◌, leb, ltb, length, get_or, OnErr};
ghost use Rattle.model.specs.Limits.{clause_width, most_clauses, highest_variable};
ghost use Rattle.clause.specs.Sets.{Rising, resolve_of, answer_of};
ghost use Rattle.steps.specs.Kept.{extension, Kept, Kept_prop, replied, refused_at};
ghost use Rattle.steps.specs.Gates.{clauses_for, Low};

use clause::Clause;
use clause::resolution::{Unresolved, resolve};
use clause::store::save;
use frame::Op;
use gates::{Definition, clause_count, push_gate};
use literal::Literal;
use refusal::{Reason, Refusal};

// The clauses of a proof in a lent store, for how many there is room, and how far the proof is: the next unused variable, steps done, and whether
// the last was a resolve with the empty clause. Contracts see the definitions' state of it by `state_of`. It has no `impl Model`: behind a model's
// value a caller does not know any more that the store is the one it lent, and the checker says what that holds. What a `&mut` leaves as it was each
// method says by itself (`SamePlace`), since a fact of the struct speaks of one moment.
#[derive(Drop)]
pub struct Proof<'a> {
    pub store: &'a mut [u16],
    pub room: usize,
    pub clauses: usize,
    pub steps: usize,
    pub next: u16,
    pub empty: bool,
    pub ghost kept: { Kept store.now room clauses steps next } by { Kept_prop store.now room clauses steps next },
}

// Not 0, and not past the last.
fn is_clause(clauses: usize, k: usize) -> bool
    ensures { result ≡ ltb 0 k && leb k clauses }
{
    k != 0 && k <= clauses
}

impl<'a> Proof<'a> {
    ghost use Rattle.model.specs.Steps as steps;
    ghost use Rattle.steps.specs.Proofs.{state_of, nothing, SamePlace};

    // No clause yet, and room for so many.
    pub fn new(store: &'a mut [u16], room: usize) -> Proof<'a>
        requires { (clause_width * room ≤ length store.old) × (room ≤ most_clauses) }
        ensures state { state_of result ≡ nothing }
        ensures place { (result.store.ghost_name ≡ store.entry.ghost_name) × (result.room ≡ room) }
    {
        Proof {
            store,
            room,
            clauses: 0,
            steps: 0,
            next: 0,
            empty: false,
        }
    }

    // A clause behind those that are there.
    pub fn push(&mut self, clause: Clause)
        requires { (self.old.clauses < self.old.room) × Rising clause }
        ensures state { state_of self.new ≡ record (state_of self.old) { clauses = (state_of self.old).clauses ++ (clause ∷ []) } }
        ensures place { SamePlace self.old self.new }
    {
        save(self.store, self.clauses, clause);
        self.clauses += 1;
    }

    // A gate's clauses behind those that are there.
    pub fn define(&mut self, d: Definition)
        requires room { self.old.clauses + length (clauses_for d) ≤ self.old.room }
        requires low { Low d }
        ensures state { state_of self.new ≡ record (state_of self.old) { clauses = (state_of self.old).clauses ++ clauses_for d } }
        ensures place { SamePlace self.old self.new }
    {
        self.clauses = push_gate(self.store, self.clauses, d);
    }

    // Variables below this number are in use.
    pub fn use_variables(&mut self, next: u16)
        requires { next ≤ highest_variable + 1 }
        ensures state { state_of self.new ≡ record (state_of self.old) { next = next } }
        ensures place { SamePlace self.old self.new }
    {
        self.next = next;
    }

    // Extend: the next unused variable becomes AND or XOR of two literals over variables in use.
    pub fn extend(&mut self, line: usize, op: Op, x: u16, y: u16) -> Result<(), Refusal>
        ensures step { replied result (state_of self.new) ≡ steps.step self.old.room line (state_of self.old) (extension op x y) }
        ensures stays { OnErr result (state_of self.new ≡ state_of self.old) }
        ensures place { SamePlace self.old self.new }
    {
        let left = Literal::from(x);
        let right = Literal::from(y);
        if self.next <= left.variable() {
            return Err(Reason::Operand.at(line));
        }
        if self.next <= right.variable() {
            return Err(Reason::Operand.at(line));
        }
        if Literal::HIGHEST_VARIABLE < self.next {
            return Err(Reason::Variable.at(line));
        }
        if self.room < self.clauses + clause_count(op) {
            return Err(Reason::Store.at(line));
        }
        self.define(Definition {
            op,
            n: Literal::positive(self.next),
            x: left,
            y: right,
        });
        self.next += 1;
        self.steps += 1;
        self.empty = false;
        Ok(())
    }

    // Two clauses, whose numbers are from 0, resolved on v.
    fn resolve_at(&self, a: usize, b: usize, v: u16) -> Result<Clause, Unresolved>
        requires { (a < self.now.clauses) × (b < self.now.clauses) }
        ensures { (line : ℕ) → answer_of result line ≡ resolve_of v (get_or (state_of self.now).clauses a []) (get_or (state_of self.now).clauses b []) line }
    {
        let first = Clause::WIDTH * a;
        let second = Clause::WIDTH * b;
        resolve(
            &self.store[first..first + Clause::WIDTH],
            &self.store[second..second + Clause::WIDTH],
            v,
        )
    }

    // The resolvent on v of two clauses, whose numbers are from 1, becomes the next clause; or the reason why not.
    fn add_resolvent(&mut self, a: usize, b: usize, v: u16) -> Result<(), Reason>
        ensures step { (line : ℕ) → refused_at line result (state_of self.new) ≡ steps.step self.old.room line (state_of self.old) (steps.Step.resolve a b v) }
        ensures stays { OnErr result (state_of self.new ≡ state_of self.old) }
        ensures place { SamePlace self.old self.new }
    {
        if !is_clause(self.clauses, a) {
            return Err(Reason::Clause);
        }
        if !is_clause(self.clauses, b) {
            return Err(Reason::Clause);
        }
        let resolvent = self.resolve_at(a - 1, b - 1, v)?;
        if self.clauses == self.room {
            return Err(Reason::Store);
        }
        self.push(resolvent);
        self.steps += 1;
        self.empty = resolvent.is_empty();
        Ok(())
    }

    // Resolve on v: the first clause holds v, the second ¬v. The numbers of clauses are from 1; they are no `frame::Resolve`, whose fields of 16
    // bits would ask more of a caller.
    pub fn resolve(&mut self, line: usize, a: usize, b: usize, v: u16) -> Result<(), Refusal>
        ensures step { replied result (state_of self.new) ≡ steps.step self.old.room line (state_of self.old) (steps.Step.resolve a b v) }
        ensures stays { OnErr result (state_of self.new ≡ state_of self.old) }
        ensures place { SamePlace self.old self.new }
    {
        self.add_resolvent(a, b, v)
            .map_err(|reason| reason.at(line))
    }
}
