// The miter of two lists (document 01, 'The miter's clauses'), one variable at a time from the text of both: its gates, their definitions, and
// the clauses that a store holds before the first step.
#![tactic(auto)]

pub mod begin; // the miter's clauses in the store
pub mod both; // the gates and outputs of both lists
pub mod clauses; // the numbers of the miter's clauses
mod variables; // the variables of the miter and their definitions
