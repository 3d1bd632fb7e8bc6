// The engine's second pass: from the table of the first, the lines of a proof, those of each gate (see `derivation`) and then those of the
// outputs. The contracts name the derivations that the lines are, as those of `derivation` do.
#![tactic(auto)]

mod begin; // before the first gate
mod normal; // a gate in normal form
mod outputs; // the outputs, down to the empty clause
pub mod pass; // all gates, and then the outputs
