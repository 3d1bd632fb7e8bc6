// The lines of one gate, for the engine's second pass. Each function emits the lines of a derivation, and its contract names the derivation,
// for every table and all clause numbers that the working numbers stand for.
#![tactic(auto)]

pub mod ands; // an AND gate
pub mod gates; // a gate and the numbers of its clauses, before and behind its lines
pub mod lines; // one line
pub mod nets; // what is known of the nets
pub mod subst; // representatives put for literals
pub mod xors; // an XOR gate
