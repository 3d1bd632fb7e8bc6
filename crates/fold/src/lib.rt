// The engine's first pass: the table of the nets of both lists (see `fold_laws`), and the first output whose representatives differ.
#![tactic(auto)]

mod entry; // a gate's entry
mod operands; // what two representatives fold to
pub mod pass; // the whole table, and the outputs
