// The engine's working numbers: eight for each net, its row, behind all rows four for each net, the numbers of clauses, and behind those
// four for each net, buckets. Each contract speaks of every table, or of all clause numbers, that the working numbers stand for.
#![tactic(auto)]

pub mod buckets; // the search in the table by kind and key
pub mod links; // the numbers of clauses, for the second pass
pub mod rows; // the table of the first pass
