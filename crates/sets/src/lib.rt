// Facts about tests and about clauses as sets of literals, in specs/: what `samples` and the laws both start from. No code.
#![tactic(auto)]
