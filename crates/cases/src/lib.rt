// The paper's proved cases: specs/Cases has the one list of all cases, and proofs/Cases the one theorem over it.
#![tactic(auto)]
