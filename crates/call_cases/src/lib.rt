// The calls on the paper's plant by cases: specs/Calls has the list, and proofs/Calls the theorem over it.
#![tactic(auto)]
