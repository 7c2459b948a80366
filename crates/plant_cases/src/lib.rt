// The calls on plants with other counts by cases: specs/Plants has the list, and proofs/Plants the theorem over it.
#![tactic(auto)]
