// Records by cases: specs/Tested has the list, and proofs/Tested the theorem over it.
#![tactic(auto)]
