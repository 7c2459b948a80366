// Plant files by cases: specs/Files has the list, and proofs/Files the theorem over it.
#![tactic(auto)]
