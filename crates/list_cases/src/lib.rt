// Queues, batches and what is printed by cases: specs/Lists has the list, and proofs/Lists the theorem over it.
#![tactic(auto)]
