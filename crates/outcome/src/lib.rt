// What a batch call returns and writes: definitions and laws.
#![tactic(auto)]
