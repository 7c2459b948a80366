// The list of the rights held, which rights it has and in what order, and its bytes: definitions and laws.
#![tactic(auto)]
