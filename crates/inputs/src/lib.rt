// What a case is, and the plant files that the cases go through: definitions alone.
#![tactic(auto)]
