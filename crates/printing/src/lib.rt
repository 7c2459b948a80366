// What the program prints: definitions and laws.
#![tactic(auto)]
