// What a plant file says: the plant of its records, the number that refuses it, and the twelve rules in words. Definitions and laws alone.
#![tactic(auto)]
