// Test 20 on the arrays of a monitor's record, and that it is the rules': definitions and laws.
#![tactic(auto)]
