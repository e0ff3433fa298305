// Definitions and laws of sums, choices and tables of tests: all of it is in specs/ and proofs/.
#![tactic(auto)]
