// The three demands as theorems, with those of the change requests, one result only for each call, and the documents' figures: all of it is in specs/ and proofs/.
#![tactic(auto)]
