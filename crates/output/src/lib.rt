// What is true of the events that come out of attention: statements and proofs, no code.
#![tactic(auto)]
