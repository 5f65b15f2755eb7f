// The groups of the plain rule, over any rule of eligibility: what is true of them. All of it stands in specs/ and proofs/; there is no code.
#![tactic(auto)]
