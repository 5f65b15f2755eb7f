// Lines with tabs, and without: what is true of the four line readers. All of it stands in specs/ and proofs/; there is no code.
#![tactic(auto)]
