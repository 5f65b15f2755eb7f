// The definitions over the work memory, run on whole memories: cases that compute, no code. They stand apart from the crates of the
// definitions since a memory of 38,726 bytes takes seconds to compute with, and those crates are checked once for each edit that must fail.

#![tactic(auto)]
