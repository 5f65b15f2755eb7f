// Chains of runs in lent work memory: the next match along them, and what a match does to them.
//
// Each marker and container has a chain of the runs that can still open, the latest first; a closer looks only down its own. The open runs of
// all chains together also stand on a stack, so that a match takes the runs between off their chains without a walk over the runs: each is put
// on once and taken off once.
//
// What is promised here is what is read and written. That this is the plain rule is shown one crate higher.

#![tactic(auto)]

pub mod walk; // the next match
pub mod taking; // what a match does
