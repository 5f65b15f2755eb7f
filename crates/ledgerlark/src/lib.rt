// The public calls as C sees them, and nothing else. `ledgerlark_c` exports them.
//
// An answer is a struct by value whose fields are document 01's numbers. Each call passes on the promise of the crate below.

#![tactic(auto)]

pub mod line; // the calls on a line
pub mod resolve; // the calls on a record
