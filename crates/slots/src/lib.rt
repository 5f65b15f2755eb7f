// Lent work memory: numbers of two bytes in it, and the one place that says where a resolver of attention keeps its runs, its chains, the
// runs that are open and the groups.
//
// The code of crates above goes by the names of `layout`, and writes no offset.

#![tactic(auto)]

pub mod words; // numbers of two bytes
pub mod layout; // what stands where
