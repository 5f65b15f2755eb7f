// The record: its limits and names, the check that every call begins with, and the reading and writing of its parts.
//
// Upper crates go by the promises made here and by the laws in proofs/; they see no body. Good, Soundness, Pairs and Parts say what a good
// record is, Splice and Sections how writes come together, Exactly and ExactlyWritten which refusal is given when.

#![tactic(auto)]

pub mod limits; // limits, kinds, names, options
pub mod bytes; // numbers of four bytes, wiping
pub mod blocks; // bytes of one kind, passed in blocks
pub mod form; // the forms of a record
pub mod event; // one event read, one event written
pub mod listed; // events, gone over as a list
pub mod stack; // the open events
pub mod check; // numbers 1 to 5, refusals
pub mod call; // the public call `read`
