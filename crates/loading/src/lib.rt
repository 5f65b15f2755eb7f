// The load pass: the runs of a good record, put into the slots of lent work memory, or the first run whose shape is broken.
//
// It is the one pass of a resolver that looks at the document's bytes. What it leaves in the memory is all that a matcher may read.

#![tactic(auto)]

pub mod shape; // number 6: the shape of a run
pub mod slot; // what one slot holds, written
pub mod pass; // the pass over the events
