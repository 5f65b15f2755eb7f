// The resolver of attention: numbers 1 to 8, or the result's events as a section.
//
// The load pass judges the shape of runs and puts them into slots of work memory; the matcher finds the groups along chains; the writer goes
// once over the events. This crate brings them together, and gives them their public call.

#![tactic(auto)]

pub mod start; // the heads of the chains cleared
pub mod result; // how many events come out, and the section written
pub mod call; // the public call
