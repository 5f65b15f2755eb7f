// The list resolver: list items that neighbour each other and have one mark get a list round them.
//
//     - a          +15 .. -15 +21 -21 +15 .. -15
//     - b      →   +20 +15 .. -15 +21 -21 +15 .. -15 -20
//
// A first pass over the events judges the shape of each item and notes, in one byte of work memory to an event, what is added there; a
// second writes, by a pen of `partners`. So no byte of the output is touched before the answer is known. Both passes go over a record of any form; the
// public call takes either of the two.

#![tactic(auto)]

pub mod item; // the shape of an item, and its mark
pub mod chain; // the neighbouring item, and the first pass
pub mod write; // the second pass
pub mod call; // the public call
