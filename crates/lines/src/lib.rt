// Three line readers, which write nothing: space-or-tab, list item start, continuation. The fourth, which writes, is the crate `atx`.
//
// Each looks at one line as it is lent. All of them begin with the same check of it and read its spaces and tabs by the same scan: the crate `scan`.

#![tactic(auto)]

pub mod container; // what is kept of an open list item
pub mod spaces; // space-or-tab
pub mod item; // list item start
pub mod going; // continuation
