// One line as it is lent: the check that every line reader begins with, and the runs of bytes that they count.

#![tactic(auto)]

pub mod run; // leading spaces and tabs, digits, and other runs of bytes
pub mod columns; // spaces and tabs counted in columns, up to a maximum
pub mod line; // numbers 2, 3 and 4, and where the line ends
