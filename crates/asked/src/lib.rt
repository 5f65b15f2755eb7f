// What a user of the program `lark` asks: the arguments behind a command, and the text or the record that they stand for.

#![tactic(auto)]

pub mod args; // the arguments behind a command
pub mod given; // events that are given
pub mod input; // texts and records, from arguments, files and standard input
pub mod made; // the record of a text and of events
pub mod split; // a text made into events
