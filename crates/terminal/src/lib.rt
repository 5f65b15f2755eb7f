// What the program `lark` says on a terminal, and how it reads words: its own words and numbers, a user's bytes, events, and the groups they form.
//
// It stands below the crates `asked` and `causes`, and below the program, which has the commands.

#![tactic(auto)]

pub mod events; // a section of events, read and said
pub mod host; // the arguments and the streams
pub mod marker; // the bytes of runs
pub mod names; // the words for the names of events
pub mod notation; // an event in words
pub mod number; // numbers in decimal digits
pub mod quoted; // a user's bytes, where a terminal may show them
pub mod say; // words on standard output and standard error, and the statuses
pub mod style; // the styles of a text on a terminal
pub mod tree; // groups as an indented tree
pub mod words; // what stands between words
