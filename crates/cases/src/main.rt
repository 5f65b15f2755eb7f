// Tries the three resolvers on document 01's cases, by the script on standard input (`crates/trial/src/lib.rt` says how it reads).
//
// Of attention: the whole case and the table, both departures, every part of the shape rule, and the limits. Of headings: both departures, and
// each boundary of the shape rule, of the sizes and of the options. Of lists: lists as a reader makes them, all that may stand between two
// items and in one, every part of the shape rule, and the boundaries of sizes, options and depth. Then all three on records of form 2: the same
// cases with each event's partner, counted in the result; results deeper than 64, and the longest that there is; and the room that they need.
//
// What is expected is written from document 01, and for form 2 from request 5: the table's rows, and the rules for the rest. What the Rust crate
// answers is compared elsewhere, by `replay` and `oracle/run`.

#![tactic(auto)]

use std::io;

// All that is tried stands in the script.
fn main(rt: HostRuntime) -> io::Result<()> {
    trial::run(&rt)
}
