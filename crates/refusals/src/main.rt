// Tries the calls on a record at every boundary of document 01's table of refusals, and on a smallest record for each number
// (`docs/REFUSALS.md` works these out), by the script on standard input (`crates/trial/src/lib.rt` says how it reads). Then the same for records of
// form 2: its first section, each byte of an event, and partners that are untrue.
//
// What is expected is written from that table, and from what request 5 adds to it.

#![tactic(auto)]

use std::io;

// All that is tried stands in the script.
fn main(rt: HostRuntime) -> io::Result<()> {
    trial::run(&rt)
}
