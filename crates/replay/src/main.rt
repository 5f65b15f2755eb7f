// Makes our calls on a stored list of the crate's own answers, and says whether they agree.
//
// The list is the file `answers`, in the form that `entry` describes; `oracle/run --store` writes it, and asks the crate alone. It is read
// entry by entry, so that its length does not matter. The first difference is said in full and the others are counted. A list that is
// missing, empty, cut or otherwise ill-formed is said to be so, and then nothing is said to agree. What the program writes is its result, and is held
// to the file `stdout`: its exit status says no more than whether it could read the list on and write.

#![tactic(auto)]

mod call; // the seven calls, by number and name
mod entry; // one entry of the list: a question, and what the crate answers
mod ask; // our answer, in the numbers of the list
mod compare; // our answer against the crate's
mod tally; // how many entries there were, by call

use crate::compare::{Difference, ROOM, compare};
use crate::entry::{Entry, read_entry};
use crate::tally::Tally;
use std::fs::File;
use std::io;
use std::io::Read;

// A list is read up to so many entries; a longer one is refused. It is what shows that the reading ends.
const MOST: usize = 100000000;

// An entry on which we differ, counted from 1: what it asks, but none of the input's bytes, and both answers.
fn say_difference(
    rt: &impl Print,
    number: usize,
    entry: Entry,
    difference: Difference,
) -> io::Result<()> {
    println!(rt; "the first difference: entry {number}, {}", entry.question)?;
    println!(rt; "  the crate: {}", entry.told)?;
    println!(rt; "  ours: {difference}")
}

// Every entry, and at the end the result.
fn replay(rt: &impl Print, list: &mut impl Read) -> io::Result<()> {
    let mut input = [0u8; ROOM];
    let mut section = [0u8; ROOM];
    let mut tally = Tally::new();
    for before in 0..MOST {
        let entry = match read_entry(list, &mut input, &mut section) {
            Ok(Some(entry)) => entry,
            Ok(None) => return tally.say(rt, before),
            Err(error) => return println!(rt; "{error}, behind {before} entries"),
        };
        tally.count(entry.question.call);
        if let Err(difference) = compare(entry)
            && tally.count_difference()
        {
            say_difference(rt, before + 1, entry, difference)?;
        }
    }
    println!(rt; "the list of answers is too long")
}

// Opens the list and reads it through; one that cannot be opened is said to be so.
fn main(rt: HostRuntime) -> io::Result<()> {
    match File::open(&rt, "answers") {
        Ok(mut list) => replay(&rt, &mut list),
        Err(_) => println!(rt; "the list of answers cannot be opened"),
    }
}
