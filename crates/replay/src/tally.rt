// How many entries there were of each call, and how many differ.

use crate::call::{CALLS, Call};
use std::io;

#[derive(Clone, Copy)]
pub struct Tally {
    of: [usize; CALLS.len()],
    differ: usize,
}

// No sum here can wrap: far fewer entries are read than a number can count. `main` has the bound.
impl Tally {
    // All counts at 0, before the first entry.
    pub fn new() -> Tally {
        Tally {
            of: [0; CALLS.len()],
            differ: 0,
        }
    }

    // One entry more of this call.
    pub fn count(&mut self, call: Call) {
        let n = &mut self.of[call as usize];
        *n = n.wrapping_add(1);
    }

    // One more that differs; whether it is the first.
    pub fn count_difference(&mut self) -> bool {
        let first = self.differ == 0;
        self.differ = self.differ.wrapping_add(1);
        first
    }

    // The result, after so many entries.
    pub fn say(&self, rt: &impl Print, entries: usize) -> io::Result<()> {
        if entries == 0 {
            return println!(rt; "the list of answers is empty");
        }
        print!(rt; "{entries} answers of the crate: ")?;
        match self.differ {
            0 => println!(rt; "all agree")?,
            n => println!(rt; "{n} DIFFER")?,
        }
        for (call, n) in CALLS.iter().zip(&self.of) {
            println!(rt; "  {call} {n}")?;
        }
        Ok(())
    }
}
