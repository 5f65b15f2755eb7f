// Our answer against the crate's: the numbers, every byte of the section, and what became of the lent memory.

use crate::ask::{
    ask_attention, ask_going, ask_heading, ask_headings, ask_item, ask_lists, ask_spaces,
};
use crate::call::Call;
use crate::entry::{Answer, Entry, Question};
use record::check::Refusal;
use std::fmt;

// What output and work memory hold before a call. No section has it where it was not written, and zeroed memory does not have it.
const FILL: u8 = 0xa5;

// Room for the longest record, 32,776 bytes, and the longest section, 64,004; and what a work memory has to have.
pub const ROOM: usize = 65536;

// The first thing in which our answer is another than the crate's.
#[derive(Clone, Copy)]
pub enum Difference {
    // We refuse; no answer on the list is a refusal.
    Refused(Refusal),
    // We answer other numbers.
    Numbers(Answer),
    // A byte of the section is another.
    Byte { at: usize, crates: u8, ours: u8 },
    // The output is changed behind the section.
    Behind(usize),
    // The work memory is not zero.
    Work(usize),
}

impl From<Refusal> for Difference {
    fn from(refusal: Refusal) -> Difference {
        Difference::Refused(refusal)
    }
}

impl fmt::Display for Difference {
    fn fmt<W: fmt::Write>(&self, f: &mut fmt::Formatter<W>) -> fmt::Result {
        match self {
            Difference::Refused(refusal) => {
                write!(f, "refused {} at {}", refusal.number, refusal.place)
            }
            Difference::Numbers(ours) => write!(f, "{ours}"),
            Difference::Byte { at, crates, ours } => write!(
                f,
                "the same numbers, but at {at} of the section {ours} where the crate has {crates}"
            ),
            Difference::Behind(at) => {
                write!(f, "the output is changed behind the section, at {at}")
            }
            Difference::Work(at) => write!(f, "the work memory is not zero, at {at}"),
        }
    }
}

// Our numbers against the crate's.
fn compare_numbers(ours: Answer, told: Answer) -> Result<(), Difference> {
    if ours == told {
        Ok(())
    } else {
        Err(Difference::Numbers(ours))
    }
}

// The section, byte by byte, and the bytes behind it, which have to be as they were.
fn compare_output(out: &[u8], section: &[u8]) -> Result<(), Difference> {
    for (at, (ours, crates)) in out.iter().zip(section).enumerate() {
        if ours != crates {
            return Err(Difference::Byte {
                at,
                crates: *crates,
                ours: *ours,
            });
        }
    }
    if section.len() > out.len() {
        return Err(Difference::Behind(out.len()));
    }
    let kept = script::run_of(out, section.len(), FILL);
    if kept < out.len() {
        return Err(Difference::Behind(kept));
    }
    Ok(())
}

// All of the work memory, which has to be zero.
fn compare_work(work: &[u8]) -> Result<(), Difference> {
    match work.iter().position(|b| *b != 0) {
        Some(at) => Err(Difference::Work(at)),
        None => Ok(()),
    }
}

// The answer of a resolver: the numbers, the output and the work memory, both filled before the call.
fn compare_resolver<F>(entry: Entry, resolver: F) -> Result<(), Difference>
where
    F: Fn(Question, &[u8], &mut [u8], &mut [u8]) -> Result<Answer, Refusal>,
    requires { F.IsAlwaysCallable resolver }
{
    let mut out = [FILL; ROOM];
    let mut work = [FILL; ROOM];
    let ours = resolver(entry.question, entry.input, &mut out, &mut work)?;
    compare_numbers(ours, entry.told)?;
    compare_output(&out, entry.section)?;
    compare_work(&work)
}

// The answer of the heading reader, which has no work memory: the numbers and the output.
fn compare_heading(entry: Entry) -> Result<(), Difference> {
    let mut out = [FILL; ROOM];
    let ours = ask_heading(entry.question, entry.input, &mut out)?;
    compare_numbers(ours, entry.told)?;
    compare_output(&out, entry.section)
}

// The answer of a reader that writes nothing: the numbers.
fn compare_reader<F>(entry: Entry, reader: F) -> Result<(), Difference>
where
    F: Fn(Question, &[u8]) -> Result<Answer, Refusal>,
    requires { F.IsAlwaysCallable reader }
{
    compare_numbers(reader(entry.question, entry.input)?, entry.told)
}

// Our answer to the question of an entry, against the crate's.
pub fn compare(entry: Entry) -> Result<(), Difference> {
    match entry.question.call {
        Call::Attention => compare_resolver(entry, ask_attention),
        Call::Headings => compare_resolver(entry, ask_headings),
        Call::Lists => compare_resolver(entry, ask_lists),
        Call::SpaceOrTab => compare_reader(entry, ask_spaces),
        Call::ListItem => compare_reader(entry, ask_item),
        Call::Continuation => compare_reader(entry, ask_going),
        Call::Heading => compare_heading(entry),
    }
}
