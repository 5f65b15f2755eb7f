// The calls on a record as it is handed over, and what they answer.

use attention::call::{Resolved, resolve_attention};
use heading::resolve::resolve_headings;
use list::call::resolve_lists;
use record::call::read;
use record::check::{Counts, Refusal};
use record::form::Handed;
use std::fmt;

#[derive(Clone, Copy, PartialEq, Eq)]
pub enum Call {
    Read,
    Attention,
    Headings,
    Lists,
}

impl Call {
    // The call that a word names, which is told by its first letter.
    pub fn named(word: &[u8]) -> Option<Call> {
        match word {
            [b'r', ..] => Some(Call::Read),
            [b'a', ..] => Some(Call::Attention),
            [b'h', ..] => Some(Call::Headings),
            [b'l', ..] => Some(Call::Lists),
            _ => None,
        }
    }
}

// What a call answers that does not refuse.
#[derive(Clone, Copy)]
pub enum Answer {
    // The two counts of a good record.
    Good(Counts),
    // The events of a section that is written.
    Events(usize),
    // The same with attention's other two counts: the groups, and the candidates tried.
    Groups(Resolved),
}

impl Answer {
    // How many events the section has to have, if one is written.
    pub fn written(&self) -> Option<usize> {
        match *self {
            Answer::Good(_) => None,
            Answer::Events(events) => Some(events),
            Answer::Groups(made) => Some(made.events),
        }
    }
}

impl fmt::Display for Answer {
    fn fmt<W: fmt::Write>(&self, f: &mut fmt::Formatter<W>) -> fmt::Result {
        match self {
            Answer::Good(counts) => write!(f, "good {} {}", counts.document, counts.events),
            Answer::Events(events) => write!(f, "events {events}"),
            Answer::Groups(made) => write!(
                f,
                "events {} groups {} tried {}",
                made.events, made.groups, made.tried
            ),
        }
    }
}

// A call's answer, or its refusal. To read a record is the one call that has no output.
pub fn ask_call(
    call: Call,
    handed: Handed,
    s: &[u8],
    out: &mut [u8],
    work: &mut [u8],
) -> Result<Answer, Refusal> {
    match call {
        Call::Read => read(handed, s, work).map(Answer::Good),
        Call::Attention => resolve_attention(handed, s, out, work).map(Answer::Groups),
        Call::Headings => resolve_headings(handed, s, out, work).map(Answer::Events),
        Call::Lists => resolve_lists(handed, s, out, work).map(Answer::Events),
    }
}
