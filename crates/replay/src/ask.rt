// Our calls, each with its answer in the numbers of the list. A line is read from column 0: the list has whole lines.
//
// How many groups attention made and how many candidates it tried is no answer of the crate's, and is left out. So is what is left of a cut tab, for
// which the list has no number.

use crate::entry::{Answer, Question, section_of};
use attention::call::resolve_attention;
use atx::heading;
use heading::resolve::resolve_headings;
use lines::container::{Container, Kind};
use lines::going::{Going, continuation};
use lines::item::{Item, list_item};
use lines::spaces::space_or_tab;
use list::call::resolve_lists;
use record::check::Refusal;
use record::form::Handed;

// An answer that writes nothing.
fn unwritten(numbers: [usize; 5]) -> Result<Answer, Refusal> {
    Ok(Answer {
        numbers,
        section: 0,
    })
}

// An answer with a section of so many events.
fn written(numbers: [usize; 5], events: usize) -> Result<Answer, Refusal> {
    Ok(Answer {
        numbers,
        section: section_of(events),
    })
}

// The attention resolver. Of its three counts only the events are on the list.
pub fn ask_attention(
    question: Question,
    s: &[u8],
    out: &mut [u8],
    work: &mut [u8],
) -> Result<Answer, Refusal> {
    let made = resolve_attention(Handed::Old(question.options), s, out, work)?;
    written([made.events, 0, 0, 0, 0], made.events)
}

// The heading resolver: how many events its section has, or a refusal.
pub fn ask_headings(
    question: Question,
    s: &[u8],
    out: &mut [u8],
    work: &mut [u8],
) -> Result<Answer, Refusal> {
    let events = resolve_headings(Handed::Old(question.options), s, out, work)?;
    written([events, 0, 0, 0, 0], events)
}

// The list resolver: how many events its section has, or a refusal.
pub fn ask_lists(
    question: Question,
    s: &[u8],
    out: &mut [u8],
    work: &mut [u8],
) -> Result<Answer, Refusal> {
    let events = resolve_lists(Handed::Old(question.options), s, out, work)?;
    written([events, 0, 0, 0, 0], events)
}

// The heading reader, the one reader that writes.
pub fn ask_heading(question: Question, s: &[u8], out: &mut [u8]) -> Result<Answer, Refusal> {
    match heading(s, question.options, 0, out)? {
        Some(events) => written([1, events, 0, 0, 0], events),
        None => unwritten([0; 5]),
    }
}

// The space-or-tab reader, with a minimum and a maximum: whether there are enough, and the bytes taken.
pub fn ask_spaces(question: Question, s: &[u8]) -> Result<Answer, Refusal> {
    match space_or_tab(s, question.options, 0, question.a, question.b)? {
        Some(taken) => unwritten([1, taken.bytes, 0, 0, 0]),
        None => unwritten([0; 5]),
    }
}

// The list item reader: whether one starts here, the bytes taken, and its size, flag and mark.
pub fn ask_item(question: Question, s: &[u8]) -> Result<Answer, Refusal> {
    match list_item(s, question.options, 0, question.a == 1)? {
        Some(
            Item {
                taken,
                left: _,
                container,
            },
        ) => {
            let blank = usize::from(container.blank);
            let mark = usize::from(container.kind.mark());
            unwritten([1, taken, container.size, blank, mark])
        }
        None => unwritten([0; 5]),
    }
}

// A mark with its kind: `.` and `)` are those of ordered items.
fn kind_of(mark: u8) -> Kind {
    match mark {
        b'.' | b')' => Kind::Ordered(mark),
        _ => Kind::Bullet(mark),
    }
}

// The continuation reader, on an item of this size, flag and mark: whether it goes on, the bytes taken, and the flag as it then stands.
pub fn ask_going(question: Question, s: &[u8]) -> Result<Answer, Refusal> {
    let held = Container {
        kind: kind_of((question.c % 256) as u8),
        size: question.a,
        blank: question.b == 1,
    };
    match continuation(s, question.options, 0, held)? {
        Going::Goes {
            taken,
            left: _,
            container,
        } => unwritten([1, taken, usize::from(container.blank), 0, 0]),
        Going::Stops { container } => unwritten([0, 0, usize::from(container.blank), 0, 0]),
    }
}
