// One entry of the list: a question, and what the crate answers.
//
// All numbers are u32, the lowest byte first:
//
//     call         0 attention, 1 headings, 2 lists, on a record; 3 space_or_tab, 4 list_item, 5 continuation, 6 heading, on a line
//     options
//     a b c        space_or_tab: minimum, maximum, 0; list_item: interrupting, 0, 0; continuation: size, flag, mark; else 0, 0, 0
//     length       of the record or line, whose bytes follow; a line starts at column 0
//     five numbers attention, headings, lists: events; space_or_tab: found, taken; list_item: found, taken, size, flag, mark;
//                  continuation: found, taken, flag; heading: found, events; the rest 0
//     length       of the section that is written, whose bytes follow; 0 where nothing is written
//
// An entry that no answer can stand in is ill-formed: the file is then not a list of answers, and says nothing of our calls.

ghost use Rattle.std.specs.Prelude.{◌≡◌, ◌≤◌, length, IfOk};

use crate::call::{Call, UnknownCall};
use record::bytes::u32_at;
use record::limits::MAX_RESULT;
use script::read_full;
use std::fmt;
use std::io::Read;

// A list that is none, or that could not be read on.
#[derive(Clone, Copy, Debug, PartialEq, Eq)]
pub struct IllFormed;

impl fmt::Display for IllFormed {
    fn fmt<W: fmt::Write>(&self, f: &mut fmt::Formatter<W>) -> fmt::Result {
        f.write_str("the list of answers is ill-formed")
    }
}

impl From<UnknownCall> for IllFormed {
    fn from(_error: UnknownCall) -> IllFormed {
        IllFormed
    }
}

// What is asked, but for the bytes of the record or line: they are this long.
#[derive(Clone, Copy)]
pub struct Question {
    pub call: Call,
    pub options: u32,
    pub a: usize,
    pub b: usize,
    pub c: usize,
    pub length: usize,
}

impl Question {
    // Whether the arguments are the call's own: those that it does not have are 0, a flag is 0 or 1, a mark is a byte.
    fn has_arguments(&self) -> bool {
        match self.call {
            Call::SpaceOrTab => self.c == 0,
            Call::ListItem => self.a < 2 && self.b == 0 && self.c == 0,
            Call::Continuation => self.b < 2 && self.c < 256,
            _ => self.a == 0 && self.b == 0 && self.c == 0,
        }
    }
}

impl fmt::Display for Question {
    fn fmt<W: fmt::Write>(&self, f: &mut fmt::Formatter<W>) -> fmt::Result {
        write!(
            f,
            "{}: options {}, arguments {} {} {}, input of {} bytes",
            self.call, self.options, self.a, self.b, self.c, self.length
        )
    }
}

// An answer, the crate's or ours: its five numbers, and the length of the section.
#[derive(Clone, Copy, PartialEq, Eq)]
pub struct Answer {
    pub numbers: [usize; 5],
    pub section: usize,
}

impl Answer {
    // Whether the length of the section is what the numbers of an answer to this call make it.
    fn fits(&self, call: Call) -> bool {
        match call {
            Call::Attention | Call::Headings | Call::Lists => {
                self.section >= 4 && self.section == section_of(self.numbers[0])
            }
            Call::Heading if self.numbers[0] == 1 => self.section == section_of(self.numbers[1]),
            _ => self.section == 0,
        }
    }
}

impl fmt::Display for Answer {
    fn fmt<W: fmt::Write>(&self, f: &mut fmt::Formatter<W>) -> fmt::Result {
        let [first, second, third, fourth, fifth] = self.numbers;
        write!(
            f,
            "{first} {second} {third} {fourth} {fifth}, section of {} bytes",
            self.section
        )
    }
}

// An entry: a question with its bytes, and the crate's answer with its section.
#[derive(Clone, Copy)]
pub struct Entry<'a> {
    pub question: Question,
    pub input: &'a [u8],
    pub told: Answer,
    pub section: &'a [u8],
}

// How long a section of so many events is. Past the limit there is none.
// Kept: 0 and no None for that, since 0 is what the list itself has where nothing is written, and both are compared with it.
pub fn section_of(events: usize) -> usize {
    if events > MAX_RESULT {
        return 0;
    }
    4 + 8 * events
}

// Six numbers, with which a question or an answer begins.
fn six_in(s: &[u8; 24]) -> [u32; 6] {
    let (words, _) = s.as_chunks::<4>();
    let mut six = [0; 6];
    for (number, word) in six.iter_mut().zip(words) {
        *number = u32::from_le_bytes(*word);
    }
    six
}

// Whether the list ends here. A read that fails is no end.
fn is_end(list: &mut impl Read) -> bool {
    matches!(list.read(&mut [0u8; 1]), Ok(0))
}

// The next bytes of the list, as many as a buffer has. A read that fails counts as the end, whatever it fails for.
fn read_whole(list: &mut impl Read, buffer: &mut [u8]) -> Result<(), IllFormed> {
    if read_full(list, buffer) < buffer.len() {
        return Err(IllFormed);
    }
    Ok(())
}

// The numbers with which an entry begins, or that the list ends before it.
fn read_question(list: &mut impl Read) -> Result<Option<Question>, IllFormed> {
    let mut bytes = [0u8; 24];
    let got = read_full(list, &mut bytes);
    if got == 0 && is_end(list) {
        return Ok(None);
    }
    if got < bytes.len() {
        return Err(IllFormed);
    }
    let [call, options, a, b, c, length] = six_in(&bytes);
    let question = Question {
        call: Call::try_from(call)?,
        options,
        a: a as usize,
        b: b as usize,
        c: c as usize,
        length: length as usize,
    };
    if !question.has_arguments() {
        return Err(IllFormed);
    }
    Ok(Some(question))
}

// The numbers of the crate's answer.
fn read_told(list: &mut impl Read, call: Call) -> Result<Answer, IllFormed> {
    let mut bytes = [0u8; 24];
    read_whole(list, &mut bytes)?;
    let [a, b, c, d, e, section] = six_in(&bytes).map(|n| n as usize);
    let told = Answer {
        numbers: [a, b, c, d, e],
        section,
    };
    if !told.fits(call) {
        return Err(IllFormed);
    }
    Ok(told)
}

// The next n bytes of the list, in a buffer that has to have room for them.
fn read_bytes<'a>(
    list: &mut impl Read,
    buffer: &'a mut [u8],
    n: usize,
) -> Result<&'a [u8], IllFormed>
    ensures { IfOk result (λ bytes. (length bytes.now ≡ n) × (n ≤ length buffer.old)) }
{
    let bytes = buffer.get_mut(..n).ok_or(IllFormed)?;
    read_whole(list, bytes)?;
    Ok(bytes)
}

// The next entry, whose bytes and section are kept in the buffers, or that the list ends here.
pub fn read_entry<'a>(
    list: &mut impl Read,
    input: &'a mut [u8],
    section: &'a mut [u8],
) -> Result<Option<Entry<'a>>, IllFormed> {
    let Some(question) = read_question(list)? else {
        return Ok(None);
    };
    let input = read_bytes(list, input, question.length)?;
    let told = read_told(list, question.call)?;
    let section = read_bytes(list, section, told.section)?;
    Ok(Some(Entry {
        question,
        input,
        told,
        section,
    }))
}
