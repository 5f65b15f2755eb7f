// One line of a script: the question that it asks, and its trial.

ghost use Rattle.std.specs.Prelude.{◌≤◌, length};

use crate::buffers::{FILL, say_work};
use crate::calls::{Answer, Call, ask_call};
use crate::section::say_output;
use record::check::Refusal;
use record::form::{Handed, form_of};
use script::{next_word, number, spell_by};
use std::io;

// What is asked of a record, and how many bytes of output and of work memory are lent. Where a line names no call, none is made.
#[derive(Clone, Copy)]
struct Question {
    call: Option<Call>,
    handed: Handed,
    outs: usize,
    lent: usize,
}

// A number as options. One too large for that is the largest there is, which no call takes either.
fn as_options(n: usize) -> u32 {
    u32::try_from(n).unwrap_or(u32::MAX)
}

// The call and the numbers behind the label, which are cut off the line's front. Form 2 where the call ends with a 2; else the old form with its options.
fn read_question(line: &mut &[u8]) -> Question
    ensures { length line.new.now ≤ length line.old.now }
{
    let call = next_word(line);
    let handed = if call.ends_with(b"2") {
        Handed::Second
    } else {
        Handed::Old(as_options(number(next_word(line), 0)))
    };
    Question {
        call: Call::named(call),
        handed,
        outs: number(next_word(line), 0),
        lent: number(next_word(line), 0),
    }
}

// What a call answers, a refusal by its number and place; how many events it says that it wrote, if it wrote a section.
fn say_answer(rt: &impl Print, answer: Result<Answer, Refusal>) -> io::Result<Option<usize>> {
    match answer {
        Ok(answer) => {
            print!(rt; "{answer}")?;
            Ok(answer.written())
        }
        Err(refusal) => {
            print!(rt; "refused {} at {}", refusal.number, refusal.place)?;
            Ok(None)
        }
    }
}

// The call made on a record, and what came of it. A question for more than the buffers have is not asked.
fn lend(
    rt: &impl Print,
    q: Question,
    s: &[u8],
    out: &mut [u8],
    work: &mut [u8],
    brief: bool,
) -> io::Result<()> {
    if q.outs > out.len() || q.lent > work.len() {
        return Ok(());
    }
    let written = match q.call {
        Some(call) => {
            let (out, work) = (&mut out[..q.outs], &mut work[..q.lent]);
            say_answer(rt, ask_call(call, q.handed, s, out, work))?
        }
        None => None,
    };
    say_output(rt, out, q.handed, written, brief)?;
    say_work(rt, work, q.lent)
}

// The same with buffers for it alone. There is room for the longest section, and for work memory that is longer than a call asks for.
fn ask(rt: &impl Print, q: Question, s: &[u8], brief: bool) -> io::Result<()> {
    let mut out = [FILL; 98304];
    let mut work = [FILL; 131072];
    lend(rt, q, s, &mut out, &mut work, brief)
}

// A line: its label, up to the first space, and the trial of its question. Of a label that begins with `big-` the section's events are left out, as
// nobody would read thousands of them.
pub fn line(rt: &impl Print, s: &[u8]) -> io::Result<()> {
    if matches!(s, [] | [b' ', ..]) {
        return Ok(());
    }
    let mut rest = s;
    let label = next_word(&mut rest);
    rt.write_all(label)?;
    print!(rt; ": ")?;
    let q = read_question(&mut rest);
    let mut bytes = [0u8; 65536];
    let n = spell_by(rest, 0, form_of(q.handed).width, &mut bytes);
    ask(rt, q, &bytes[..n], label.starts_with(b"big-"))?;
    print!(rt; "\n")
}
