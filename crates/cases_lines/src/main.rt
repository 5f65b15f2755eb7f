// Asks the line readers each question of the script on standard input, and says what they answered.
//
// A line of the script: a label; which reader, `s` (space-or-tab), `i` (list item start), `c` (continuation) or `h` (heading); the options; the
// column that the line starts at; two numbers, which are minimum and maximum, whether a paragraph is interrupted and 0, size and flag, or the
// output's length and 0; and the line's bytes in the notation of the crate `script`. `-` for a number is the largest there is. A line that begins
// with a space is passed over. The output is filled with 0xa5 before each call and looked at whole after it.

#![tactic(auto)]

use atx::heading;
use lines::container::{Container, Kind};
use lines::going::{Going, continuation};
use lines::item::{Item, list_item};
use lines::spaces::{Taken, space_or_tab};
use record::check::Refusal;
use record::event::event_at;
use script::{next_word, spell};
use std::io;

// What the output holds before each call.
const FILL: u8 = 0xa5;

// What is asked of a reader, beside the line's bytes.
#[derive(Clone, Copy)]
struct Question {
    options: u32,
    column: usize,
    a: usize,
    b: usize,
}

// A refusal by its number and place.
fn say_refusal(rt: &impl Print, refusal: Refusal) -> io::Result<()> {
    print!(rt; "refused {} at {}", refusal.number, refusal.place)
}

// A container's flag, as 1 or 0.
fn say_flag(rt: &impl Print, blank: bool) -> io::Result<()> {
    print!(rt; ", flag {}", u8::from(blank))
}

// What space-or-tab found: the bytes taken and the columns left of a cut tab, that there are too few, or a refusal.
fn say_spaces(rt: &impl Print, found: Result<Option<Taken>, Refusal>) -> io::Result<()> {
    match found {
        Ok(Some(Taken { bytes, left })) => print!(rt; "taken {bytes}, left {left}"),
        Ok(None) => print!(rt; "too few"),
        Err(refusal) => say_refusal(rt, refusal),
    }
}

// Whether an item is bulleted or ordered, and its mark as the number of a byte.
fn say_kind(rt: &impl Print, kind: Kind) -> io::Result<()> {
    match kind {
        Kind::Bullet(mark) => print!(rt; ", bullet {mark}"),
        Kind::Ordered(mark) => print!(rt; ", ordered {mark}"),
    }
}

// What list item start found: what it took and the container that opens, no list item, or a refusal.
fn say_start(rt: &impl Print, found: Result<Option<Item>, Refusal>) -> io::Result<()> {
    match found {
        Ok(
            Some(
                Item {
                    taken,
                    left,
                    container,
                },
            ),
        ) => {
            print!(rt; "item, taken {taken}, left {left}, size {}", container.size)?;
            say_flag(rt, container.blank)?;
            say_kind(rt, container.kind)
        }
        Ok(None) => print!(rt; "not a list item"),
        Err(refusal) => say_refusal(rt, refusal),
    }
}

// What continuation found: what it took, or no continuation, each with the flag as it then stands; or a refusal.
fn say_going(rt: &impl Print, found: Result<Going, Refusal>) -> io::Result<()> {
    match found {
        Ok(
            Going::Goes {
                taken,
                left,
                container,
            },
        ) => {
            print!(rt; "goes on, taken {taken}, left {left}")?;
            say_flag(rt, container.blank)
        }
        Ok(Going::Stops { container }) => {
            print!(rt; "not a continuation")?;
            say_flag(rt, container.blank)
        }
        Err(refusal) => say_refusal(rt, refusal),
    }
}

// The events of a section, `+` for enter and `-` for exit.
fn say_events(rt: &impl Print, out: &[u8], events: usize) -> io::Result<()> {
    for bytes in out.chunks_exact(8).take(events) {
        let e = event_at(bytes, 0);
        let sign = if e.kind == 0 { '+' } else { '-' };
        print!(rt; " {sign}{}@{}", e.name, e.place)?;
    }
    Ok(())
}

// Whether the rest of the output is as it was.
fn say_kept(rt: &impl Print, rest: &[u8]) -> io::Result<()> {
    if rest.iter().all(|b| *b == FILL) {
        print!(rt; ", the rest kept")
    } else {
        print!(rt; ", MORE of the output changed")
    }
}

// At most twelve events are shown one by one.
fn say_headed(
    rt: &impl Print,
    found: Result<Option<usize>, Refusal>,
    out: &[u8],
) -> io::Result<()> {
    match found {
        Ok(Some(events)) => {
            print!(rt; "heading, events {events}")?;
            if events > 8000 || 4 + 8 * events > out.len() {
                return Ok(());
            }
            if events <= 12 {
                say_events(rt, &out[4..], events)?;
            }
            say_kept(rt, &out[4 + 8 * events..])
        }
        Ok(None) => {
            print!(rt; "not a heading")?;
            say_kept(rt, out)
        }
        Err(refusal) => {
            say_refusal(rt, refusal)?;
            say_kept(rt, out)
        }
    }
}

// The heading reader, lent so many bytes of the output. A question for more than there are is not asked.
fn ask_heading(rt: &impl Print, s: &[u8], q: Question, out: &mut [u8]) -> io::Result<()> {
    if q.a > out.len() {
        return Ok(());
    }
    out.fill(FILL);
    let found = heading(s, q.options, q.column, &mut out[..q.a]);
    say_headed(rt, found, out)
}

// The reader that a word names by its letter, with what it takes of the two numbers; of any other word nothing is said.
fn ask(rt: &impl Print, reader: &[u8], s: &[u8], q: Question, out: &mut [u8]) -> io::Result<()> {
    match reader {
        [b'h', ..] => ask_heading(rt, s, q, out),
        [b's', ..] => say_spaces(rt, space_or_tab(s, q.options, q.column, q.a, q.b)),
        [b'i', ..] => say_start(rt, list_item(s, q.options, q.column, q.a == 1)),
        [b'c', ..] => {
            let held = Container {
                kind: Kind::Bullet(b'-'),
                size: q.a,
                blank: q.b == 1,
            };
            say_going(rt, continuation(s, q.options, q.column, held))
        }
        _ => Ok(()),
    }
}

// A number of the script; `-` is the largest.
fn number(word: &[u8]) -> usize {
    match word {
        [b'-', ..] => usize::MAX,
        _ => script::number(word, 0),
    }
}

// The numbers behind the reader, which are cut off the line's front.
fn read_question(line: &mut &[u8]) -> Question {
    Question {
        options: (script::number(next_word(line), 0) % 4294967296) as u32,
        column: number(next_word(line)),
        a: number(next_word(line)),
        b: number(next_word(line)),
    }
}

// One line of the script.
fn line(rt: &impl Print, s: &[u8], bytes: &mut [u8], out: &mut [u8]) -> io::Result<()> {
    if matches!(s, [] | [b' ', ..]) {
        return Ok(());
    }
    let mut rest = s;
    let label = next_word(&mut rest);
    rt.write_all(label)?;
    print!(rt; ": ")?;
    let reader = next_word(&mut rest);
    if reader.is_empty() {
        return Ok(());
    }
    let q = read_question(&mut rest);
    let n = spell(rest, 0, bytes);
    ask(rt, reader, &bytes[..n], q, out)?;
    print!(rt; "\n")
}

// The script on standard input, up to 65,536 bytes of it, with one buffer for the bytes that a line spells and one for the output.
fn main(rt: HostRuntime) -> io::Result<()> {
    let mut text = [0u8; 65536];
    let mut bytes = [0u8; 32768];
    let mut out = [0u8; 65536];
    let n = script::read_full(&mut rt.reader(), &mut text);
    for s in text[..n].split(|b| *b == b'\n') {
        line(&rt, s, &mut bytes, &mut out)?;
    }
    Ok(())
}
