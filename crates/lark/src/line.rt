// The command `line`: what the line readers find in one line, and what the heading resolver makes of it where it is a heading.

use asked::args::Asked;
use asked::input::{RECORD_ROOM, handed_asked};
use asked::made::put_record;
use atx::heading;
use causes::refuse::refuse_line;
use heading::resolve::resolve_headings;
use lines::container::{Container, Kind};
use lines::going::{Going, continuation};
use lines::item::{Item, list_item};
use lines::spaces::{Taken, space_or_tab};
use record::check::Refusal;
use record::form::form_of;
use record::limits::{HEADING_TEXT, MAX_EVENTS};
use terminal::events::{Section, say_events};
use terminal::host::{Host, Stream};
use terminal::say::{Status, done, end_line, print, say};

// As many columns as the spaces and tabs of a line can have: 16,384 tabs of four.
const ALL: usize = 65536;

// A refusal of a heading's record, which is for its events alone, by the place in the line of the first piece for which it has no room: its enter
// is the last event that a record takes, where the heading's exit should be. The section has the events as they were read, side by side.
fn crowded(refusal: Refusal, section: Section) -> Refusal {
    Refusal {
        place: section.event(MAX_EVENTS - 1).map_or(0, |event| event.place),
        ..refusal
    }
}

// How many events a line that is a heading has with its text resolved, which are put into the section, where its events as it was read are.
fn resolve(line: &[u8], asked: Asked, section: &mut [u8], events: usize) -> Result<usize, Refusal> {
    let handed = handed_asked(asked);
    let mut bytes = [0u8; RECORD_ROOM];
    let mut work = [0u8; RECORD_ROOM];
    let read = Section::written(section, events);
    let rec = put_record(line, read, handed, asked.options(), &mut bytes)?;
    resolve_headings(handed, rec, section, &mut work)
}

// The same of any line; None where it is no heading.
fn find_title(line: &[u8], asked: Asked, section: &mut [u8]) -> Result<Option<usize>, Refusal> {
    let Some(read) = heading(line, asked.options(), asked.column, section)? else {
        return Ok(None);
    };
    match resolve(line, asked, section, read) {
        Ok(events) => Ok(Some(events)),
        Err(refusal) => Err(crowded(refusal, Section::written(section, read))),
    }
}

// What is found of the spaces and tabs in front, on a line. All of them are taken, so that none is cut.
fn say_leading(host: &mut Host, spaces: Result<Option<Taken>, Refusal>) {
    say(host, b"leading spaces and tabs: ");
    match spaces {
        Ok(Some(taken)) => print(host, Stream::Output, taken.bytes),
        Ok(None) => say(host, b"too few"),
        Err(_) => say(host, b"refused"),
    };
    end_line(host);
}

// Where a heading's text stands, and its events.
fn say_heading(host: &mut Host, section: Section) {
    if let Some(k) = section.first_named(HEADING_TEXT)
        && let Some(event) = section.event(k)
        && let Some(to) = section.exit(k)
    {
        let from = event.place;
        print(
            host,
            Stream::Output,
            format_args!("heading: text {from}..{to}\nheading: events "),
        );
    } else {
        say(host, b"heading: no text\nheading: events ");
    }
    say_events(host, section);
}

// Whether an item is bulleted or ordered, and its mark.
fn say_kind(host: &mut Host, kind: Kind) {
    let (words, mark): (&[u8], u8) = match kind {
        Kind::Bullet(mark) => (b", bullet ", mark),
        Kind::Ordered(mark) => (b", ordered ", mark),
    };
    say(host, words);
    say(host, &[mark]);
}

// A container's flag; where it is not set nothing is said.
fn say_blank(host: &mut Host, blank: bool) {
    if blank {
        say(host, b", blank");
    }
}

// The bytes taken, and the columns left of a tab; where none is cut nothing is said of that.
fn say_taken(host: &mut Host, taken: usize, left: usize) {
    print(host, Stream::Output, format_args!("taken {taken}"));
    if left != 0 {
        print(host, Stream::Output, format_args!(", left {left}"));
    }
}

// What a list item takes, and its container: the size, the kind and the flag.
fn say_item(host: &mut Host, item: Item) {
    let container = item.container;
    say_taken(host, item.taken, item.left);
    print(
        host,
        Stream::Output,
        format_args!(", size {}", container.size),
    );
    say_kind(host, container.kind);
    say_blank(host, container.blank);
}

// What is found of a list item; whether it was written.
fn say_start(host: &mut Host, start: Result<Option<Item>, Refusal>) -> bool {
    say(host, b"list item: ");
    match start {
        Ok(Some(item)) => say_item(host, item),
        Ok(None) => {
            say(host, b"no");
        }
        Err(_) => {
            say(host, b"refused");
        }
    }
    end_line(host)
}

// What is found of a further line: what is taken, or no, each with the flag as it then stands; or that it is refused.
fn say_going(host: &mut Host, going: Result<Going, Refusal>) {
    match going {
        Ok(
            Going::Goes {
                taken,
                left,
                container,
            },
        ) => {
            say(host, b": ");
            say_taken(host, taken, left);
            say_blank(host, container.blank);
        }
        Ok(Going::Stops { container }) => {
            say(host, b": no");
            say_blank(host, container.blank);
        }
        Err(_) => {
            say(host, b": refused");
        }
    }
}

// What is found of a further line of an item of this size; whether it was written. The item's mark does not matter.
fn read_further(host: &mut Host, line: &[u8], asked: Asked, size: usize) -> bool {
    let held = Container {
        kind: Kind::Bullet(b'-'),
        size,
        blank: asked.blank,
    };
    print(
        host,
        Stream::Output,
        format_args!("continuation of size {size}"),
    );
    say_going(
        host,
        continuation(line, asked.options(), asked.column, held),
    );
    end_line(host)
}

// What the readers find beside a heading. They have nothing to refuse once the heading has answered, since all refuse a line for the same
// reasons, but for the heading's own.
fn read_others(host: &mut Host, line: &[u8], asked: Asked) -> bool {
    let written = say_start(
        host,
        list_item(line, asked.options(), asked.column, asked.interrupting),
    );
    match asked.size {
        Some(size) => read_further(host, line, asked, size),
        None => written,
    }
}

// The answer on a line that is not refused, and has these events as a heading, or is none.
fn answer(host: &mut Host, line: &[u8], asked: Asked, title: Option<Section>) -> Status {
    say_leading(
        host,
        space_or_tab(line, asked.options(), asked.column, 0, ALL),
    );
    if let Some(section) = title {
        say_heading(host, section);
    } else {
        say(host, b"heading: no\n");
    }
    let written = read_others(host, line, asked);
    done(host, written)
}

// The answer on any line. The heading comes first: all that can be refused shows there, before a word is written.
pub fn read_line(host: &mut Host, line: &[u8], asked: Asked) -> Status {
    let mut bytes = [0u8; RECORD_ROOM];
    let title = match find_title(line, asked, &mut bytes) {
        Ok(title) => title,
        Err(refusal) => return refuse_line(host, line, refusal),
    };
    let width = form_of(handed_asked(asked)).width;
    let title = title.map(|events| Section {
        bytes: &bytes,
        width,
        events,
    });
    answer(host, line, asked, title)
}
