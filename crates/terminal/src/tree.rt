// The groups of a resolved section as an indented tree, each with the bytes that it goes over, and the data between, in the styles of the
// groups that it stands in where those are asked for.

use crate::events::{Section, open_after};
use crate::host::{Host, Stream};
use crate::names::say_word;
use crate::quoted::say_quoted;
use crate::say::{end_line, print, say};
use crate::style::Styles;
use record::event::Event;
use record::limits::{DATA, EMPHASIS, ENTER, STRIKETHROUGH, STRONG};

// The spaces of sixteen levels.
const SPACES: &[u8] = b"                                ";

// The spaces in front of a line, two for each group that is open. Those of sixteen are said at once, since each call of `say` is a call of the system.
fn say_indent(host: &mut Host, depth: usize) {
    for _ in 0..depth / 16 {
        say(host, SPACES);
    }
    say(host, &SPACES[..2 * (depth % 16)]);
}

// Whether a name is a group's.
fn is_group(name: u8) -> bool {
    matches!(name, EMPHASIS | STRONG | STRIKETHROUGH)
}

// A group's Sequence and Text are not shown: its own line says enough.
fn is_shown(name: u8) -> bool {
    name == DATA || is_group(name)
}

// What a group or data is called, and a space. Strikethrough goes without the Gfm of its name.
fn say_name(host: &mut Host, name: u8) {
    if name == STRIKETHROUGH {
        say(host, b"Strikethrough ");
    } else {
        say_word(host, name);
        say(host, b" ");
    }
}

// The bytes of the text from a place up to another, in these styles.
fn say_part(host: &mut Host, text: &[u8], from: usize, to: usize, styles: Styles) {
    if let Some(part) = text.get(from..to) {
        say(host, b" ");
        say_quoted(host, part, styles);
    }
}

// How many groups are open: of all three kinds, and of each.
#[derive(Clone, Copy, Default)]
struct Open {
    all: usize,
    emphasis: usize,
    strong: usize,
    struck: usize,
}

// The styles of data where so many groups are open.
fn styles_of(open: Open, styled: bool) -> Styles {
    Styles {
        bold: styled && open.strong > 0,
        italic: styled && open.emphasis > 0,
        struck: styled && open.struck > 0,
    }
}

// The line of a group or of data.
fn say_node(host: &mut Host, text: &[u8], event: Event, to: usize, open: Open, styled: bool) {
    say_indent(host, open.all);
    say_name(host, event.name);
    print(host, Stream::Output, format_args!("{}..{to}", event.place));
    if event.name == DATA {
        say_part(host, text, event.place, to, styles_of(open, styled));
    }
    end_line(host);
}

// The groups that are open behind an event.
fn open_behind(event: Event, open: Open) -> Open {
    let mut open = open;
    match event.name {
        EMPHASIS => open.emphasis = open_after(event, open.emphasis),
        STRONG => open.strong = open_after(event, open.strong),
        STRIKETHROUGH => open.struck = open_after(event, open.struck),
        _ => return open,
    }
    open.all = open_after(event, open.all);
    open
}

// All of a section, with or without styles.
pub fn say_tree(host: &mut Host, text: &[u8], section: Section, styled: bool) {
    let mut open = Open::default();
    for k in 0..section.events {
        let Some(event) = section.event(k) else {
            break;
        };
        if event.kind == ENTER
            && is_shown(event.name)
            && let Some(to) = section.exit(k)
        {
            say_node(host, text, event, to, open, styled);
        }
        open = open_behind(event, open);
    }
}
