// The commands `show` and `record`: a text made into a record, and resolved or written as it is.

use asked::args::Asked;
use asked::given::put_given;
use asked::input::{RECORD_ROOM, RESULT_ROOM, handed_asked};
use asked::made::put_record;
use asked::split::put_split;
use attention::call::{Resolved, resolve_attention};
use causes::refuse::refuse_text;
use record::form::{Handed, form_of};
use terminal::events::Section;
use terminal::host::{Host, Stream};
use terminal::quoted::say_quoted;
use terminal::say::{Status, done, end_line, print, say};
use terminal::style::PLAIN;
use terminal::tree::say_tree;

// The last line of `show`.
fn say_counts(host: &mut Host, groups: usize, tried: usize, events: usize) -> bool {
    print(
        host,
        Stream::Output,
        format_args!("groups {groups}, candidates tried {tried}, events {events}\n"),
    )
}

// The text, and the tree of what the resolver made of it.
fn say_groups(host: &mut Host, text: &[u8], made: Section, styled: bool) {
    say_quoted(host, text, PLAIN);
    end_line(host);
    say_tree(host, text, made, styled);
}

// The record of a text and of a section's events, resolved: the text, its tree and the counts, or the refusal.
fn show_record(
    host: &mut Host,
    text: &[u8],
    section: Section,
    rec: &[u8],
    handed: Handed,
    styled: bool,
) -> Status {
    let mut out = [0u8; RESULT_ROOM];
    let mut work = [0u8; RECORD_ROOM];
    match resolve_attention(handed, rec, &mut out, &mut work) {
        Ok(
            Resolved {
                events,
                groups,
                tried,
            },
        ) => {
            let made = Section {
                bytes: &out,
                width: form_of(handed).width,
                events,
            };
            say_groups(host, text, made, styled);
            let written = say_counts(host, groups, tried, events);
            done(host, written)
        }
        Err(refusal) => refuse_text(host, text, section, handed, false, refusal),
    }
}

// The command `show`: a text's groups, by way of its record, with or without styles.
pub fn show_text(host: &mut Host, text: &[u8], asked: Asked, styled: bool) -> Status {
    let handed = handed_asked(asked);
    let options = asked.options();
    let mut pieces = [0u8; RECORD_ROOM];
    let mut bytes = [0u8; RECORD_ROOM];
    let events = put_split(text, options, &mut pieces);
    let section = Section::written(&pieces, events);
    match put_record(text, section, handed, options, &mut bytes) {
        Ok(rec) => show_record(host, text, section, rec, handed, styled),
        Err(refusal) => refuse_text(host, text, section, handed, false, refusal),
    }
}

// The record of a text and of a section's events, which were given beside it or were made of it. Only a good one is written.
fn write_good(host: &mut Host, text: &[u8], section: Section, asked: Asked) -> Status {
    let handed = handed_asked(asked);
    let mut bytes = [0u8; RECORD_ROOM];
    match put_record(text, section, handed, asked.options(), &mut bytes) {
        Ok(rec) => {
            let written = say(host, rec);
            done(host, written)
        }
        Err(refusal) => refuse_text(host, text, section, handed, asked.events.is_some(), refusal),
    }
}

// The command `record`: the bytes of the record that `show` makes, or of one with the events that the arguments spell.
pub fn record_text(host: &mut Host, text: &[u8], asked: Asked) -> Status {
    let mut bytes = [0u8; RECORD_ROOM];
    let events = match asked.events {
        Some(first) => match put_given(host, first, &mut bytes) {
            Ok(given) => given,
            Err(status) => return status,
        },
        None => put_split(text, asked.options(), &mut bytes),
    };
    write_good(host, text, Section::written(&bytes, events), asked)
}
