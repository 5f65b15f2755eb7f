// The commands on a record: `attention`, `headings`, `lists` and `read`.

use asked::args::Asked;
use asked::input::{RECORD_ROOM, RESULT_ROOM, handed_asked};
use attention::call::resolve_attention;
use causes::refuse::refuse_record;
use heading::resolve::resolve_headings;
use list::call::resolve_lists;
use record::check::{Counts, Refusal};
use record::form::{Handed, form_of, options_of};
use terminal::events::{Section, say_events};
use terminal::host::{Host, Stream};
use terminal::say::{Status, done, print, say};

// A section as bytes.
fn say_section(host: &mut Host, section: Section) -> bool {
    let end = section.place(section.events);
    say(host, &section.bytes[..end])
}

// The section that was made, as text or as bytes.
fn say_made(host: &mut Host, section: Section, as_text: bool) -> Status {
    let written = if as_text {
        say_events(host, section)
    } else {
        say_section(host, section)
    };
    done(host, written)
}

// The options of a record that carries them.
fn say_carried(host: &mut Host, handed: Handed, rec: &[u8]) {
    if let Handed::Second = handed {
        print(
            host,
            Stream::Output,
            format_args!("options {} ", options_of(handed, rec)),
        );
    }
}

// The two counts of a good record.
fn say_counts(host: &mut Host, document: usize, events: usize) -> Status {
    let written = print(
        host,
        Stream::Output,
        format_args!("document {document} events {events}\n"),
    );
    done(host, written)
}

// What a resolver makes of a record, in memory for it alone: how many events its section has.
fn run<F>(host: &mut Host, rec: &[u8], asked: Asked, resolve: F) -> Status
where
    F: FnOnce(Handed, &[u8], &mut [u8], &mut [u8]) -> Result<usize, Refusal>,
    requires { F.IsAlwaysCallable resolve }
{
    let handed = handed_asked(asked);
    let mut out = [0u8; RESULT_ROOM];
    let mut work = [0u8; RECORD_ROOM];
    match resolve(handed, rec, &mut out, &mut work) {
        Ok(events) => {
            let made = Section {
                bytes: &out,
                width: form_of(handed).width,
                events,
            };
            say_made(host, made, asked.as_text)
        }
        Err(refusal) => refuse_record(host, rec, handed, refusal),
    }
}

// The record with its attention runs resolved. How many groups that made and candidates it tried, only `show` says.
pub fn run_attention(host: &mut Host, rec: &[u8], asked: Asked) -> Status {
    run(host, rec, asked, |handed, rec, out, work| {
        resolve_attention(handed, rec, out, work).map(|made| made.events)
    })
}

// The same with its headings resolved.
pub fn run_headings(host: &mut Host, rec: &[u8], asked: Asked) -> Status {
    run(host, rec, asked, resolve_headings)
}

// The same with its lists resolved.
pub fn run_lists(host: &mut Host, rec: &[u8], asked: Asked) -> Status {
    run(host, rec, asked, resolve_lists)
}

// Whether a record is good, the options that it carries, and its two counts.
pub fn run_read(host: &mut Host, rec: &[u8], asked: Asked) -> Status {
    let handed = handed_asked(asked);
    let mut work = [0u8; RECORD_ROOM];
    match record::call::read(handed, rec, &mut work) {
        Ok(Counts { document, events }) => {
            say_carried(host, handed, rec);
            say_counts(host, document, events)
        }
        Err(refusal) => refuse_record(host, rec, handed, refusal),
    }
}
