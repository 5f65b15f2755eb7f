// A refusal in a line: its number, its place, its words and, for 3, 5 and 6, the one cause that applies; of a record of form 2 for 2 too.
//
// A place is an offset in what was given: in a text or a line for the commands on these, which make a record of it that nobody sees, and in the
// record for the commands on a record. An event that was given beside a text stands in the text where it says. Numbers 1, 2, 7 and 8 have no place.
//
// The record of a text is judged while its events stand as the section has them, side by side, whatever its form: only sound events have partners.

use crate::front::explain_front;
use crate::lengths::explain_length;
use crate::shapes::explain_shape;
use crate::soundness::{explain_end, explain_event};
use record::bytes::u32_at;
use record::check::Refusal;
use record::form::{Form, Handed, form_of, options_of};
use record::limits::{MAX_DOCUMENT, MAX_EVENTS};
use terminal::events::{Section, complain_event};
use terminal::host::{Host, Stream};
use terminal::say::{Status, complain, print};

// The words of each number, the same in the header and in the binding. Numbers 1 and 8 are never given here, where enough is lent of each.
// Kept: a number and no enum, since it is what `record::check::Refusal` carries, and the C interface and this program print.
fn words_of(number: usize) -> &'static [u8] {
    match number {
        1 => b"the work memory is under 65,536 bytes",
        2 => b"the options are over 63, the column over 16,384, or the first count not 1",
        3 => b"a length does not fit",
        4 => b"a carriage return",
        5 => b"an event is not sound",
        6 => b"not the shape that the resolver asks for",
        7 => b"the result is over 8,000 events",
        8 => b"the output is too short for the result",
        _ => b"no such refusal",
    }
}

// The beginning of the line, up to the number.
fn begin(host: &mut Host, number: usize) {
    print(
        host,
        Stream::Complaints,
        format_args!("lark: refused {number}"),
    );
}

// The beginning of the line, up to the place.
fn begin_at(host: &mut Host, number: usize, place: usize) {
    begin(host, number);
    print(host, Stream::Complaints, format_args!(" at {place}"));
}

// Words behind others: those of the number, and then the one cause.
pub fn because(host: &mut Host, cause: &[u8]) {
    complain(host, b": ");
    complain(host, cause);
}

// The words of a number, behind its place.
fn complain_words(host: &mut Host, number: usize) {
    because(host, words_of(number));
}

// The end of the line.
fn end(host: &mut Host) -> Status {
    complain(host, b"\n");
    Status::Refused
}

// A number without a place.
fn refuse_bare(host: &mut Host, number: usize) -> Status {
    begin(host, number);
    complain_words(host, number);
    end(host)
}

// A length of a text or a line, with its cause.
fn refuse_length(host: &mut Host, place: usize, cause: &[u8]) -> Status {
    begin_at(host, 3, place);
    complain_words(host, 3);
    because(host, cause);
    end(host)
}

// Whether the carriage return at a place ends a line of a text, or the text itself, whose last line feed is dropped here or by the shell.
fn ends_line(text: &[u8], at: usize) -> bool {
    matches!(text.get(at..), Some([_] | [_, b'\n', ..]))
}

// A carriage return at an offset of a text, a line or a record's document, by its place; where it ends a line, with what is to be done.
fn refuse_return(host: &mut Host, text: &[u8], at: usize, place: usize, advice: &[u8]) -> Status {
    begin_at(host, 4, place);
    complain_words(host, 4);
    if ends_line(text, at) {
        complain(host, advice);
    }
    end(host)
}

// What is said of that in a text or a line, whose carriage returns a user can take away, and in a record.
const TAKE_AWAY: &[u8] = b"; where lines end in CR LF, take the CR away, as tr -d '\\r' does";

const FEED_ALONE: &[u8] = b"; a line ends in a line feed alone, not in CR LF";

// A refusal of a line: over its limit, or a heading of more events than a record takes. Those are two for each piece, and two for the heading.
pub fn refuse_line(host: &mut Host, line: &[u8], refusal: Refusal) -> Status {
    let place = refusal.place;
    match refusal.number {
        3 if line.len() > MAX_DOCUMENT => refuse_length(
            host,
            place,
            b"the line is over 16,384 bytes",
        ),
        3 => refuse_length(
            host,
            place,
            b"the heading has over 1,023 words, # runs and spaces between them",
        ),
        4 => refuse_return(host, line, place, place, TAKE_AWAY),
        number => refuse_bare(host, number),
    }
}

// A place of a record as an offset in its document, which stands behind its count and so many bytes in front.
fn in_document(place: usize, front: usize) -> usize {
    place.saturating_sub(front).saturating_sub(4)
}

// More events than a record takes: they were given, or were made of the text, two for each piece.
fn refuse_crowd(host: &mut Host, place: usize, given: bool) -> Status {
    refuse_length(
        host,
        place,
        if given {
            b"over 2,048 events are given"
        } else {
            b"the text has over 1,024 runs and pieces between them"
        },
    )
}

// The record of a text is refused for a length: the text's, or the events', of which the section has at least one past the limit.
fn refuse_text_length(host: &mut Host, text: &[u8], section: Section, given: bool) -> Status {
    if text.len() > MAX_DOCUMENT {
        return refuse_length(host, MAX_DOCUMENT, b"the text is over 16,384 bytes");
    }
    let place = section.event(MAX_EVENTS).map_or(0, |event| event.place);
    refuse_crowd(host, place, given)
}

// The number of the event at an offset in a document of d bytes, behind which the section stands; None where none does.
fn number_at(section: Section, at: usize, d: usize) -> Option<usize> {
    at.checked_sub(4)?
        .checked_sub(d)?
        .checked_div(section.width)
        .filter(|k| *k < section.events)
}

// Which event it is.
pub fn complain_which(host: &mut Host, section: Section, k: usize) {
    print(host, Stream::Complaints, format_args!(" (event {k}, "));
    complain_event(host, section, k);
    complain(host, b")");
}

// Which event is not sound, and why: one by its number, in a document of d bytes, or else the end.
fn complain_unsound(host: &mut Host, section: Section, number: Option<usize>, d: usize) {
    if let Some(k) = number {
        complain_which(host, section, k);
        complain_words(host, 5);
        explain_event(host, section, k, d);
    } else {
        complain_words(host, 5);
        explain_end(host, section);
    }
}

// Events that are not sound, by the number of one, or of their end.
fn refuse_events(
    host: &mut Host,
    section: Section,
    number: Option<usize>,
    d: usize,
    place: usize,
) -> Status {
    begin_at(host, 5, place);
    complain_unsound(host, section, number, d);
    end(host)
}

// The same of events that were given beside a text, by the place in the text that the event says, or the text's end where there is no event.
fn refuse_given(host: &mut Host, text: &[u8], section: Section, at: usize) -> Status {
    let d = text.len();
    let number = number_at(section, at, d);
    let place = number
        .and_then(|k| section.event(k))
        .map_or(d, |event| event.place);
    refuse_events(host, section, number, d, place)
}

// A refusal of the record of a text, as it was to be handed over, and of a section's events, as they are written, which were given beside it or were made of it.
pub fn refuse_text(
    host: &mut Host,
    text: &[u8],
    section: Section,
    handed: Handed,
    given: bool,
    refusal: Refusal,
) -> Status {
    let form = form_of(handed);
    let at = in_document(refusal.place, form.front);
    match refusal.number {
        3 => refuse_text_length(host, text, section, given),
        4 => refuse_return(host, text, at, at, TAKE_AWAY),
        5 => refuse_given(host, text, section, at),
        number => refuse_bare(host, number),
    }
}

// A run, a heading or an item that is not of its shape, by the number of the event that enters it.
fn refuse_shape(
    host: &mut Host,
    document: &[u8],
    section: Section,
    number: Option<usize>,
    options: u32,
    place: usize,
) -> Status {
    begin_at(host, 6, place);
    if let Some(k) = number
        && k < MAX_EVENTS
    {
        complain_which(host, section, k);
        complain_words(host, 6);
        explain_shape(host, document, section, k, options);
    } else {
        complain_words(host, 6);
    }
    end(host)
}

// A refusal of what a record holds, which is a document and a section whose counts fit, behind so many bytes in front.
fn refuse_parts(
    host: &mut Host,
    document: &[u8],
    section: &[u8],
    form: Form,
    options: u32,
    refusal: Refusal,
) -> Status {
    let Some(section) = Section::counted(section, form.width) else {
        return refuse_bare(host, refusal.number);
    };
    let d = document.len();
    let place = refusal.place;
    let at = in_document(place, form.front);
    let event = number_at(section, at, d);
    match refusal.number {
        4 => refuse_return(host, document, at, place, FEED_ALONE),
        5 => refuse_events(host, section, event, d, place),
        6 => refuse_shape(host, document, section, event, options, place),
        number => refuse_bare(host, number),
    }
}

// A record's document, and behind it the section of its events; the document's count stands behind so many bytes in front. None where that does not fit.
fn parts_of(rec: &[u8], front: usize) -> Option<(&[u8], &[u8])> {
    let (count, behind) = rec.get(front..)?.split_at_checked(4)?;
    behind.split_at_checked(u32_at(count, 0))
}

// The same of the record.
fn refuse_inside(
    host: &mut Host,
    rec: &[u8],
    form: Form,
    options: u32,
    refusal: Refusal,
) -> Status {
    match parts_of(rec, form.front) {
        Some((document, section)) => refuse_parts(host, document, section, form, options, refusal),
        None => refuse_bare(host, refusal.number),
    }
}

// A record whose counts do not fit.
fn refuse_counts(host: &mut Host, rec: &[u8], front: usize, place: usize) -> Status {
    begin_at(host, 3, place);
    complain_words(host, 3);
    explain_length(host, rec, front, place);
    end(host)
}

// Options that are over their limit: those beside a record, or the first section of one that carries its own.
fn refuse_options(host: &mut Host, rec: &[u8], front: usize) -> Status {
    begin(host, 2);
    complain_words(host, 2);
    if front > 0 {
        explain_front(host, rec);
    }
    end(host)
}

// An output that is too short for a section of events of so many bytes.
fn refuse_room(host: &mut Host, width: usize) -> Status {
    begin(host, 8);
    complain_words(host, 8);
    print(
        host,
        Stream::Complaints,
        format_args!(": a section takes 4 bytes, and for each event {width}"),
    );
    end(host)
}

// A refusal of a record, as it was handed over.
pub fn refuse_record(host: &mut Host, rec: &[u8], handed: Handed, refusal: Refusal) -> Status {
    let form = form_of(handed);
    match refusal.number {
        2 => refuse_options(host, rec, form.front),
        3 => refuse_counts(host, rec, form.front, refusal.place),
        8 => refuse_room(host, form.width),
        _ => refuse_inside(host, rec, form, options_of(handed, rec), refusal),
    }
}
