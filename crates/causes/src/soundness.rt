// Why an event is not sound: the cause of refusal 5. The questions are asked in the order in which the library's check asks them.

use crate::refuse::{because, complain_which};
use record::event::Event;
use record::limits::{ENTER, EXIT, LAST_NAME, MAX_DEPTH};
use terminal::events::{Section, complain_event};
use terminal::host::{Host, Stream};
use terminal::say::print;

// Whether one of the k-th event's two bytes that are to be zero is not.
fn has_spare(section: Section, k: usize) -> bool {
    matches!(section.bytes.get(section.place(k)..), Some([_, _, a, b, _, _, _, _, ..]) if *a != 0 || *b != 0)
}

// The place of the event before the k-th, or 0.
fn place_before(section: Section, k: usize) -> usize {
    k.checked_sub(1)
        .and_then(|before| section.event(before))
        .map_or(0, |event| event.place)
}

// An exit, the k-th event, and its enter, the one with this number, do not carry each other's number.
fn explain_partners(host: &mut Host, section: Section, k: usize, enter: usize) {
    if !section.carries_partners() {
        return;
    }
    if section.partner(k) != Some(enter) {
        because(host, b"its partner number is not that of its enter");
        complain_which(host, section, enter);
    } else if section.partner(enter) != Some(k) {
        because(host, b"its number is not the partner number of its enter");
        complain_which(host, section, enter);
    }
}

// An exit of this name, the k-th event, does not leave the innermost open event, or not as its partner.
fn explain_exit(host: &mut Host, section: Section, k: usize, name: u8) {
    let Some(enter) = section.innermost_before(k) else {
        because(host, b"nothing is open that it could leave");
        return;
    };
    if section.stands(enter, ENTER, name) {
        explain_partners(host, section, k, enter);
    } else {
        because(host, b"it does not leave the innermost open event, ");
        complain_event(host, section, enter);
    }
}

// The k-th event is good by itself, and not where it stands.
fn explain_nesting(host: &mut Host, section: Section, k: usize, event: Event) {
    if event.kind == EXIT {
        explain_exit(host, section, k, event.name);
    } else if section.open_before(k) == MAX_DEPTH {
        because(host, b"it is the 65th open event");
    }
}

// The k-th event is not sound, in a document of d bytes.
pub fn explain_event(host: &mut Host, section: Section, k: usize, d: usize) {
    let Some(event) = section.event(k) else {
        return;
    };
    if has_spare(section, k) {
        because(host, b"its third and fourth byte are not both zero");
    } else if event.kind > EXIT {
        because(host, b"its kind is over 1");
    } else if event.name > LAST_NAME {
        because(host, b"its name is over 24");
    } else if event.place > d {
        because(host, b"its place is past the document's end");
    } else if event.place < place_before(section, k) {
        because(host, b"its place is before that of the event before");
    } else {
        explain_nesting(host, section, k, event);
    }
}

// The end of the events comes too early.
pub fn explain_end(host: &mut Host, section: Section) {
    let open = section.open_before(section.events);
    if open == 0 {
        return;
    }
    let words = if open == 1 { "event is" } else { "events are" };
    print(
        host,
        Stream::Complaints,
        format_args!(": {open} {words} left open at the end"),
    );
}
