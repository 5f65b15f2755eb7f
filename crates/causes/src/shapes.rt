// Why a run, a heading or an item is not of the shape that its resolver asks for: the cause of refusal 6. The record is good; the questions are
// asked in the order in which the resolver asks them.

ghost use Rattle.std.specs.Prelude.{◌+◌, ◌≤◌};

use crate::refuse::because;
use heading::seek::inner_of;
use heading::shape::is_headed;
use list::item::known_mark;
use record::limits::{
    ATTENTION_SEQUENCE, DATA, ENTER, EXIT, HEADING, HEADING_SEQUENCE, LIST_ITEM, LIST_ITEM_MARKER,
    LIST_ITEM_PREFIX, LIST_ITEM_VALUE, MAX_EVENTS, OPTION_ATTENTION, OPTION_STRIKETHROUGH,
    SPACE_OR_TAB,
};
use record::listed::Events;
use terminal::events::{Section, complain_event};
use terminal::host::Host;
use terminal::marker::marker;
use terminal::say::complain;

// No form has wider events.
const WIDEST: usize = 256;

// The document's bytes from one place up to another are no run.
fn explain_bytes(host: &mut Host, document: &[u8], from: usize, to: usize, options: u32) {
    if from >= to {
        because(host, b"the run has no byte");
        return;
    }
    let Some(run) = document.get(from..to) else {
        return;
    };
    let byte = run[0];
    if marker(byte, OPTION_ATTENTION + OPTION_STRIKETHROUGH).is_none() {
        because(host, b"the run's first byte is no marker");
    } else if run.iter().any(|b| *b != byte) {
        because(host, b"the run is not one byte all through");
    } else if document.get(to) == Some(&byte) {
        because(host, b"the run is followed by its own byte");
    } else if marker(byte, options).is_none() {
        because(host, b"the run's option is off");
    }
}

// The run that the k-th event enters.
fn explain_run(host: &mut Host, document: &[u8], section: Section, k: usize, options: u32)
    requires { k ≤ 2048 }
{
    if !section.stands(k + 1, EXIT, ATTENTION_SEQUENCE) {
        because(host, b"the run is not left at once");
        return;
    }
    let (Some(enter), Some(exit)) = (section.event(k), section.event(k + 1)) else {
        return;
    };
    explain_bytes(host, document, enter.place, exit.place, options);
}

// Whether a heading may hold this name.
fn may_hold(name: u8) -> bool {
    matches!(name, DATA | HEADING_SEQUENCE | SPACE_OR_TAB)
}

// Whether the k-th event begins a leaf pair that a heading may hold; says what is wrong where it does not.
fn is_held(host: &mut Host, section: Section, k: usize) -> bool
    requires { k ≤ 8000 }
{
    let Some(event) = section.event(k) else {
        return false;
    };
    if !may_hold(event.name) {
        because(host, b"the heading holds ");
        complain_event(host, section, k);
        complain(host, b", and may hold names 0, 12 and 14 alone");
        return false;
    }
    if section.is_leaf(k, event.name) {
        return true;
    }
    because(host, b"in the heading ");
    complain_event(host, section, k);
    complain(host, b" is not left at once");
    false
}

// The n events from the k-th on are not all leaf pairs that a heading may hold.
fn explain_pairs(host: &mut Host, section: Section, k: usize, n: usize)
    requires { k + n ≤ 2048 }
{
    for i in (k..k + n).step_by(2) {
        if !is_held(host, section, i) {
            return;
        }
    }
}

// The heading that the k-th event enters.
fn explain_heading(host: &mut Host, section: Section, k: usize)
    requires { k ≤ 2048 }
{
    let Section {
        bytes,
        width,
        events,
    } = section;
    if width < 8 || width > WIDEST || events > MAX_EVENTS || k >= events {
        return;
    }
    let from = section.place(k + 1);
    let count = events - k - 1;
    if bytes.len() - from < width * count {
        return;
    }
    let inner = inner_of(Events {
        bytes,
        from,
        width,
        count,
    });
    if is_headed(inner) {
        explain_pairs(host, section, k + 1, inner.count);
    } else {
        because(host, b"the heading does not begin with its # run");
    }
}

// Whether the event before the k-th is an item's exit.
fn is_behind_item(section: Section, k: usize) -> bool {
    k > 0 && section.stands(k - 1, EXIT, LIST_ITEM)
}

// The event behind a leaf pair of this name that stands at the k-th, or k.
fn past_leaf(section: Section, k: usize, name: u8) -> usize
    requires { k ≤ 8000 }
    ensures { result ≤ k + 2 }
{
    if section.is_leaf(k, name) { k + 2 } else { k }
}

// An item's prefix is whole, and its marker, the k-th event, is none.
fn explain_mark(host: &mut Host, document: &[u8], section: Section, k: usize)
    requires { k ≤ 8000 }
{
    let (Some(enter), Some(exit)) = (section.event(k), section.event(k + 1)) else {
        return;
    };
    let place = enter.place;
    if place >= document.len() || exit.place != place + 1 {
        because(host, b"the marker is not one byte");
    } else if known_mark(document[place]).is_none() {
        because(host, b"the marker is none of * + - . )");
    }
}

// An item's prefix, whose enter is the event before the k-th.
fn explain_prefix(host: &mut Host, document: &[u8], section: Section, k: usize)
    requires { k ≤ 4000 }
{
    let marker = past_leaf(section, k, LIST_ITEM_VALUE);
    if !section.is_leaf(marker, LIST_ITEM_MARKER) {
        because(
            host,
            b"the item's prefix does not begin with a marker, or with a value and a marker",
        );
        return;
    }
    let end = past_leaf(section, marker + 2, SPACE_OR_TAB);
    if !section.stands(end, EXIT, LIST_ITEM_PREFIX) {
        because(
            host,
            b"the item's prefix does not end behind its marker, or behind the spaces there",
        );
        return;
    }
    explain_mark(host, document, section, marker);
}

// The item that the k-th event enters.
fn explain_item(host: &mut Host, document: &[u8], section: Section, k: usize)
    requires { k ≤ 2048 }
{
    if is_behind_item(section, k) {
        because(host, b"the item stands right behind another");
        return;
    }
    let prefix = past_leaf(section, k + 1, SPACE_OR_TAB);
    if !section.stands(prefix, ENTER, LIST_ITEM_PREFIX) {
        because(host, b"the item does not begin with its prefix");
        return;
    }
    explain_prefix(host, document, section, prefix + 1);
}

// What the k-th event enters is refused: by its name it is a run, a heading or an item.
pub fn explain_shape(host: &mut Host, document: &[u8], section: Section, k: usize, options: u32)
    requires { k ≤ 2048 }
{
    match section.event(k).map(|event| event.name) {
        Some(ATTENTION_SEQUENCE) => explain_run(host, document, section, k, options),
        Some(HEADING) => explain_heading(host, section, k),
        Some(LIST_ITEM) => explain_item(host, document, section, k),
        _ => {}
    }
}
