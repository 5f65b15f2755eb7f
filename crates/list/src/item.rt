// The shape of a list item and its mark, read from the event behind its enter on:
//
//     [+14 -14] +16 [+18 -18] +17 -17 [+14 -14] -16
//
// At most ten events are looked at, however many the item holds.

ghost use Rattle.std.specs.Prelude.{◌≡◌, ◌≤◌};
ghost use Rattle.record.specs.EventsOf.{events_of, LastOf};
ghost use Rattle.list.specs.Item.{known};
ghost use Rattle.list.specs.Walk.{Placed, has, first, first_leaf, behind_leaf, mark_over, mark_in, marked};

use record::event::Event;
use record::limits::{
    ENTER, EXIT, LIST_ITEM_MARKER, LIST_ITEM_PREFIX, LIST_ITEM_VALUE, SPACE_OR_TAB,
};
use record::listed::Events;

// Whether an event has this kind and name.
// Kept: `heading::seek::is_of` tests the same, but neither crate stands on the other, and a function below both would be this line and no less.
#[tactic(auto, unfolding(record::specs::Choice::and))]
pub fn has(event: Event, kind: u8, name: u8) -> bool
    ensures { result ≡ has event kind name }
{
    event.kind == kind && event.name == name
}

// Whether the next event is there and has this kind and name.
pub fn stands(ahead: Events, kind: u8, name: u8) -> bool
    ensures { result ≡ first kind name (events_of ahead.entry) }
{
    match ahead.split_first() {
        Some((event, _)) => has(event, kind, name),
        None => false,
    }
}

// Whether a leaf pair of this name stands next.
pub fn leaf(ahead: Events, name: u8) -> bool
    ensures { result ≡ first_leaf name (events_of ahead.entry) }
{
    stands(ahead, ENTER, name) && stands(ahead.skip(1), EXIT, name)
}

// The events behind a leaf pair of this name if one stands next, else as they are.
pub fn past_leaf<'a>(ahead: Events<'a>, name: u8) -> Events<'a>
    ensures listed { events_of result ≡ behind_leaf name (events_of ahead.entry) }
    ensures last { LastOf ahead.entry result }
{
    if leaf(ahead, name) {
        ahead.skip(2)
    } else {
        ahead
    }
}

// A byte, if it is a mark.
#[tactic(auto, unfolding(crate::specs::Item::known, record::specs::Choice::choose))]
pub fn known_mark(byte: u8) -> Option<u8>
    ensures { result ≡ marked (known byte) }
{
    match byte {
        b'*' | b'+' | b'-' | b'.' | b')' => Some(byte),
        _ => None,
    }
}

// The mark that the leaf pair that stands next lies over, if it is over one byte.
pub fn mark_over(document: &[u8], pair: Events) -> Option<u8>
    requires { Placed document.now (events_of pair) × (2 ≤ pair.count) }
    ensures { result ≡ marked (mark_over document.now (events_of pair.entry)) }
{
    let from = pair.event(0).place;
    let end = pair.event(1).place;
    if end != from + 1 {
        return None;
    }
    known_mark(document[from])
}

// The mark of an item, of the events behind its enter; none where its shape is broken.
pub fn item_mark(document: &[u8], inside: Events) -> Option<u8>
    requires { Placed document.now (events_of inside) }
    ensures { result ≡ marked (mark_in document.now (events_of inside.entry)) }
{
    let prefix = past_leaf(inside, SPACE_OR_TAB);
    if !stands(prefix, ENTER, LIST_ITEM_PREFIX) {
        return None;
    }
    let marker = past_leaf(prefix.skip(1), LIST_ITEM_VALUE);
    if !leaf(marker, LIST_ITEM_MARKER) {
        return None;
    }
    let end = past_leaf(marker.skip(2), SPACE_OR_TAB);
    if !stands(end, EXIT, LIST_ITEM_PREFIX) {
        return None;
    }
    mark_over(document, marker)
}
