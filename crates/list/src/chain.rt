// Which items a list begins before and which it ends behind.
//
// An item's mark is known where it enters, and is kept until its exit on a stack of 64. At its exit a look onward finds the neighbouring
// item: it passes only pairs that hold no item, so that no event is passed by two such looks, and the item that it finds is the next one
// to enter. Its mark is carried there, so that it is not read again, with a bool that says whether the two have one mark.

ghost use Rattle.std.specs.Prelude.{◌≡◌, ◌≤◌, true, length, IsSome};
ghost use Rattle.record.specs.EventsOf.{events_of};
ghost use Rattle.record.specs.Sound.{sound};
ghost use Rattle.list.specs.Lists.{between, list_name};
ghost use Rattle.list.specs.Walk.{Placed, mark_in, marked, passing, nearest, note, adds};
ghost use Rattle.list.specs.Noting.{Noted};

use crate::item::item_mark;
use record::limits::{
    BLANK_LINE_ENDING, BLOCK_QUOTE_PREFIX, ENTER, LINE_ENDING, LIST_ITEM, LIST_ORDERED,
    LIST_UNORDERED, SPACE_OR_TAB,
};
use record::listed::{Events, Offender};

// The marks of the items that are open.
// Kept: an array with a depth beside it, as in `record::stack`: 64 is the most that document 01 lets be open, and the library has no heap.
#[derive(Clone, Copy)]
pub struct Items {
    pub marks: [u8; 64],
    pub open: usize,
}

// Whether a pair of this name may stand between two items of one list.
#[tactic(auto, unfolding(crate::specs::Lists::between, record::specs::Choice::choose))]
pub fn stands_between(name: u8) -> bool
    ensures { result ≡ between name }
{
    matches!(
        name,
        SPACE_OR_TAB | LINE_ENDING | BLANK_LINE_ENDING | BLOCK_QUOTE_PREFIX
    )
}

// Whether a pair of this name may be passed where so many are open: inside of one, any may.
#[tactic(auto, unfolding(crate::specs::Walk::passing, record::specs::Choice::choose))]
pub fn passes(depth: usize, name: u8) -> bool
    ensures { result ≡ passing depth name }
{
    depth != 0 || stands_between(name)
}

// The mark of the neighbouring item, of the events behind an item's exit; none where there is no such item.
pub fn next_mark(document: &[u8], behind: Events) -> Option<u8>
    requires { Placed document.now (events_of behind) }
    ensures { result ≡ marked (nearest document.now 0 (events_of behind.entry)) }
{
    let mut rest = behind;
    let mut depth = 0;
    while let Some((event, onward)) = rest.split_first() {
        rest = onward;
        if event.kind != ENTER {
            if depth == 0 {
                return None;
            }
            depth -= 1;
            continue;
        }
        if event.name == LIST_ITEM {
            if depth != 0 {
                return None;
            }
            return item_mark(document, onward);
        }
        if !passes(depth, event.name) {
            return None;
        }
        depth += 1;
    }
    None
}

// The mark of an item, of the events behind its enter; none where its shape is broken. A look onward may have found it already.
pub fn mark_here(document: &[u8], inside: Events, found: Option<u8>) -> Option<u8>
    requires placed { Placed document.now (events_of inside) }
    requires looked { IsSome found → found ≡ marked (mark_in document.now (events_of inside)) }
    ensures { result ≡ marked (mark_in document.now (events_of inside.entry)) }
{
    if found.is_some() {
        return found;
    }
    item_mark(document, inside)
}

// The name of the list of items with this mark.
#[tactic(auto, unfolding(crate::specs::Lists::list_name, record::specs::Choice::choose))]
pub fn list_name(mark: u8) -> u8
    ensures { result ≡ list_name mark }
{
    match mark {
        b'.' | b')' => LIST_ORDERED,
        _ => LIST_UNORDERED,
    }
}

// The list that begins or ends at an item, unless it is joined to the one before, or after: a note, which is 0 where there is none.
// Kept: 0 and no None, since a note is kept as one byte of the work memory until the second pass.
pub fn unless_joined(joined: bool, mark: u8) -> u8
    ensures { result ≡ note joined mark }
{
    if joined { 0 } else { list_name(mark) }
}

// How many events a note adds.
#[tactic(auto, unfolding(record::specs::Choice::choose))]
pub fn more(n: u8) -> usize
    ensures { (result ≡ adds n) × (result ≤ 1) }
{
    usize::from(n != 0)
}

// The first pass: a note for each event and how many events they add, or the enter event of the earliest offending item.
pub fn note_lists(document: &[u8], events: Events, work: &mut [u8]) -> Result<usize, Offender>
    requires { (sound 64 (length document.now) (events_of events) ≡ true) × (events.count ≤ 2048) × (2048 ≤ length work.old) }
    ensures { Noted document.now (events_of events.entry) result work.new }
{
    let mut held = Items {
        marks: [0u8; 64],
        open: 0,
    };
    let mut found: Option<u8> = None;
    let mut joined = false;
    let mut behind = false;
    let mut count = 0;
    for i in 0..events.count {
        let event = events.event(i);
        if event.name != LIST_ITEM {
            work[i] = 0;
            behind = false;
            continue;
        }
        let onward = events.skip(i + 1);
        let open = held.open;
        if event.kind == ENTER {
            if behind {
                return Err(Offender { event: i });
            }
            let Some(mark) = mark_here(document, onward, found) else {
                return Err(Offender { event: i });
            };
            let n = unless_joined(joined, mark);
            work[i] = n;
            count += more(n);
            held.marks[open] = mark;
            held.open = open + 1;
            found = None;
            joined = false;
            continue;
        }
        let top = open - 1;
        let mark = held.marks[top];
        found = next_mark(document, onward);
        joined = found == Some(mark);
        let n = unless_joined(joined, mark);
        work[i] = n;
        count += more(n);
        held.open = top;
        behind = true;
    }
    Ok(count)
}
