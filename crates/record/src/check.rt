// The check of a record: document 01's numbers 1 to 5, the lowest first and at the earliest place.

ghost use Rattle.std.specs.Prelude.{◌≡◌, [], ◌+◌, ◌*◌, ◌≤◌, length, Err};
ghost use Rattle.record.specs.Form.{form, old, second, mate_in};
ghost use Rattle.record.specs.Bytes.{u32_at};
ghost use Rattle.record.specs.Event.{stored_at, all_stored_at};
ghost use Rattle.record.specs.Check.{accept, count_at, first_return, formed, paired, judge, fronted, checked_in, admitted};

use crate::blocks::find;
use crate::bytes::{u32_at, wide};
use crate::form::Handed;
use crate::limits::{
    ENTER, EXIT, LAST_NAME, MAX_DEPTH, MAX_DOCUMENT, MAX_EVENTS, MAX_OPTIONS, MIN_WORK,
};
use crate::stack::Open;

// A refusal: document 01's number, and the place that it names.
// Kept: the number is a number, since C hands it on and specs/Rows.antt and specs/Order.antt rank it as one.
#[derive(Clone, Copy, PartialEq, Eq)]
pub struct Refusal {
    pub number: usize,
    pub place: usize,
}

// What a check finds of a good record: the bytes of its document, and how many events it has.
#[derive(Clone, Copy, PartialEq, Eq)]
pub struct Counts {
    pub document: usize,
    pub events: usize,
}

// A refusal with its number and place, whatever would be answered else.
pub fn refused<T>(number: usize, place: usize) -> Result<T, Refusal>
    ensures { result ≡ Err (record { number = number; place = place }) }
{
    Err(Refusal { number, place })
}

// The count at a place, of a section of at most `limit` entries of `width` bytes, where it fits. It is read only where its four bytes are there.
pub fn count_at(s: &[u8], at: usize, limit: usize, width: usize) -> Option<usize>
    requires { (at ≤ length s.now) × (limit ≤ 16384) × (width ≤ 256) }
    ensures { result ≡ count_at s.now at limit width }
{
    let left = s.len() - at;
    if left < 4 {
        return None;
    }
    let count = u32_at(s, at);
    if count > limit {
        return None;
    }
    if left - 4 < width * count {
        return None;
    }
    Some(count)
}

// The place of the first carriage return among the n bytes from a place on, or the place after them.
pub fn first_return(s: &[u8], from: usize, n: usize) -> usize
    requires { from + n ≤ length s.now }
    ensures { result ≡ first_return n s.now from }
{
    let end = from + n;
    find(s, from, end, 13)
}

// Whether one event's kind, name, zero bytes and place are good; `last` is the place of the event before.
pub fn well_formed(s: &[u8], d: usize, last: usize, at: usize) -> bool
    requires { at + 8 ≤ length s.now }
    ensures { result ≡ formed (stored_at s.now at) d last }
{
    if s[at] > EXIT {
        return false;
    }
    // The name and behind it the two bytes that have to be zero, as one number: one look at the three.
    if u32_at(s, at) / 256 > wide(LAST_NAME) {
        return false;
    }
    let place = u32_at(s, at + 4);
    if place > d {
        return false;
    }
    if place < last {
        return false;
    }
    true
}

// Whether an exit, number `number`, and its enter, number `mate`, carry each other's number; events of fewer than 12 bytes carry none.
pub fn pair_true(
    s: &[u8],
    width: usize,
    at: usize,
    there: usize,
    number: usize,
    mate: usize,
) -> bool
    requires { (at + width ≤ length s.now) × (there + width ≤ length s.now) }
    ensures { result ≡ paired width (u32_at s.now (at + 8)) (u32_at s.now (there + 8)) mate number }
{
    if width < 12 {
        return true;
    }
    let back = u32_at(s, at + 8);
    if back != mate {
        return false;
    }
    let forth = u32_at(s, there + 8);
    if forth != number {
        return false;
    }
    true
}

// Number 5: the e events of `width` bytes after a document of d bytes, each by itself and against the names that are open.
pub fn check_events(
    s: &[u8],
    front: usize,
    width: usize,
    d: usize,
    e: usize,
) -> Result<Counts, Refusal>
    requires { (8 ≤ width) × (width ≤ 256) × (8 + front + d + width * e ≤ length s.now) }
    ensures { result ≡ judge width (mate_in (form front width) s.now d) (all_stored_at width e s.now (8 + front + d)) d 0 (8 + front + d) 0 [] [] (accept d e) }
{
    let mut held = Open::new();
    let first = 8 + front + d;
    let mut at = first;
    let mut last = 0;
    for number in 0..e {
        if !well_formed(s, d, last, at) {
            return refused(5, at);
        }
        let depth = held.depth;
        if s[at] == ENTER {
            if depth >= MAX_DEPTH {
                return refused(5, at);
            }
            held.names[depth] = s[at + 1];
            held.numbers[depth] = number;
            held.depth = depth + 1;
        } else {
            if depth == 0 {
                return refused(5, at);
            }
            let top = depth - 1;
            if held.names[top] != s[at + 1] {
                return refused(5, at);
            }
            let mate = held.numbers[top];
            let there = first + width * mate;
            if !pair_true(s, width, at, there, number, mate) {
                return refused(5, at);
            }
            held.depth = top;
        }
        last = u32_at(s, at + 4);
        at += width;
    }
    if held.depth != 0 {
        return refused(5, at);
    }
    Ok(Counts {
        document: d,
        events: e,
    })
}

// Numbers 3, 4 and 5, of a record with `front` bytes before the document's count and events of `width` bytes.
pub fn check(s: &[u8], front: usize, width: usize) -> Result<Counts, Refusal>
    requires { (front ≤ length s.now) × (8 ≤ width) × (width ≤ 256) }
    ensures { result ≡ checked_in (form front width) s.now }
{
    let Some(d) = count_at(s, front, MAX_DOCUMENT, 1) else {
        return refused(3, front);
    };
    let Some(e) = count_at(s, 4 + front + d, MAX_EVENTS, width) else {
        return refused(3, 4 + front + d);
    };
    let end = 8 + front + d + width * e;
    if s.len() != end {
        return refused(3, end);
    }
    let returned = first_return(s, 4 + front, d);
    if returned < 4 + front + d {
        return refused(4, returned);
    }
    check_events(s, front, width, d, e)
}

// Of a record in the old form, once the memory is found long enough: the options beside it, and the record.
fn admit_old(s: &[u8], options: u32) -> Result<Counts, Refusal>
    ensures { result ≡ fronted (Handed.Old options) s.now (checked_in old s.now) }
{
    if options > MAX_OPTIONS {
        return refused(2, 0);
    }
    check(s, 0, 8)
}

// Of a record in form 2: its first section, and the rest.
fn admit_second(s: &[u8]) -> Result<Counts, Refusal>
    ensures { result ≡ fronted Handed.Second s.now (checked_in second s.now) }
{
    if s.len() < 4 {
        return refused(3, 0);
    }
    let count = u32_at(s, 0);
    if count != 1 {
        return refused(2, 0);
    }
    if s.len() < 5 {
        return refused(3, 0);
    }
    if s[4] > 63 {
        return refused(2, 0);
    }
    check(s, 5, 12)
}

// Numbers 1 to 5: what every call on a record begins with. Of the work memory only its length matters.
pub fn admit(handed: Handed, s: &[u8], works: usize) -> Result<Counts, Refusal>
    ensures { result ≡ admitted handed s.now works }
{
    if works < MIN_WORK {
        return refused(1, 0);
    }
    match handed {
        Handed::Old(options) => admit_old(s, options),
        Handed::Second => admit_second(s),
    }
}
