// The events of form 2, twelve bytes each, and their true partners.
//
// The partner of an exit is found by going back from it, event by event, past whole pairs. That is written here and not taken from elsewhere: what a
// script spells, and what it says of a section, is compared with what the calls under trial write.

ghost use Rattle.std.specs.Prelude.{◌+◌, ◌≤◌, length, IfSome};

use record::bytes::{put_u32, u32_at};
use record::event::{Event, put_event};

// Where the events of a record of form 2 begin: 13 bytes and the document, whose count stands at 5.
fn first_event(s: &[u8]) -> usize
    ensures { result ≤ 4294967308 }
{
    if s.len() < 9 {
        return 13;
    }
    13 + u32_at(s, 5)
}

// The number of the event at a place, where the events begin at `first`.
fn number_of(first: usize, at: usize) -> usize {
    at.saturating_sub(first) / 12
}

// The place of the enter that the exit at a place closes, in events that begin at `first`.
fn enter_of(s: &[u8], first: usize, exit: usize) -> Option<usize>
    requires { exit + 12 ≤ length s.now }
    ensures { IfSome result (λ enter. enter ≤ exit) }
{
    let events = exit.checked_sub(first)? / 12;
    let mut inside: usize = 0;
    for n in 0..events {
        let at = exit - 12 * (n + 1);
        if s[at] == 1 {
            inside += 1;
        } else if inside == 0 {
            return Some(at);
        } else {
            inside -= 1;
        }
    }
    None
}

// Whether the event at a place has the number of the one at another place as its partner's.
fn names(s: &[u8], first: usize, at: usize, other: usize) -> bool
    requires { at + 12 ≤ length s.now }
{
    u32_at(s, at + 8) == number_of(first, other)
}

// Whether the exit at a place closes an enter, and each of the two has the other's number.
pub fn paired(s: &[u8], first: usize, exit: usize) -> bool
    requires { exit + 12 ≤ length s.now }
{
    enter_of(s, first, exit).is_some_and(|enter| names(s, first, enter, exit)
        && names(s, first, exit, enter))
}

// The exit at a place gets its enter's number, and that gets the exit's unless a script gave it one: an enter has its own number until its exit
// is spelled.
fn pair(out: &mut [u8], first: usize, exit: usize)
    requires { exit + 12 ≤ length out.old }
{
    if let Some(enter) = enter_of(out, first, exit) {
        put_u32(out, exit + 8, number_of(first, enter));
        if names(out, first, enter, enter) {
            put_u32(out, enter + 8, number_of(first, exit));
        }
    }
}

// An event at a place; one of twelve bytes with its partner's number, and its own where it has none.
pub fn put(out: &mut [u8], at: usize, width: usize, e: Event)
    requires { (8 ≤ width) × (at + width ≤ length out.old) }
{
    put_event(out, at, e.kind, e.name, e.place);
    if width < 12 {
        return;
    }
    let first = first_event(out);
    put_u32(out, at + 8, number_of(first, at));
    if e.kind == 1 {
        pair(out, first, at);
    }
}
