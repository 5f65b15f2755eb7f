// One event of eight bytes, read and written.

ghost use Rattle.std.specs.Prelude.{◌≡◌, ◌+◌, ◌≤◌, ◌<◌, length};
ghost use Rattle.record.specs.Bytes.{Wrote};
ghost use Rattle.record.specs.Event.{event_at, event_bytes};

use crate::bytes::{put_u32, u32_at, wide};

// An event: its kind (0 enter, 1 exit), its name, and its place in the document.
#[derive(Clone, Copy)]
pub struct Event {
    pub kind: u8,
    pub name: u8,
    pub place: usize,
}

// The event that stands at a place of a record.
pub fn event_at(s: &[u8], at: usize) -> Event
    requires { at + 8 ≤ length s.now }
    ensures { (result ≡ event_at s.now at) × (result.place < 4294967296) }
{
    Event {
        kind: s[at],
        name: s[at + 1],
        place: u32_at(s, at + 4),
    }
}

// An event's eight bytes, at a place of an output. Kind and name go as one number: two stores of four bytes, and not four of a byte and one.
pub fn put_event(out: &mut [u8], at: usize, kind: u8, name: u8, place: usize)
    requires { at + 8 ≤ length out.old }
    ensures { Wrote out.old at (event_bytes kind name place) out.new }
{
    put_u32(out, at, wide(kind) + 256 * wide(name));
    put_u32(out, at + 4, place);
}
