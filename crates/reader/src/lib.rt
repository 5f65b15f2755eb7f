// A record reader holds the lent record and its own place in it.
//
// It reads any bytes, good record or not, and never past their end. The work is done over a slice and a number, in `first_event`,
// `past_events` and `event_or_end`. The methods of the reader are thin: each takes it apart or makes one, and leaves the rest to one of
// those three, so that none of them needs a proof beyond what those promise. `standing` hides the reader again.

#![tactic(auto)]

ghost use Rattle.std.specs.Prelude.{◌≡◌, ◌+◌, nat_le, length, if◌then◌else◌};
ghost use Rattle.record.specs.Bytes.{u32_at};
ghost use Rattle.reader.specs.Read.{first_event, past_events, found_at, standing_at, count_of, event_number};

use record::bytes::u32_at;
use record::event::{Event, event_at};

// Where the first event of a record stands, if it has room for both counts and the document.
fn behind_document(s: &[u8]) -> Option<usize>
    ensures { result ≡ (if nat_le (8 + u32_at s.now 0) (length s.now) then Some (8 + u32_at s.now 0) else None) }
{
    if s.len() < 8 {
        return None;
    }
    let at = 8 + u32_at(s, 0);
    (at <= s.len()).then_some(at)
}

// Where the first event of a record stands, or the record's end if it has no room for both counts and the document.
#[tactic(auto, using(std::proofs::lemmas::Bool::Decides::nat_tests), unfolding(record::specs::Choice::choose, crate::specs::Read::within, crate::specs::Read::first_event))]
pub fn first_event(s: &[u8]) -> usize
    ensures { result ≡ first_event s.now }
{
    behind_document(s).unwrap_or(s.len())
}

// The place so many events on, or the record's end if it has fewer.
#[tactic(auto, using(std::proofs::lemmas::Bool::Decides::nat_tests), unfolding(record::specs::Choice::choose, crate::specs::Read::within, crate::specs::Read::past_events))]
pub fn past_events(s: &[u8], at: usize, events: usize) -> usize
    ensures { result ≡ past_events s.now at events }
{
    at.saturating_add(events.saturating_mul(8)).min(s.len())
}

// The event that stands at a place, or nothing where fewer than eight bytes are left.
#[tactic(auto, using(std::proofs::lemmas::Bool::Decides::nat_tests), unfolding(record::specs::Choice::choose, crate::specs::Read::found_at))]
pub fn event_or_end(s: &[u8], at: usize) -> Option<Event>
    ensures { result ≡ found_at s.now at }
{
    let end = at.checked_add(8)?;
    if s.len() < end {
        return None;
    }
    Some(event_at(s, at))
}

// A lent record, and a place in it: the number of bytes before it.
#[derive(Clone, Copy)]
pub struct Reader<'a> {
    pub record: &'a [u8],
    pub at: usize,
}

impl<'a> Reader<'a> {
    // A reader of a record, at its first event.
    pub fn at_events(s: &'a [u8]) -> Reader<'a>
        ensures { (result.record ≡ s.entry) × (result.at ≡ first_event s.now) }
    {
        Reader {
            record: s,
            at: first_event(s),
        }
    }

    // The event at the reader's place, or nothing at the end.
    pub fn next_event(self) -> Option<Event>
        ensures { result ≡ found_at self.entry.record.now self.entry.at }
    {
        event_or_end(self.record, self.at)
    }

    // The reader moved on by so many events, or to the record's end if it has fewer.
    pub fn skip(self, events: usize) -> Reader<'a>
        ensures { (result.record ≡ self.entry.record) × (result.at ≡ past_events self.entry.record.now self.entry.at events) }
    {
        Reader {
            record: self.record,
            at: past_events(self.record, self.at, events),
        }
    }
}

// What stands where a record's event of a number would, or nothing at the end, whatever the record's count says.
#[tactic(auto, using(crate::proofs::Places::standing_found))]
pub fn standing(s: &[u8], number: usize) -> Option<Event>
    ensures { result ≡ standing_at s.now number }
{
    Reader::at_events(s).skip(number).next_event()
}

// How many events a record says that it has, or 0 if it ends before that count does.
#[tactic(auto, using(std::proofs::lemmas::Bool::Decides::nat_tests), unfolding(record::specs::Choice::choose, crate::specs::Read::count_of))]
pub fn event_count(s: &[u8]) -> usize
    ensures { result ≡ count_of s.now }
{
    match behind_document(s) {
        Some(at) => u32_at(s, at - 4),
        None => 0,
    }
}

// A record's event of a number, the first being 0, or nothing if there is none of that number.
#[tactic(auto, using(std::proofs::lemmas::Bool::Decides::nat_tests), unfolding(record::specs::Choice::choose, crate::specs::Read::event_number))]
pub fn event_number(s: &[u8], number: usize) -> Option<Event>
    ensures { result ≡ event_number s.now number }
{
    if number < event_count(s) {
        return standing(s, number);
    }
    None
}
