// A section of events, as the resolvers and the heading reader write it: read event by event, and said in document 01's notation. An event takes
// `width` bytes, as the section's form says; behind the first eight it may carry its partner's number, which is then said behind a slash.

ghost use Rattle.std.specs.Prelude.{◌≡◌, ◌≢◌, ◌+◌, ◌-◌, ◌*◌, ◌≤◌, ◌<◌, ◌↔◌, min, length, true, IfSome, MatchOption};
ghost use Rattle.record.specs.Event.{event_at};

use crate::host::{Host, Stream};
use crate::say::{end_line, print, say};
use record::bytes::u32_at;
use record::event::{Event, event_at};
use record::form::old;
use record::limits::{ENTER, EXIT};

// The bytes of a section, its count and behind it so many events, each of `width` bytes. The bytes may go on behind them.
#[derive(Clone, Copy)]
pub struct Section<'a> {
    pub bytes: &'a [u8],
    pub width: usize,
    pub events: usize,
}

impl<'a> Section<'a> {
    // So many events side by side, as they are given and as a text is made into them.
    pub fn written(bytes: &'a [u8], events: usize) -> Section<'a>
        ensures { (result.bytes.now ≡ bytes.now) × (result.width ≡ 8) × (result.events ≡ events) }
    {
        Section {
            bytes,
            width: old().width,
            events,
        }
    }

    // Events of so many bytes, as many as the section's count says; none where the count is cut off.
    pub fn counted(bytes: &'a [u8], width: usize) -> Option<Section<'a>>
        ensures { MatchOption result (length bytes.now < 4) (λ s. (s.bytes.now ≡ bytes.now) × (s.width ≡ width)) }
    {
        if bytes.len() < 4 {
            return None;
        }
        Some(Section {
            bytes,
            width,
            events: u32_at(bytes, 0),
        })
    }

    // Where the k-th event stands, counted from 0, which is where the k events before it end; the end of the bytes where there are not so many.
    pub fn place(self, k: usize) -> usize
        ensures within { result ≤ length self.entry.bytes.now }
        ensures stands { 4 + self.entry.width * k ≤ length self.entry.bytes.now → result ≡ 4 + self.entry.width * k }
    {
        let before = self.width.saturating_mul(k);
        self.bytes.len().min(before.saturating_add(4))
    }

    // The k-th event.
    pub fn event(self, k: usize) -> Option<Event>
        ensures { 12 + self.entry.width * k ≤ length self.entry.bytes.now → result ≡ Some (event_at self.entry.bytes.now (4 + self.entry.width * k)) }
    {
        let at = self.place(k);
        if self.bytes.len() - at < 8 {
            return None;
        }
        Some(event_at(self.bytes, at))
    }

    // Whether its events carry their partners' numbers.
    pub fn carries_partners(self) -> bool
        ensures { result ≡ true ↔ 12 ≤ self.entry.width }
    {
        self.width >= 12
    }

    // The partner's number that the k-th event carries.
    pub fn partner(self, k: usize) -> Option<usize>
        ensures { self.entry.width < 12 → result ≡ None }
    {
        let at = self.place(k);
        if !self.carries_partners() || self.bytes.len() - at < 12 {
            return None;
        }
        Some(u32_at(self.bytes, at + 8))
    }

    // How many events are open before the k-th.
    pub fn open_before(self, k: usize) -> usize {
        (0..k)
            .filter_map(|i| self.event(i))
            .fold(0, |open, event| open_after(event, open))
    }

    // The number of the innermost event that is open before the k-th.
    pub fn innermost_before(self, k: usize) -> Option<usize>
        ensures { IfSome result (λ i. i < k) }
    {
        let mut left: usize = 0;
        for i in (0..k).rev() {
            if self.event(i)?.kind != ENTER {
                left = left.saturating_add(1);
            } else if left == 0 {
                return Some(i);
            } else {
                left -= 1;
            }
        }
        None
    }

    // Whether the k-th event has this kind and name.
    pub fn stands(self, k: usize, kind: u8, name: u8) -> bool {
        self.event(k)
            .is_some_and(|event| event.kind == kind && event.name == name)
    }

    // Whether the k-th event enters this name and the next one leaves it.
    pub fn is_leaf(self, k: usize, name: u8) -> bool
        requires { k ≤ 8000 }
    {
        self.stands(k, ENTER, name) && self.stands(k + 1, EXIT, name)
    }

    // The place where the event that the k-th one enters is left.
    pub fn exit(self, k: usize) -> Option<usize> {
        let mut open = 0;
        for i in k..self.events {
            let event = self.event(i)?;
            open = open_after(event, open);
            if open == 0 {
                return Some(event.place);
            }
        }
        None
    }

    // The number of the first event of this name.
    pub fn first_named(self, name: u8) -> Option<usize>
        ensures { IfSome result (λ k. k < self.entry.events) }
    {
        (0..self.events).find(|k| self.event(*k).is_some_and(|event| event.name == name))
    }
}

// How many events are open behind an event, where so many were open before it.
pub fn open_after(event: Event, before: usize) -> usize
    ensures { (event.kind ≡ 0 → result ≡ min (before + 1) 18446744073709551615) × (event.kind ≢ 0 → result ≡ before - 1) }
{
    if event.kind == ENTER {
        before.saturating_add(1)
    } else {
        before.saturating_sub(1)
    }
}

// The sign of an event's kind: + for enter, - for exit, and ? for what is neither, which only a record that is refused has.
fn sign_of(kind: u8) -> char {
    match kind {
        ENTER => '+',
        EXIT => '-',
        _ => '?',
    }
}

// The k-th event in the notation, on a stream, with the partner's number that it carries.
fn write_event(host: &mut Host, stream: Stream, section: Section, k: usize) {
    if let Some(Event { kind, name, place }) = section.event(k) {
        let sign = sign_of(kind);
        print(host, stream, format_args!("{sign}{name}@{place}"));
    }
    if let Some(partner) = section.partner(k) {
        print(host, stream, format_args!("/{partner}"));
    }
}

// The k-th event, on standard error.
pub fn complain_event(host: &mut Host, section: Section, k: usize) {
    write_event(host, Stream::Complaints, section, k);
}

// The k-th event, behind a space where it is not the first.
fn say_event(host: &mut Host, section: Section, k: usize) {
    if k > 0 {
        say(host, b" ");
    }
    write_event(host, Stream::Output, section, k);
}

// All events, on a line; whether it was written.
pub fn say_events(host: &mut Host, section: Section) -> bool {
    for k in 0..section.events {
        say_event(host, section, k);
    }
    end_line(host)
}
