// Events of a record, gone over as a list is: where each stands in the record is said here alone. And which of them offends.

ghost use Rattle.std.specs.Prelude.{◌≡◌, ◌+◌, ◌*◌, ◌≤◌, length};
ghost use Rattle.record.specs.Event.{document_in};
ghost use Rattle.record.specs.Good.{GoodIn};

use crate::event::{Event, event_at};
use crate::form::Form;

// So many events from a place of a record on, each `width` bytes after the one before.
#[derive(Clone, Copy)]
pub struct Events<'a> {
    pub bytes: &'a [u8],
    pub from: usize,
    pub width: usize,
    pub count: usize,
    pub ghost wide: { 8 ≤ width },
    pub ghost whole: { from + width * count ≤ length bytes.now },
}

impl<'a> Events<'a> {
    ghost use Rattle.std.specs.Prelude.{◌≡◌, [], ◌∷◌, ◌++◌, ◌-◌, ◌<◌, min, take, drop, MatchOption};
    ghost use Rattle.record.specs.Event.{events_in};
    ghost use Rattle.record.specs.EventsOf.{events_of, LastOf};
    ghost use Rattle.record.specs.Good.{GoodIn};
    ghost use Rattle.record.specs.Stack.{nth};

    // Those of a good record of a form, with these two counts.
    pub fn of_record(s: &'a [u8], form: Form, d: usize, e: usize) -> Events<'a>
        requires { GoodIn form s.now d e }
        ensures listed { events_of result ≡ events_in form s.now d e }
        ensures counted { result.count ≡ e }
    {
        Events {
            bytes: s,
            from: 8 + form.front + d,
            width: form.width,
            count: e,
        }
    }

    // Event k, the first being event 0.
    pub fn event(self, k: usize) -> Event
        requires { k < self.count }
        ensures { result ≡ nth (events_of self.entry) k }
    {
        event_at(self.bytes, self.from + self.width * k)
    }

    // The first n, or all where there are fewer.
    pub fn take(self, n: usize) -> Events<'a>
        ensures listed { events_of result ≡ take n (events_of self.entry) }
        ensures counted { result.count ≡ min n self.entry.count }
    {
        Events {
            bytes: self.bytes,
            from: self.from,
            width: self.width,
            count: n.min(self.count),
        }
    }

    // Those behind the first n; none where there are no more.
    pub fn skip(self, n: usize) -> Events<'a>
        ensures listed { events_of result ≡ drop n (events_of self.entry) }
        ensures counted { result.count ≡ self.entry.count - n }
        ensures last { LastOf self.entry result }
    {
        let passed = n.min(self.count);
        Events {
            bytes: self.bytes,
            from: self.from + self.width * passed,
            width: self.width,
            count: self.count - passed,
        }
    }

    // The first, and those behind it.
    pub fn split_first(self) -> Option<(Event, Events<'a>)>
        ensures listed { MatchOption result (events_of self.entry ≡ []) (λ p. events_of self.entry ≡ p.0 ∷ events_of p.1) }
        ensures counted { MatchOption result (self.entry.count ≡ 0) (λ p. self.entry.count ≡ p.1.count + 1) }
    {
        if self.count == 0 {
            return None;
        }
        Some((self.event(0), self.skip(1)))
    }

    // The last, and those before it.
    pub fn split_last(self) -> Option<(Event, Events<'a>)>
        ensures listed { MatchOption result (events_of self.entry ≡ []) (λ p. events_of self.entry ≡ events_of p.1 ++ p.0 ∷ []) }
        ensures counted { MatchOption result (self.entry.count ≡ 0) (λ p. self.entry.count ≡ p.1.count + 1) }
    {
        if self.count == 0 {
            return None;
        }
        let front = self.count - 1;
        Some((self.event(front), self.take(front)))
    }
}

// The document of a good record of a form, of d bytes.
pub fn document_of<'a>(s: &'a [u8], form: Form, d: usize, e: usize) -> &'a [u8]
    requires { GoodIn form s.now d e }
    ensures { result.now ≡ document_in form s.now d }
{
    let from = 4 + form.front;
    &s[from..from + d]
}

// An event that offends against a resolver's shape rule, by its number.
#[derive(Clone, Copy, PartialEq, Eq)]
pub struct Offender {
    pub event: usize,
}
