// Which event is which, and where the first and the last of some sort stand.

ghost use Rattle.std.specs.Prelude.{◌≡◌, ◌≤◌, Bool};
ghost use Rattle.record.specs.declared.event.Event.{Event};
ghost use Rattle.record.specs.EventsOf.{events_of};
ghost use Rattle.heading.specs.Headings.{is_of, is_data_or_run, before_first, through_last, inner_of};

use record::event::Event;
use record::limits::{DATA, EXIT, HEADING, HEADING_SEQUENCE};
use record::listed::Events;

// Whether an event has a kind and a name.
// Kept: `list::item::has` tests the same, but neither crate stands on the other, and a function below both would be this line and no less.
#[tactic(auto, unfolding(crate::specs::Headings::is_of, record::specs::Choice::and))]
pub fn is_of(event: Event, kind: u8, name: u8) -> bool
    ensures { result ≡ is_of kind name event }
{
    event.kind == kind && event.name == name
}

// Whether it is one of Data or of a `#` run.
#[tactic(auto, unfolding(crate::specs::Headings::is_data_or_run, record::specs::Choice::choose))]
pub fn is_data_or_run(event: Event) -> bool
    ensures { result ≡ is_data_or_run event }
{
    matches!(event.name, DATA | HEADING_SEQUENCE)
}

// How many events stand before the first that is such.
pub fn before_first<F: Fn(Event) -> bool>(events: Events, is: F) -> usize
    ghost such: { Event → Bool }
    requires asked { (e : Event) → F.pre is e }
    requires answered { (e : Event) (r : Bool) → F.post is e r → r ≡ such e }
    ensures first { result ≡ before_first such (events_of events.entry) }
    ensures within { result ≤ events.entry.count }
{
    for k in 0..events.count {
        if is(events.event(k)) {
            return k;
        }
    }
    events.count
}

// How many events stand up to the last that is such, it included.
pub fn through_last<F: Fn(Event) -> bool>(events: Events, is: F) -> usize
    ghost such: { Event → Bool }
    requires asked { (e : Event) → F.pre is e }
    requires answered { (e : Event) (r : Bool) → F.post is e r → r ≡ such e }
    ensures last { result ≡ through_last such (events_of events.entry) }
    ensures within { result ≤ events.entry.count }
{
    let mut rest = events;
    while let Some((last, front)) = rest.split_last() {
        if is(last) {
            return rest.count;
        }
        rest = front;
    }
    0
}

// A heading's inner events, of those behind its enter.
pub fn inner_of<'a>(events: Events<'a>) -> Events<'a>
    ensures listed { events_of result ≡ inner_of (events_of events.entry) }
    ensures within { result.count ≤ events.entry.count }
{
    events.take(before_first(events, |e| is_of(e, EXIT, HEADING)))
}
