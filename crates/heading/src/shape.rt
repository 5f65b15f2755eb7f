// The shape rule: in a heading only leaf pairs of 0, 12, 14, beginning with at most one 14 and then a 12.

ghost use Rattle.std.specs.Prelude.{◌≡◌};
ghost use Rattle.record.specs.EventsOf.{events_of};
ghost use Rattle.heading.specs.Headings.{leaf, leaves, starts_with, headed, shaped};

use crate::seek::is_of;
use record::event::Event;
use record::limits::{DATA, ENTER, EXIT, HEADING_SEQUENCE, SPACE_OR_TAB};
use record::listed::Events;

// Whether two events are a leaf pair of a name that a heading may hold.
#[tactic(auto, unfolding(crate::specs::Headings::leaf, record::specs::Choice::and, record::specs::Choice::choose))]
pub fn is_leaf(enter: Event, exit: Event) -> bool
    ensures { result ≡ leaf enter exit }
{
    enter.kind == ENTER
        && is_of(exit, EXIT, enter.name)
        && matches!(enter.name, DATA | HEADING_SEQUENCE | SPACE_OR_TAB)
}

// Whether events are leaf pairs, and no others.
pub fn all_leaves(events: Events) -> bool
    ensures { result ≡ leaves (events_of events.entry) }
{
    let mut rest = events;
    while let Some((enter, inside)) = rest.split_first() {
        let Some((exit, behind)) = inside.split_first() else {
            return false;
        };
        if !is_leaf(enter, exit) {
            return false;
        }
        rest = behind;
    }
    true
}

// Whether the first event has a name.
#[tactic(auto, unfolding(crate::specs::Headings::starts_with))]
pub fn starts_with(events: Events, name: u8) -> bool
    ensures { result ≡ starts_with name (events_of events.entry) }
{
    match events.split_first() {
        Some((first, _)) => first.name == name,
        None => false,
    }
}

// Whether events begin with at most one 14 and then a 12.
pub fn is_headed(events: Events) -> bool
    ensures { result ≡ headed (events_of events.entry) }
{
    if starts_with(events, SPACE_OR_TAB) {
        return starts_with(events.skip(2), HEADING_SEQUENCE);
    }
    starts_with(events, HEADING_SEQUENCE)
}

// Whether events are what a heading may hold.
#[tactic(auto, unfolding(crate::specs::Headings::shaped, record::specs::Choice::and))]
pub fn is_shaped(events: Events) -> bool
    ensures { result ≡ shaped (events_of events.entry) }
{
    is_headed(events) && all_leaves(events)
}
