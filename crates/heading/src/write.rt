// The second pass: the events of the result, one after the other.

ghost use Rattle.std.specs.Prelude.{◌≡◌, true, ◌+◌, ◌*◌, ◌≤◌, length};
ghost use Rattle.record.specs.EventsOf.{events_of};
ghost use Rattle.record.specs.Outcome.{gives};
ghost use Rattle.record.specs.Partners.{balanced};
ghost use Rattle.partners.specs.Pen.{Filled};
ghost use Rattle.heading.specs.Headings.{resolved_from, headings};

use crate::seek::{inner_of, is_of};
use crate::text::put_inner;
use partners::Section;
use record::form::Form;
use record::limits::{ENTER, HEADING};
use record::listed::Events;

// Writes the result's n events in a form, behind their count: the result of events in which every heading has the right shape.
pub fn put_resolved(out: &mut [u8], events: Events, form: Form, n: usize)
    requires { (8 ≤ form.width) × (n ≤ 8000) × (length (resolved_from 0 (events_of events)) ≡ n) × (balanced (resolved_from 0 (events_of events)) ≡ true) × (headings (events_of events) ≡ gives (resolved_from 0 (events_of events))) × (4 + form.width * n ≤ length out.old) }
    ensures { Filled form.width out.old (resolved_from 0 (events_of events.entry)) out.new }
{
    let mut section = Section::begin(out, form, n);
    let mut rest = events;
    while let Some((event, behind)) = rest.split_first() {
        section.put(event.kind, event.name, event.place);
        if !is_of(event, ENTER, HEADING) {
            rest = behind;
            continue;
        }
        let inner = inner_of(behind);
        put_inner(&mut section, inner);
        rest = behind.skip(inner.count);
    }
}
