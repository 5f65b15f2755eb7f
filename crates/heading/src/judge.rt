// The first pass: is every heading of the right shape, and how many events will the result have?

ghost use Rattle.std.specs.Prelude.{◌≡◌, ◌≤◌};
ghost use Rattle.record.specs.EventsOf.{events_of};
ghost use Rattle.heading.specs.Headings.{headings};
ghost use Rattle.heading.specs.Steps.{judged_of};

use crate::seek::{inner_of, is_of};
use crate::shape::is_shaped;
use crate::text::inner_size;
use record::limits::{ENTER, HEADING};
use record::listed::{Events, Offender};

// How many events the result has, or the enter event of the earliest heading whose shape is broken: heading by heading up to the first that does, or to the end with the sizes added up.
pub fn judge(events: Events) -> Result<usize, Offender>
    requires { events.count ≤ 2048 }
    ensures { result ≡ judged_of (headings (events_of events.entry)) }
{
    let mut rest = events;
    let mut size = 0;
    while let Some((event, behind)) = rest.split_first() {
        size += 1;
        if !is_of(event, ENTER, HEADING) {
            rest = behind;
            continue;
        }
        let inner = inner_of(behind);
        if !is_shaped(inner) {
            return Err(Offender {
                event: events.count - rest.count,
            });
        }
        size += inner_size(inner);
        rest = behind.skip(inner.count);
    }
    Ok(size)
}
