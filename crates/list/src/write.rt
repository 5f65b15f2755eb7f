// The second pass: the events with their lists.

ghost use Rattle.std.specs.Prelude.{◌≡◌, true, [], ◌∷◌, ◌+◌, ◌*◌, ◌≤◌, length, eqb};
ghost use Rattle.record.specs.Choice.{choose};
ghost use Rattle.record.specs.Event.{event};
ghost use Rattle.record.specs.EventsOf.{events_of};
ghost use Rattle.record.specs.Outcome.{onto};
ghost use Rattle.record.specs.Partners.{balanced, section_in};
ghost use Rattle.partners.specs.Section.{Ready, Puts};
ghost use Rattle.list.specs.Walk.{noted, spliced};

use partners::Section;
use record::bytes::put_u32;
use record::event::Event;
use record::form::Form;
use record::limits::{ENTER, EXIT};
use record::listed::Events;

// The event that a note adds on one side of an item, where it adds one there.
fn put_list(section: &mut Section<'_>, here: bool, side: u8, n: u8, place: usize)
    requires { Ready section.old (choose (eqb n 0) [] (choose here (event side n place ∷ []) [])) }
    ensures { Puts section.old (choose (eqb n 0) [] (choose here (event side n place ∷ []) [])) section.new }
{
    if n == 0 {
        return;
    }
    if here {
        section.put(side, n, place);
    }
}

// One event with what its note adds: an enter before an enter, or else an exit behind.
pub fn put_noted(section: &mut Section<'_>, event: Event, n: u8)
    requires { Ready section.old (noted n event []) }
    ensures { Puts section.old (noted n event []) section.new }
{
    let Event { kind, name, place } = event;
    put_list(section, kind == ENTER, ENTER, n, place);
    section.put(kind, name, place);
    put_list(section, kind != ENTER, EXIT, n, place);
}

// The section in a form of the events with what their notes add, of which there are `count` in all.
pub fn write_lists(out: &mut [u8], form: Form, events: Events, work: &[u8], count: usize)
    requires { (8 ≤ form.width) × (events.count ≤ length work.now) × (length (spliced work.now (events_of events)) ≡ count) × (count ≤ 8000) × (4 + form.width * count ≤ length out.old) × (balanced (spliced work.now (events_of events)) ≡ true) }
    ensures { out.new ≡ onto (section_in form (spliced work.now (events_of events.entry))) out.old }
{
    put_u32(out, 0, count);
    let mut section = Section::begin(out, form, count);
    for i in 0..events.count {
        put_noted(&mut section, events.event(i), work[i]);
    }
}
