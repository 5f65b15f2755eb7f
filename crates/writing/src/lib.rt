// The writer of attention: one pass forward over the record's events, which writes for each run its closing pieces, its leftover and its
// opening pieces, and copies every other event.
//
// It needs no search: a run's slot names its first group as a closer, after which its others stand side by side, and its latest group as an
// opener, from which each group names the one before. It writes into a section, whose pen knows the form and links the events.

#![tactic(auto)]

ghost use Rattle.std.specs.Prelude.{◌≡◌, true, [], ◌∷◌, ◌+◌, ◌*◌, ◌≤◌, ◌<◌, length};
ghost use Rattle.record.specs.Form.{place_in};
ghost use Rattle.record.specs.Partners.{balanced};
ghost use Rattle.partners.specs.Pen.{Filled};
ghost use Rattle.partners.specs.Section.{Ready, Puts};
ghost use Rattle.runs.specs.Runs.{enters_run};
ghost use Rattle.runs.specs.Pieces.{group_name, closed, piece};
ghost use Rattle.runs.specs.Output.{closing_events, opening_events, run_events};
ghost use Rattle.writing.specs.Kept.{Kept, Slotted, groups_in, closings_in, openings_in, left_in, run_kept, instead_of, next_run, runs_in, written_of};

use partners::Section;
use record::event::{Event, event_at};
use record::form::Form;
use record::limits::{ATTENTION_SEQUENCE, DATA, EMPHASIS, ENTER, EXIT, STRIKETHROUGH, STRONG};
use slots::layout::{
    FirstGroup, GroupCloser, GroupEarlier, GroupTaken, LatestGroup, Left, get, marker,
};

// The groups that lent memory keeps over the runs of a record, kept so that a writer finds them.
#[derive(Clone, Copy)]
pub struct KeptGroups<'a> {
    pub memory: &'a [u8],
    pub groups: usize,
    pub runs: usize,
    pub ghost kept: { Kept memory.now groups runs },
}

// The name of a group that takes this many of this marker.
#[tactic(auto, unfolding(runs::specs::Pieces::group_name, record::specs::Choice::choose))]
fn name_of(marker: u8, taken: usize) -> u8
    ensures { (result ≡ group_name marker taken) × (result ≤ 8) }
{
    match (marker, taken) {
        (b'~', _) => STRIKETHROUGH,
        (_, 1) => EMPHASIS,
        _ => STRONG,
    }
}

// A closing piece: exit text, enter sequence, exit sequence, exit group.
fn put_closing(section: &mut Section<'_>, marker: u8, taken: usize, from: usize, to: usize)
    requires { Ready section.old (closing_events (piece marker taken from to ∷ [])) }
    ensures { Puts section.old (closing_events (piece marker taken from to ∷ [])) section.new }
{
    let name = name_of(marker, taken);
    section.put(EXIT, name + 2, from);
    section.put(ENTER, name + 1, from);
    section.put(EXIT, name + 1, to);
    section.put(EXIT, name, to);
}

// An opening piece: enter group, enter sequence, exit sequence, enter text.
fn put_opening(section: &mut Section<'_>, marker: u8, taken: usize, from: usize, to: usize)
    requires { Ready section.old (opening_events (piece marker taken from to ∷ [])) }
    ensures { Puts section.old (opening_events (piece marker taken from to ∷ [])) section.new }
{
    let name = name_of(marker, taken);
    section.put(ENTER, name, from);
    section.put(ENTER, name + 1, from);
    section.put(EXIT, name + 1, to);
    section.put(ENTER, name + 2, to);
}

// What is left of a run, from a place to another: Data enter and exit, where it is any.
fn put_leftover(section: &mut Section<'_>, from: usize, to: usize)
    requires { Ready section.old (left_in from to) }
    ensures { Puts section.old (left_in from to) section.new }
{
    if from != to {
        section.put(ENTER, DATA, from);
        section.put(EXIT, DATA, to);
    }
}

impl<'a> KeptGroups<'a> {
    // The closing pieces of the run q, whose first byte is at `from`. The place of the run's next byte.
    fn put_closings(&self, section: &mut Section<'_>, q: usize, marker: u8, from: usize) -> usize
        requires { (q < self.now.runs) × (from < 4294967296) × Ready section.old (closings_in self.now.memory.now self.now.groups q marker from) }
        ensures { Puts section.old (closings_in self.now.memory.now self.now.groups q marker from) section.new × ((result ≡ from + closed (groups_in self.now.memory.now self.now.groups) q) × (result < 8589934592)) }
    {
        let first = get::<FirstGroup>(self.memory, q);
        if first == 0 {
            return from;
        }
        let mut place = from;
        for i in first - 1..self.groups {
            if get::<GroupCloser>(self.memory, i) != q {
                break;
            }
            let taken = get::<GroupTaken>(self.memory, i);
            put_closing(section, marker, taken, place, place + taken);
            place += taken;
        }
        place
    }

    // The opening pieces of the run q, the latest group's first; its byte at `from` is the first of them.
    fn put_openings(&self, section: &mut Section<'_>, q: usize, marker: u8, from: usize)
        requires { (q < self.now.runs) × (from < 17179869184) × Ready section.old (openings_in self.now.memory.now self.now.groups q marker from) }
        ensures { Puts section.old (openings_in self.now.memory.now self.now.groups q marker from) section.new }
    {
        let mut g = get::<LatestGroup>(self.memory, q);
        let mut place = from;
        while g > 0 {
            let taken = get::<GroupTaken>(self.memory, g - 1);
            put_opening(section, marker, taken, place, place + taken);
            place += taken;
            g = get::<GroupEarlier>(self.memory, g - 1);
        }
    }

    // What stands for the run q, whose first byte is at `from`: its closing pieces, its leftover, its opening pieces.
    fn put_run(&self, section: &mut Section<'_>, q: usize, from: usize)
        requires { (q < self.now.runs) × (from < 4294967296) × Ready section.old (run_events (groups_in self.now.memory.now self.now.groups) q (run_kept self.now.memory.now q from)) }
        ensures { Puts section.old (run_events (groups_in self.now.memory.now self.now.groups) q (run_kept self.now.memory.now q from)) section.new }
    {
        let sort = marker(self.memory, q);
        let place = self.put_closings(section, q, sort, from);
        let end = place + get::<Left>(self.memory, q);
        put_leftover(section, place, end);
        self.put_openings(section, q, sort, end);
    }

    // What stands for an event, before which the next run is q. The next run behind it.
    fn put_instead(&self, section: &mut Section<'_>, event: Event, q: usize) -> usize
        requires { (enters_run event ≡ true → q < self.now.runs) × (event.place < 4294967296) × Ready section.old (instead_of event (groups_in self.now.memory.now self.now.groups) q (run_kept self.now.memory.now q event.place)) }
        ensures { Puts section.old (instead_of event (groups_in self.now.memory.now self.now.groups) q (run_kept self.now.memory.now q event.place)) section.new × (result ≡ next_run event q) }
    {
        if event.name != ATTENTION_SEQUENCE {
            section.put(event.kind, event.name, event.place);
            return q;
        }
        if event.kind != ENTER {
            return q;
        }
        self.put_run(section, q, event.place);
        q + 1
    }

    // The events that come out of a record of d bytes and e events, so many, stored from the output's byte 4 on in the record's form.
    pub fn write_events(
        &self,
        out: &mut [u8],
        s: &[u8],
        form: Form,
        d: usize,
        e: usize,
        count: usize,
    )
        requires { Slotted self.now.memory.now self.now.runs (runs_in form s.now d e) × (8 ≤ form.width) × (place_in form d e ≤ length s.now) × (length (written_of form s.now d e self.now.memory.now self.now.groups) ≡ count) × (count ≤ 8000) × (balanced (written_of form s.now d e self.now.memory.now self.now.groups) ≡ true) × (4 + form.width * count ≤ length out.old) }
        ensures { Filled form.width out.old (written_of form s.now d e self.now.memory.now self.now.groups) out.new }
    {
        let first = 8 + form.front + d;
        let mut section = Section::begin(out, form, count);
        let mut q = 0;
        for k in 0..e {
            let event = event_at(s, first + form.width * k);
            q = self.put_instead(&mut section, event, q);
        }
    }
}
