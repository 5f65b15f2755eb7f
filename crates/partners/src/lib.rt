// Partners: which event closes which. An event of form 2 carries the number of its partner behind its eight bytes.
//
// Every resolver writes the events of its section by a pen, behind their count: `begin` sets it before the first, `put` puts one and moves it on, and `copy`
// puts several that stand in a record. A `Section` is the output and the pen in it. In the old form events stand side by side. Where they carry partner numbers, an exit is linked as it is put: it and the
// enter that it closes get each other's number. Until then an enter is open, and its number is kept in the partner field of an event that is still to come: the
// outermost's in the last event's field, the next one's in the last but one's. Each open enter has its exit still to come, so there are fields enough. So a
// result may be of any depth, and no memory but its own is needed.

#![tactic(auto)]

ghost use Rattle.std.specs.Prelude.{◌≡◌, [], ◌∷◌, ◌+◌, ◌*◌, ◌≤◌, length};
ghost use Rattle.record.specs.Bytes.{u32_bytes, Wrote};
ghost use Rattle.record.specs.Event.{event, events_by};
ghost use Rattle.partners.specs.Pen.{Put, Fits};

use record::bytes::{put_u32, u32_at};
use record::event::{event_at, put_event};
use record::form::Form;
use record::limits::ENTER;
use record::listed::Events;

// Where the next event goes, and how many bytes events are apart. Where they carry partner numbers: the number of the next event, and the place where the number
// of the innermost open enter is kept, which is behind the section as long as none is open.
#[derive(Clone, Copy)]
pub struct Pen {
    pub at: usize,
    pub width: usize,
    pub number: usize,
    pub held: usize,
}

impl Pen {
    // The pen before the first of n events, of a section that stands at the front of an output.
    pub fn begin(form: Form, n: usize) -> Pen
        requires { n ≤ 8000 }
        ensures { result ≡ record { at = 4; width = form.width; number = 0; held = 12 + 12 * n } }
    {
        Pen {
            at: 4,
            width: form.width,
            number: 0,
            held: 12 + 12 * n,
        }
    }

    // Puts an event and moves on behind it; with an exit, where events carry partner numbers, its own and its enter's.
    pub fn put(&mut self, out: &mut [u8], kind: u8, name: u8, place: usize)
        requires { Fits out.old self.old (event kind name place ∷ []) }
        ensures { Put out.old self.old (event kind name place ∷ []) out.new self.new }
    {
        put_event(out, self.at, kind, name, place);
        if self.width < 12 {
            self.at += 8;
            return;
        }
        if kind == ENTER {
            self.held -= 12;
            put_u32(out, self.held, self.number);
        } else {
            let enter = u32_at(out, self.held);
            put_u32(out, 12 + 12 * enter, self.number);
            put_u32(out, self.at + 8, enter);
            self.held += 12;
        }
        self.at += 12;
        self.number += 1;
    }

    // Puts the n events that stand in a record from a place on, each `width` bytes after the one before.
    pub fn copy(&mut self, out: &mut [u8], s: &[u8], from: usize, width: usize, n: usize)
        requires { (8 ≤ width) × (from + width * n ≤ length s.now) × Fits out.old self.old (events_by width n s.now from) }
        ensures { Put out.old self.old (events_by width n s.now from) out.new self.new }
    {
        for i in 0..n {
            let event = event_at(s, from + width * i);
            self.put(out, event.kind, event.name, event.place);
        }
    }
}

// A section that is being written: the output, and the pen in it.
#[derive(Drop)]
pub struct Section<'a> {
    pub out: &'a mut [u8],
    pub pen: Pen,
}

impl<'a> Section<'a> {
    ghost use Rattle.record.specs.EventsOf.{events_of};
    ghost use Rattle.partners.specs.Section.{Ready, Puts};

    // The section of n events that an output is to hold, before the first.
    pub fn begin(out: &'a mut [u8], form: Form, n: usize) -> Section<'a>
        requires { n ≤ 8000 }
        ensures same_reference { result.out.ghost_name ≡ out.entry.ghost_name }
        ensures out { result.out.now ≡ out.old }
        ensures pen { result.pen ≡ record { at = 4; width = form.width; number = 0; held = 12 + 12 * n } }
    {
        let pen = Pen::begin(form, n);
        Section { out, pen }
    }

    // Puts an event.
    pub fn put(&mut self, kind: u8, name: u8, place: usize)
        requires { Ready self.old (event kind name place ∷ []) }
        ensures { Puts self.old (event kind name place ∷ []) self.new }
    {
        self.pen.put(self.out, kind, name, place);
    }

    // Puts events that stand in a record.
    pub fn copy(&mut self, events: Events)
        requires { Ready self.old (events_of events) }
        ensures { Puts self.old (events_of events.entry) self.new }
    {
        self.pen.copy(
            self.out,
            events.bytes,
            events.from,
            events.width,
            events.count,
        );
    }
}
