// The public call.

ghost use Rattle.std.specs.Prelude.{◌≤◌, length};
ghost use Rattle.record.specs.Event.{document_in, events_in};
ghost use Rattle.record.specs.Good.{GoodIn};
ghost use Rattle.record.specs.Handed.{form_of};
ghost use Rattle.record.specs.Outcome.{settled};
ghost use Rattle.record.specs.Promise.{Answered};
ghost use Rattle.list.specs.Lists.{lists};
ghost use Rattle.list.specs.Promise.{outcome_of, answer_of, Promise};

use crate::chain::note_lists;
use crate::write::write_lists;
use record::bytes::wipe;
use record::check::{Counts, Refusal, admit, refused};
use record::form::{Form, Handed, form_of, place_of};
use record::listed::{Events, document_of};

// Numbers 6 and 8, or the section and how many events it has: of a good record of a form with these two counts. The result has at most two events for each
// of the record's, so that number 7 is never given. Never inlined: so its frame is not on the stack while the record is checked.
#[inline(never)]
fn settle(
    s: &[u8],
    form: Form,
    d: usize,
    e: usize,
    out: &mut [u8],
    work: &mut [u8],
) -> Result<usize, Refusal>
    requires { GoodIn form s.now d e × (2048 ≤ length work.old) }
    ensures { Answered form (settled form d (lists (document_in form s.now d) (events_in form s.now d e)) (length out.old)) answer_of out.old result out.new }
{
    let document = document_of(s, form, d, e);
    let events = Events::of_record(s, form, d, e);
    let added = match note_lists(document, events, work) {
        Ok(added) => added,
        Err(offender) => return refused(6, place_of(form, d, offender.event)),
    };
    let count = e + added;
    if out.len() < 4 + form.width * count {
        return refused(8, 0);
    }
    write_lists(out, form, events, work, count);
    Ok(count)
}

// The answer and the output; work memory is left in any state.
fn answer_lists(handed: Handed, s: &[u8], out: &mut [u8], work: &mut [u8]) -> Result<usize, Refusal>
    ensures { Answered (form_of handed) (outcome_of handed s.now (length out.old) (length work.old)) answer_of out.old result out.new }
{
    let Counts { document, events } = admit(handed, s, work.len())?;
    settle(s, form_of(handed), document, events, out, work)
}

// The events with a list round each longest chain of neighbouring items, written as a section; how many there are. The whole of the work memory is zero
// afterwards, whatever it held and whatever is answered.
pub fn resolve_lists(
    handed: Handed,
    s: &[u8],
    out: &mut [u8],
    work: &mut [u8],
) -> Result<usize, Refusal>
    ensures { Promise handed s.now out.old work.old result out.new work.new }
{
    let found = answer_lists(handed, s, out, work);
    wipe(work);
    found
}
