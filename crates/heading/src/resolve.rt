// The public call: numbers 1 to 8, or the result's events as a section.

ghost use Rattle.std.specs.Prelude.{length};
ghost use Rattle.record.specs.Event.{events_in};
ghost use Rattle.record.specs.Good.{GoodIn};
ghost use Rattle.record.specs.Handed.{form_of};
ghost use Rattle.record.specs.Outcome.{settled};
ghost use Rattle.record.specs.Promise.{Answered};
ghost use Rattle.heading.specs.Headings.{headings};
ghost use Rattle.heading.specs.Promise.{answer_of, outcome_of, Promise};

use crate::judge::judge;
use crate::write::put_resolved;
use record::bytes::{put_u32, wipe};
use record::check::{Counts, Refusal, admit, refused};
use record::form::{Form, Handed, form_of, place_of};
use record::limits::MAX_RESULT;
use record::listed::Events;

// Numbers 6 to 8, or the section and how many events it has: of a good record of a form with these two counts.
pub fn settle(s: &[u8], form: Form, d: usize, e: usize, out: &mut [u8]) -> Result<usize, Refusal>
    requires { GoodIn form s.now d e }
    ensures { Answered form (settled form d (headings (events_in form s.now d e)) (length out.old)) answer_of out.old result out.new }
{
    let events = Events::of_record(s, form, d, e);
    let n = match judge(events) {
        Ok(n) => n,
        Err(offender) => return refused(6, place_of(form, d, offender.event)),
    };
    if n > MAX_RESULT {
        return refused(7, 0);
    }
    if out.len() < 4 + form.width * n {
        return refused(8, 0);
    }
    put_u32(out, 0, n);
    put_resolved(out, events, form, n);
    Ok(n)
}

// The answer and the output; of the work memory only the length matters.
pub fn answer_for(handed: Handed, s: &[u8], out: &mut [u8], works: usize) -> Result<usize, Refusal>
    ensures { Answered (form_of handed) (outcome_of handed s.now (length out.old) works) answer_of out.old result out.new }
{
    let Counts { document, events } = admit(handed, s, works)?;
    settle(s, form_of(handed), document, events, out)
}

// Resolves the headings of a record into an output, and says how many events it then has; the whole of the work memory is zero afterwards, whatever it held and whatever is answered.
pub fn resolve_headings(
    handed: Handed,
    s: &[u8],
    out: &mut [u8],
    work: &mut [u8],
) -> Result<usize, Refusal>
    ensures { Promise handed s.now out.old work.old result out.new work.new }
{
    let answer = answer_for(handed, s, out, work.len());
    wipe(work);
    answer
}
