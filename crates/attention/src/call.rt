// The public call.

ghost use Rattle.std.specs.Prelude.{◌≡◌, length};
ghost use Rattle.record.specs.Event.{document_in, events_in};
ghost use Rattle.record.specs.Good.{GoodIn};
ghost use Rattle.record.specs.Handed.{form_of};
ghost use Rattle.record.specs.Promise.{Answered};
ghost use Rattle.runs.specs.Rule.{crate};
ghost use Rattle.slots.specs.Layout.{Room};
ghost use Rattle.loading.specs.Promise.{Ready};
ghost use Rattle.attention.specs.Result.{Matched};
ghost use Rattle.attention.specs.Promise.{outcome_of, answer_of, Made, Promise};

use crate::result::write_result;
use crate::start::clear_heads;
use loading::pass::load;
use loading::shape::option_on;
use matcher::closers::find_groups;
use record::bytes::wipe;
use record::check::{Counts, Refusal, admit, refused};
use record::form::{Form, Handed, form_of, options_of, place_of};
use record::limits::OPTION_SINGLE_TILDE;

// What a call answers of a record that it resolves: how many events the section that it wrote has, how many groups it made and how many candidates it tried.
#[derive(Clone, Copy, PartialEq, Eq)]
pub struct Resolved {
    pub events: usize,
    pub groups: usize,
    pub tried: usize,
}

// The groups are found: numbers 7 and 8, or the section.
fn finish(
    s: &[u8],
    form: Form,
    d: usize,
    e: usize,
    options: u32,
    w: &[u8],
    n: usize,
    groups: usize,
    tried: usize,
    out: &mut [u8],
) -> Result<Resolved, Refusal>
    requires { Matched crate form s.now d e options n groups tried w.now }
    ensures { Made crate form s.now d e options out.old result out.new }
{
    let events = write_result(s, form, d, e, options, w, n, groups, tried, out)?;
    Ok(Resolved {
        events,
        groups,
        tried,
    })
}

// The runs are in their slots: the groups, and the rest.
fn match_runs(
    s: &[u8],
    form: Form,
    d: usize,
    e: usize,
    options: u32,
    w: &mut [u8],
    n: usize,
    out: &mut [u8],
) -> Result<Resolved, Refusal>
    requires { GoodIn form s.now d e × Room w.old × Ready crate (document_in form s.now d) (events_in form s.now d e) options n w.old }
    ensures { Made crate form s.now d e options out.old result out.new }
{
    let single = option_on(options, OPTION_SINGLE_TILDE);
    clear_heads(w);
    match find_groups(w, n, single) {
        Err(_) => refused(7, 0),
        Ok(found) => finish(s, form, d, e, options, w, n, found.groups, found.tried, out),
    }
}

// Numbers 6 to 8, or the section: of a good record of a form, with these two counts.
fn resolve_good(
    s: &[u8],
    form: Form,
    d: usize,
    e: usize,
    options: u32,
    w: &mut [u8],
    out: &mut [u8],
) -> Result<Resolved, Refusal>
    requires { GoodIn form s.now d e × Room w.old }
    ensures { Made crate form s.now d e options out.old result out.new }
{
    match load(s, form, d, e, options, w) {
        Err(offender) => refused(6, place_of(form, d, offender.event)),
        Ok(n) => match_runs(s, form, d, e, options, w, n, out),
    }
}

// The answer and the output; work memory is left in any state.
fn answer_attention(
    handed: Handed,
    s: &[u8],
    out: &mut [u8],
    work: &mut [u8],
) -> Result<Resolved, Refusal>
    ensures { Answered (form_of handed) (outcome_of crate handed s.now (length out.old) (length work.old)) (answer_of crate handed s.now) out.old result out.new }
{
    let Counts { document, events } = admit(handed, s, work.len())?;
    let form = form_of(handed);
    let options = options_of(handed, s);
    resolve_good(s, form, document, events, options, work, out)
}

// Resolves the attention runs of a record into an output; the whole of the work memory is zero afterwards, whatever it held and whatever is
// answered.
pub fn resolve_attention(
    handed: Handed,
    s: &[u8],
    out: &mut [u8],
    work: &mut [u8],
) -> Result<Resolved, Refusal>
    ensures { Promise crate handed s.now out.old work.old result out.new work.new }
{
    let found = answer_attention(handed, s, out, work);
    wipe(work);
    found
}
