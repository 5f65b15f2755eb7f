// The pass over the events of a good record: one look at each event, and one at each byte of a run.
//
// A run is left at once, so its two events are passed together and it never goes on the stack: of 2,048 events at most 1,024 are runs.

ghost use Rattle.record.specs.Good.{GoodIn};
ghost use Rattle.classes.specs.Lent.{AsciiTable, Lent};
ghost use Rattle.runs.specs.Rule.{crate};
ghost use Rattle.slots.specs.Layout.{Room};
ghost use Rattle.loading.specs.Promise.{Loads, Passes};

use super::shape::shaped_at;
use super::slot::settle;
use characters::ranges::punctuation;
use classes::{Class, ascii_classes};
use record::form::{Form, place_of};
use record::limits::{ATTENTION_SEQUENCE, ENTER};

// The first run whose shape is broken.
#[derive(Clone, Copy, Debug, PartialEq, Eq)]
pub struct Offender {
    // The number of its enter event.
    pub event: usize,
}

// Puts the runs of the record into the slots of work memory, and says how many there are, or names the first that is no run. The two tables are lent: without the
// ranges there is no answer where a neighbour is past ASCII. Heads of chains are not touched.
fn load_by(
    ascii: &[Class],
    marks: &[u32],
    s: &[u8],
    form: Form,
    d: usize,
    e: usize,
    options: u32,
    w: &mut [u8],
) -> Option<Result<usize, Offender>>
    requires { Lent ascii.now marks.now × GoodIn form s.now d e × Room w.old }
    ensures { Passes crate marks.now form s.now d e options w.old result w.new }
{
    // The enter events that are open, by number.
    let mut numbers = [0usize; 64];
    let mut depth = 0;
    let mut n = 0;
    // Kept: a run's two events are passed at once, so that `i` goes on by 2 or by 1, as no range does.
    let mut i = 0;
    while i < e {
        let at = place_of(form, d, i);
        if s[at] != ENTER {
            depth -= 1;
            i += 1;
            continue;
        }
        if s[at + 1] != ATTENTION_SEQUENCE {
            numbers[depth] = i;
            depth += 1;
            i += 1;
            continue;
        }
        if !shaped_at(s, form, d, options, at) {
            return Some(Err(Offender { event: i }));
        }
        let container = numbers[..depth].last().copied();
        settle(ascii, marks, s, form, d, options, at, container, w, n)?;
        n += 1;
        i += 2;
    }
    Some(Ok(n))
}

// The same with the ranges, which are made here.
fn load_wide(
    ascii: &[Class],
    s: &[u8],
    form: Form,
    d: usize,
    e: usize,
    options: u32,
    w: &mut [u8],
) -> Result<usize, Offender>
    requires { AsciiTable ascii.now × GoodIn form s.now d e × Room w.old }
    ensures { Loads crate form s.now d e options w.old result w.new }
{
    load_by(ascii, &punctuation(), s, form, d, e, options, w).unwrap()
}

// The same in any case. A pass without the ranges comes first: most messages need none, and to lay them out costs more than to load a chat line.
pub fn load(
    s: &[u8],
    form: Form,
    d: usize,
    e: usize,
    options: u32,
    w: &mut [u8],
) -> Result<usize, Offender>
    requires { GoodIn form s.now d e × Room w.old }
    ensures { Loads crate form s.now d e options w.old result w.new }
{
    let ascii = ascii_classes();
    match load_by(&ascii, &[], s, form, d, e, options, w) {
        Some(loaded) => loaded,
        None => load_wide(&ascii, s, form, d, e, options, w),
    }
}
