// The end of a call, once the groups are found: how many events come out, whether they fit, and the section written.

ghost use Rattle.std.specs.Prelude.{◌≡◌, ◌≤◌};
ghost use Rattle.runs.specs.Rule.{crate};
ghost use Rattle.slots.specs.Layout.{Room};
ghost use Rattle.attention.specs.Result.{emptied_from, Matched, Ended};

use record::bytes::put_u32;
use record::check::{Refusal, refused};
use record::form::Form;
use record::limits::MAX_RESULT;
use slots::layout::{Left, get};
use writing::KeptGroups;

// How many of n runs have no marker left.
pub fn count_emptied(w: &[u8], n: usize) -> usize
    requires { (n ≤ 1024) × Room w.now }
    ensures { (result ≡ emptied_from n w.now 0) × (result ≤ n) }
{
    let mut count = 0;
    for q in 0..n {
        if get::<Left>(w, q) == 0 {
            count += 1;
        }
    }
    count
}

// Numbers 7 and 8, or the section, and how many events it has.
pub fn write_result(
    s: &[u8],
    form: Form,
    d: usize,
    e: usize,
    options: u32,
    w: &[u8],
    n: usize,
    groups: usize,
    tried: usize,
    out: &mut [u8],
) -> Result<usize, Refusal>
    requires { Matched crate form s.now d e options n groups tried w.now }
    ensures { Ended crate form s.now d e options out.old result out.new }
{
    let size = e - 2 * count_emptied(w, n) + 8 * groups;
    if size > MAX_RESULT {
        return refused(7, 0);
    }
    if out.len() < 4 + form.width * size {
        return refused(8, 0);
    }
    put_u32(out, 0, size);
    let kept = KeptGroups {
        memory: w,
        groups,
        runs: n,
    };
    kept.write_events(out, s, form, d, e, size);
    Ok(size)
}
