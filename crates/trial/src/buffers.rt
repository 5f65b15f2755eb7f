// What both buffers hold before a call, and what has to be left of it after.

ghost use Rattle.std.specs.Prelude.{◌≤◌, length};

use std::io;

// No section has it where it was not written, and zeroed memory does not have it.
pub const FILL: u8 = 0xa5;

// Says so where the output is not as it was, from a place on.
pub fn say_kept(rt: &impl Print, out: &[u8], from: usize) -> io::Result<()>
    requires { from ≤ length out.now }
{
    let kept = script::run_of(out, from, FILL);
    if kept < out.len() {
        print!(rt; "; output CHANGED at {kept}")?;
    }
    Ok(())
}

// The work memory: zero as far as it was lent, and as it was behind that.
pub fn say_work(rt: &impl Print, work: &[u8], lent: usize) -> io::Result<()>
    requires { lent ≤ length work.now }
{
    let zeros = script::run_of(work, 0, 0);
    let kept = script::run_of(work, lent, FILL);
    if zeros < lent {
        print!(rt; "; work memory NOT ZERO at {zeros}")
    } else if kept < work.len() {
        print!(rt; "; MORE than the work memory changed, at {kept}")
    } else {
        print!(rt; "; work memory zero")
    }
}
