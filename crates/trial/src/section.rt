// The section that a call wrote, read back byte by byte.

ghost use Rattle.std.specs.Prelude.{◌+◌, ◌*◌, ◌≤◌, length};

use crate::buffers::say_kept;
use record::bytes::u32_at;
use record::event::event_at;
use record::form::{Handed, form_of};
use script::second::paired;
use std::io;

// The event in these bytes, as a script has it. One of form 2 has its partner's number too. The third and the fourth byte have to be zero.
fn say_event(rt: &impl Print, bytes: &[u8]) -> io::Result<()>
    requires { 8 ≤ length bytes.now }
{
    let e = event_at(bytes, 0);
    let sign = match e.kind {
        0 => "+",
        1 => "-",
        _ => "KIND ",
    };
    print!(rt; " {sign}{}@{}", e.name, e.place)?;
    if bytes.len() >= 12 {
        print!(rt; "/{}", u32_at(bytes, 8))?;
    }
    if bytes[2] != 0 || bytes[3] != 0 {
        print!(rt; " NOT ZERO")?;
    }
    Ok(())
}

// Whether the n events of form 2 behind the count are pairs, all of them, that have each other's numbers.
fn say_pairs(rt: &impl Print, out: &[u8], n: usize) -> io::Result<()>
    requires { (n ≤ 8000) × (4 + 12 * n ≤ length out.now) }
{
    let mut exits: usize = 0;
    for k in 0..n {
        let at = 4 + 12 * k;
        if out[at] == 1 {
            if !paired(out, 4, at) {
                return print!(rt; " partner UNTRUE at {at}");
            }
            exits += 1;
        }
    }
    if 2 * exits != n {
        return print!(rt; " LEFT OPEN");
    }
    print!(rt; " partners true")
}

// A section of n events: its count as it stands there, which need not be n; its events, unless they are to be left out; and the output
// behind it. A section longer than the output, or than document 01 allows, is not said at all.
fn say_section(rt: &impl Print, out: &[u8], n: usize, width: usize, brief: bool) -> io::Result<()>
    requires { (8 ≤ width) × (width ≤ 12) }
{
    if n > 8000 || 4 + width * n > out.len() {
        return Ok(());
    }
    print!(rt; "; {}:", u32_at(out, 0))?;
    let end = 4 + width * n;
    if !brief {
        for bytes in out[4..end].chunks_exact(width) {
            say_event(rt, bytes)?;
        }
    } else if width == 12 {
        say_pairs(rt, out, n)?;
    }
    say_kept(rt, out, end)
}

// The output after a call.
pub fn say_output(
    rt: &impl Print,
    out: &[u8],
    handed: Handed,
    written: Option<usize>,
    brief: bool,
) -> io::Result<()> {
    match written {
        None => say_kept(rt, out, 0),
        Some(n) => say_section(rt, out, n, form_of(handed).width, brief),
    }
}
