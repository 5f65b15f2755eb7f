// The check that every line reader begins with: numbers 2, 3 and 4 over all of the lent line, and where it ends.

ghost use Rattle.std.specs.Prelude.{◌≡◌, ◌≤◌, length, eqb};
ghost use Rattle.record.specs.Choice.{choose};
ghost use Rattle.scan.specs.Line.{end_of, checked_line};

use record::blocks::find;
use record::check::{Refusal, first_return, refused};
use record::limits::MAX_OPTIONS;

// The longest line.
pub const MAX_LINE: usize = 16384;

// The last column that a line may start at.
pub const MAX_COLUMN: usize = 16384;

// Lines shorter than this go by the byte, where blocks would cost two calls. No answer depends on it. A loop over eight bytes or fewer the compiler writes
// out byte for byte, which makes `check_line` too large to be put into its callers.
const SHORT: usize = 10;

// The place of the first line feed, or the place after the last byte.
pub fn line_end(s: &[u8]) -> usize
    ensures { (result ≡ end_of s.now) × (result ≤ length s.now) }
{
    find(s, 0, s.len(), b'\n')
}

// A place where a byte is the one that is looked for, else the place that is held.
fn here_or(byte: u8, what: u8, at: usize, held: usize) -> usize
    ensures { result ≡ choose (eqb byte what) at held }
{
    if byte == what {
        return at;
    }
    held
}

// Number 4, or where the line ends, in one pass by the byte: from the last byte to the first, so that at the end the first line feed and the first
// carriage return are held. The compiler puts this into its caller, and `find` not: so a short line is spared two calls.
fn check_short(s: &[u8]) -> Result<usize, Refusal>
    requires { length s.now ≤ 16384 }
    ensures { result ≡ checked_line s.now 0 0 }
{
    let mut feed = s.len();
    let mut back = s.len();
    for n in (0..s.len()).rev() {
        feed = here_or(s[n], b'\n', n, feed);
        back = here_or(s[n], b'\r', n, back);
    }
    if back < s.len() {
        return refused(4, back);
    }
    Ok(feed)
}

// Numbers 2, 3 and 4, the lowest first, or the length of the line proper.
pub fn check_line(s: &[u8], options: u32, column: usize) -> Result<usize, Refusal>
    ensures { result ≡ checked_line s.now options column }
{
    if (options > MAX_OPTIONS) | (column > MAX_COLUMN) {
        return refused(2, 0);
    }
    if s.len() > MAX_LINE {
        return refused(3, MAX_LINE);
    }
    if s.len() < SHORT {
        return check_short(s);
    }
    let end = line_end(s);
    let returned = first_return(s, 0, s.len());
    if returned < s.len() {
        return refused(4, returned);
    }
    Ok(end)
}
