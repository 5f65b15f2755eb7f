// Space-or-tab.

ghost use Rattle.std.specs.Prelude.{◌≡◌, ◌+◌, ◌*◌, ◌≤◌, length};
ghost use Rattle.lines.specs.Spaces.{spaces_in, spaces_of};

use record::check::Refusal;
use scan::columns::reached;
use scan::line::check_line;

// The bytes taken, and the columns left of a cut tab.
#[derive(Clone, Copy, PartialEq, Eq)]
pub struct Taken {
    pub bytes: usize,
    pub left: usize,
}

// The spaces and tabs in front of a line that starts at a column, at least `min` and at most `max` columns of them; none where these are too few.
pub fn spaces_in(line: &[u8], column: usize, min: usize, max: usize) -> Option<Taken>
    requires { column + 4 * length line.now ≤ 81920 }
    ensures { result ≡ spaces_in line.now column min max }
{
    let reach = reached(line, column, max);
    if reach.columns < min {
        return None;
    }
    Some(Taken {
        bytes: reach.bytes,
        left: reach.left,
    })
}

// The same of a line as it is lent, or a refusal.
pub fn space_or_tab(
    line: &[u8],
    options: u32,
    column: usize,
    min: usize,
    max: usize,
) -> Result<Option<Taken>, Refusal>
    ensures { result ≡ spaces_of line.now options column min max }
{
    let end = check_line(line, options, column)?;
    Ok(spaces_in(&line[..end], column, min, max))
}
