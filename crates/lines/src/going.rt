// Continuation of a list item.

ghost use Rattle.std.specs.Prelude.{◌≡◌, ◌+◌, ◌*◌, ◌≤◌, length};
ghost use Rattle.lines.specs.Going.{going_in, going_of};

use crate::container::Container;
use record::check::Refusal;
use scan::columns::reached;
use scan::line::check_line;
use scan::run::{byte_at, is_blank, is_blank_line};

// The bytes taken and the columns left of a cut tab, or the finding "not a continuation", each with the container as it then stands.
#[derive(Clone, Copy)]
pub enum Going {
    Goes {
        taken: usize,
        left: usize,
        container: Container,
    },
    Stops {
        container: Container,
    },
}

// Whether a line that starts at a column goes on with a container. The size mostly ends where the line is seen not to be blank.
pub fn going_in(line: &[u8], column: usize, held: Container) -> Going
    requires { column + 4 * length line.now ≤ 81920 }
    ensures { result ≡ going_in line.now column held }
{
    let size = held.size;
    let reach = reached(line, column, size);
    if is_blank_line(line, reach.bytes) {
        if held.blank {
            return Going::Stops { container: held };
        }
        return Going::Goes {
            taken: reach.bytes,
            left: reach.left,
            container: held,
        };
    }
    let clear = held.cleared();
    if !is_blank(byte_at(line, 0)) {
        return Going::Stops { container: clear };
    }
    if reach.columns < size {
        return Going::Stops { container: clear };
    }
    Going::Goes {
        taken: reach.bytes,
        left: reach.left,
        container: clear,
    }
}

// The same of a line as it is lent, or a refusal.
pub fn continuation(
    line: &[u8],
    options: u32,
    column: usize,
    container: Container,
) -> Result<Going, Refusal>
    ensures { result ≡ going_of line.now options column container }
{
    let end = check_line(line, options, column)?;
    Ok(going_in(&line[..end], column, container))
}
