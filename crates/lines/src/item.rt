// List item start.

ghost use Rattle.std.specs.Prelude.{◌≡◌, ◌+◌, ◌*◌, ◌≤◌, length};
ghost use Rattle.lines.specs.Item.{break_mark, marks_only, thematic_break, bullet_mark, ordered_mark, may_start, ordered_of, marker_of, item_with, start_after, start_in, start_of};

use crate::container::{Container, Kind};
use record::check::Refusal;
use scan::columns::{Reach, indented, reached};
use scan::line::check_line;
use scan::run::{byte_at, digits, is_blank, is_blank_line};

// A list marker and its width.
#[derive(Clone, Copy)]
pub struct Marker {
    pub kind: Kind,
    pub width: usize,
}

// What is taken of an item's first line, in bytes and in the columns left of a cut tab, and the container that opens.
#[derive(Clone, Copy)]
pub struct Item {
    pub taken: usize,
    pub left: usize,
    pub container: Container,
}

// Whether a byte is a bullet: `*`, `+` or `-`.
pub fn is_bullet(byte: u8) -> bool
    ensures { result ≡ bullet_mark byte }
{
    matches!(byte, b'*' | b'+' | b'-')
}

// Whether a byte makes thematic breaks: `*`, `-` or `_`.
pub fn is_break(byte: u8) -> bool
    ensures { result ≡ break_mark byte }
{
    matches!(byte, b'*' | b'-' | b'_')
}

// Whether a byte ends an ordered marker: `.` or `)`.
pub fn is_ordered(byte: u8) -> bool
    ensures { result ≡ ordered_mark byte }
{
    matches!(byte, b'.' | b')')
}

// Whether there are three or more of a mark, and else only spaces and tabs.
pub fn marks_only(rest: &[u8], mark: u8) -> bool
    ensures { result ≡ marks_only mark rest.now }
{
    let mut marks: usize = 0;
    for byte in rest {
        if *byte == mark {
            marks += 1;
        } else if !is_blank(*byte) {
            return false;
        }
    }
    marks >= 3
}

// Whether what follows the indentation is a thematic break.
pub fn is_thematic_break(rest: &[u8]) -> bool
    ensures { result ≡ thematic_break rest.now }
{
    let mark = byte_at(rest, 0);
    is_break(mark) && marks_only(rest, mark)
}

// Whether the digits in front may stand where a paragraph is interrupted, if one is.
pub fn may_start(rest: &[u8], interrupting: bool) -> bool
    ensures { result ≡ may_start interrupting rest.now }
{
    !interrupting || digits(rest) == 1 && byte_at(rest, 0) == b'1'
}

// The ordered list marker in front.
pub fn ordered_in(rest: &[u8], interrupting: bool) -> Option<Marker>
    ensures { result ≡ ordered_of interrupting rest.now }
{
    let n = digits(rest);
    if n < 1 {
        return None;
    }
    if n > 9 {
        return None;
    }
    let mark = byte_at(rest, n);
    if !is_ordered(mark) {
        return None;
    }
    if !may_start(rest, interrupting) {
        return None;
    }
    Some(Marker {
        kind: Kind::Ordered(mark),
        width: n + 1,
    })
}

// The list marker in front.
pub fn marker_in(rest: &[u8], interrupting: bool) -> Option<Marker>
    ensures { result ≡ marker_of interrupting rest.now }
{
    let byte = byte_at(rest, 0);
    if !is_bullet(byte) {
        return ordered_in(rest, interrupting);
    }
    if is_thematic_break(rest) {
        return None;
    }
    Some(Marker {
        kind: Kind::Bullet(byte),
        width: 1,
    })
}

// An item with a filled rest: what is taken up to the marker's end, and of the spaces and tabs behind it.
fn filled_item(kind: Kind, before: Reach, padding: Reach) -> Option<Item>
    requires { (before.bytes + padding.bytes ≤ 16384) × (before.columns + padding.columns ≤ 81920) }
    ensures { result ≡ item_with kind before padding }
{
    Some(Item {
        taken: before.bytes + padding.bytes,
        left: padding.left,
        container: Container {
            kind,
            size: before.columns + padding.columns,
            blank: false,
        },
    })
}

// What follows the marker, at a column, after what is taken up to the marker's end. Five of its columns say how many the item takes, and mostly end
// where it is seen not to be blank.
pub fn start_after(
    rest: &[u8],
    column: usize,
    interrupting: bool,
    kind: Kind,
    before: Reach,
) -> Option<Item>
    requires { (column + 4 * length rest.now ≤ 81920) × (before.columns ≤ 65546) × (before.bytes + length rest.now ≤ 16384) }
    ensures { result ≡ start_after interrupting kind before column rest.now }
{
    let five = reached(rest, column, 5);
    if is_blank_line(rest, five.bytes) {
        if interrupting {
            return None;
        }
        let size = before.columns + 1;
        return Some(Item {
            taken: before.bytes,
            left: 0,
            container: Container {
                kind,
                size,
                blank: true,
            },
        });
    }
    if five.columns == 0 {
        return None;
    }
    if five.columns == 5 {
        return filled_item(kind, before, reached(rest, column, 1));
    }
    filled_item(kind, before, five)
}

// A list item that starts on a line that starts at a column.
pub fn start_in(line: &[u8], options: u32, column: usize, interrupting: bool) -> Option<Item>
    requires { (length line.now ≤ 16384) × (column ≤ 16384) }
    ensures { result ≡ start_in line.now options column interrupting }
{
    if options / 16 % 2 != 1 {
        return None;
    }
    let indent = indented(line, options, column);
    let bytes = indent.bytes;
    let rest = &line[bytes..];
    let Marker { kind, width } = marker_in(rest, interrupting)?;
    let before = Reach {
        bytes: bytes + width,
        columns: indent.columns + width,
        left: 0,
    };
    start_after(
        &rest[width..],
        column + before.columns,
        interrupting,
        kind,
        before,
    )
}

// The same of a line as it is lent, or a refusal.
pub fn list_item(
    line: &[u8],
    options: u32,
    column: usize,
    interrupting: bool,
) -> Result<Option<Item>, Refusal>
    ensures { result ≡ start_of line.now options column interrupting }
{
    let end = check_line(line, options, column)?;
    Ok(start_in(&line[..end], options, column, interrupting))
}
