// Spaces and tabs counted in columns, up to a maximum.
//
// What stands in front of a line is mostly a stretch of one byte: many spaces, or many tabs. So the scan goes stretch by stretch, the first byte of
// each by itself and what follows it of the same byte at one go, in blocks where it is long. Behind the first tab of a stretch every tab is 4 columns wide.
//
// Columns are at most 81,920: the last at which a line may start, 16,384, and four to each byte of the longest line.

ghost use Rattle.std.specs.Prelude.{◌≡◌, ℕ, ◌+◌, ◌-◌, ◌*◌, ◌≤◌, ◌<◌, length};
ghost use Rattle.record.specs.Choice.{choose};
ghost use Rattle.record.specs.Options.{option_on};
ghost use Rattle.record.specs.Stretch.{of_kind, AllAre, Passed};
ghost use Rattle.scan.specs.Run.{same};
ghost use Rattle.scan.specs.Columns.{width, behind, cut, reach, indentation};

use crate::run::is_blank;
use record::blocks::{ByteKind, pass};

// How many bytes of a stretch go one by one before blocks are tried, which cost a call. No answer depends on it.
const FEW: usize = 16;

// What is taken of the spaces and tabs in front: whole bytes, the columns of these and of a cut tab, and the columns that are left of that tab.
#[derive(Clone, Copy)]
pub struct Reach {
    pub bytes: usize,
    pub columns: usize,
    pub left: usize,
}

// One byte and no other.
fn only(what: u8) -> ByteKind
    ensures { (b : ℕ) → of_kind result b ≡ same what b }
{
    ByteKind {
        one: what,
        other: what,
        within: true,
    }
}

// From a place on past one byte, before an end, in blocks.
fn past_by_block(s: &[u8], from: usize, end: usize, what: u8) -> usize
    requires { (from ≤ end) × (end ≤ length s.now) }
    ensures { Passed (same what) s.now from end 1 result }
{
    pass(s, from, end, only(what))
}

// The same, the first bytes one by one.
fn past(s: &[u8], from: usize, end: usize, what: u8) -> usize
    requires { (from ≤ end) × (end ≤ length s.now) }
    ensures { Passed (same what) s.now from end 1 result }
{
    let near = from + (end - from).min(FEW);
    for at in from..near {
        if s[at] != what {
            return at;
        }
    }
    if near == end {
        return near;
    }
    past_by_block(s, near, end, what)
}

// How many columns wide a space or a tab is at a column.
fn width_at(column: usize, byte: u8) -> usize
    ensures { result ≡ width column byte }
{
    if byte == b'\t' {
        return 4 - column % 4;
    }
    1
}

// Up to the maximum, where the next space or tab goes from one column on to another behind it: a tab is cut only if some of it is taken.
fn cut_at(bytes: usize, columns: usize, max: usize, next: usize) -> Reach
    requires { (columns ≤ max) × (max < next) }
    ensures { result ≡ behind bytes columns (cut (max - columns) (next - columns)) }
{
    if columns == max {
        return Reach {
            bytes,
            columns,
            left: 0,
        };
    }
    Reach {
        bytes,
        columns: max,
        left: next - max,
    }
}

// How many spaces, or tabs from a stop on, there is room for.
fn fitting(byte: u8, room: usize) -> usize
    ensures { (byte ≡ 9 → 4 * result ≤ room) × ((byte ≡ 9 → ⊥) → result ≤ room) }
{
    if byte == b'\t' {
        return room / 4;
    }
    room
}

// How many columns n spaces have, or n tabs from a stop on.
fn spanned(byte: u8, n: usize) -> usize
    requires { n ≤ 81920 }
    ensures { (byte ≡ 9 → result ≡ 4 * n) × ((byte ≡ 9 → ⊥) → result ≡ n) }
{
    if byte == b'\t' {
        return 4 * n;
    }
    n
}

// What is taken of the spaces and tabs in front, the first of which stands at a column, up to a maximum of columns: stretch by stretch, behind some spaces
// that are passed already.
fn reached_by_stretch(rest: &[u8], column: usize, max: usize, spaces: usize) -> Reach
    requires { (column + 4 * length rest.now ≤ 81920) × (spaces ≤ length rest.now) × (spaces ≤ max) × AllAre (same 32) rest.now 0 spaces }
    ensures { result ≡ reach max column rest.now }
{
    let mut at = spaces;
    let mut columns = spaces;
    // Kept: a step is a stretch of one byte, however long, and no index is counted.
    while at < rest.len() {
        let byte = rest[at];
        if !is_blank(byte) {
            return Reach {
                bytes: at,
                columns,
                left: 0,
            };
        }
        let next = columns + width_at(column + columns, byte);
        if next > max {
            return cut_at(at, columns, max, next);
        }
        at += 1;
        let fit = fitting(byte, max - next);
        let to = past(rest, at, at + fit.min(rest.len() - at), byte);
        columns = next + spanned(byte, to - at);
        at = to;
    }
    Reach {
        bytes: at,
        columns,
        left: 0,
    }
}

// The same. Mostly there are a few spaces and no tab, which are bytes of one column: these go one by one in the caller itself, without a call.
pub fn reached(rest: &[u8], column: usize, max: usize) -> Reach
    requires { column + 4 * length rest.now ≤ 81920 }
    ensures { result ≡ reach max column rest.now }
{
    let near = rest.len().min(max).min(FEW);
    for n in 0..near {
        if rest[n] != b' ' {
            if rest[n] == b'\t' {
                return reached_by_stretch(rest, column, max, n);
            }
            return Reach {
                bytes: n,
                columns: n,
                left: 0,
            };
        }
    }
    if near < FEW {
        return Reach {
            bytes: near,
            columns: near,
            left: 0,
        };
    }
    reached_by_stretch(rest, column, max, near)
}

// How many columns of indentation a list item or a heading may have: 3, or without option 32 as many as a line can have.
fn most_indented(line: &[u8], options: u32) -> usize
    requires { length line.now ≤ 81920 }
    ensures { result ≡ choose (option_on options 32) 3 (4 * length line.now) }
{
    if options / 32 % 2 == 1 {
        return 3;
    }
    4 * line.len()
}

// The indentation that a list item or a heading may have: at most 3 columns, or free without option 32.
pub fn indented(line: &[u8], options: u32, column: usize) -> Reach
    requires { column + 4 * length line.now ≤ 81920 }
    ensures { result ≡ indentation options column line.now }
{
    reached(line, column, most_indented(line, options))
}
