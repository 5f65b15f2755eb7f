// The heading reader: whether a line is an ATX heading (CommonMark 0.31 §4.2), and its events, written to an output.

#![tactic(auto)]

ghost use Rattle.std.specs.Prelude.{◌≡◌, ◌+◌, ◌*◌, ◌≤◌, ◌<◌, length};
ghost use Rattle.record.specs.Bytes.{Wrote};
ghost use Rattle.record.specs.Event.{flat};
ghost use Rattle.atx.specs.Heading.{opening, is_heading, piece_of, split, events_from};
ghost use Rattle.atx.specs.Promise.{HeadedIn, HeadedBy};

use record::bytes::put_u32;
use record::check::{Refusal, refused};
use record::event::put_event;
use record::limits::{DATA, ENTER, EXIT, HEADING, HEADING_SEQUENCE, MAX_RESULT, SPACE_OR_TAB};
use scan::columns::indented;
use scan::line::check_line;
use scan::run::{gap, hashes, is_blank, word};

// A piece of a heading line: its name (0, 12 or 14) and how many bytes it has.
#[derive(Clone, Copy)]
pub struct Piece {
    pub name: u8,
    pub size: usize,
}

// Whether an opening sequence stands in front.
pub fn opens(rest: &[u8]) -> bool
    ensures { result ≡ opening rest.now }
{
    let n = hashes(rest);
    if n < 1 {
        return false;
    }
    if n > 6 {
        return false;
    }
    n >= rest.len() || is_blank(rest[n])
}

// Whether a line that starts at a column is a heading.
pub fn is_heading(line: &[u8], options: u32, column: usize) -> bool
    requires { column + 4 * length line.now ≤ 81920 }
    ensures { result ≡ is_heading line.now options column }
{
    if options / 8 % 2 != 1 {
        return false;
    }
    let indent = indented(line, options, column).bytes;
    opens(&line[indent..])
}

// The piece in front.
pub fn next_piece(rest: &[u8]) -> Piece
    requires { 0 < length rest.now }
    ensures { result ≡ piece_of rest.now }
{
    if is_blank(rest[0]) {
        return Piece {
            name: SPACE_OR_TAB,
            size: gap(rest),
        };
    }
    if rest[0] == b'#' {
        return Piece {
            name: HEADING_SEQUENCE,
            size: hashes(rest),
        };
    }
    Piece {
        name: DATA,
        size: word(rest),
    }
}

// How many pieces a line has.
pub fn count_pieces(line: &[u8]) -> usize
    requires { length line.now ≤ 16384 }
    ensures { (result ≡ length (split line.now)) × (result ≤ 16384) }
{
    let mut at = 0;
    let mut n = 0;
    // Kept: a piece says by its length where the next one begins, and nothing is counted.
    while at < line.len() {
        at += next_piece(&line[at..]).size;
        n += 1;
    }
    n
}

// Writes the enter and exit of each piece of a line, from a place of the output on.
pub fn put_pieces(out: &mut [u8], from: usize, line: &[u8])
    requires { (from + 16 * length (split line.now) ≤ length out.old) × (length line.now ≤ 16384) }
    ensures { Wrote out.old from (flat (events_from 0 (split line.now))) out.new }
{
    let mut at = 0;
    let mut to = from;
    // Kept: the places of the pieces are what is written.
    while at < line.len() {
        let Piece { name, size } = next_piece(&line[at..]);
        let end = at + size;
        put_event(out, to, ENTER, name, at);
        put_event(out, to + 8, EXIT, name, end);
        to += 16;
        at = end;
    }
}

// Whether a line is a heading; its events, from enter to exit of 11, are written, and it is said how many. Or a refusal, where these are too many or do not fit.
pub fn headed_in(
    line: &[u8],
    options: u32,
    column: usize,
    out: &mut [u8],
) -> Result<Option<usize>, Refusal>
    requires { (length line.now ≤ 16384) × (column ≤ 16384) }
    ensures { HeadedIn line.now options column out.old result out.new }
{
    if !is_heading(line, options, column) {
        return Ok(None);
    }
    let pieces = count_pieces(line);
    let events = 2 + 2 * pieces;
    if events > MAX_RESULT {
        return refused(7, 0);
    }
    if out.len() < 4 + 8 * events {
        return refused(8, 0);
    }
    put_u32(out, 0, events);
    put_event(out, 4, ENTER, HEADING, 0);
    put_pieces(out, 12, line);
    put_event(out, 12 + 16 * pieces, EXIT, HEADING, line.len());
    Ok(Some(events))
}

// The same of a line as it is lent.
pub fn heading(
    line: &[u8],
    options: u32,
    column: usize,
    out: &mut [u8],
) -> Result<Option<usize>, Refusal>
    ensures { HeadedBy line.now options column out.old result out.new }
{
    let end = check_line(line, options, column)?;
    headed_in(&line[..end], options, column, out)
}
