// Runs of bytes of one kind at the front of what is left of a line.
//
// The scan of spaces and tabs tells whether a line, or what is left of one, is blank. Its promise is what it finds, not how: where there are many it goes in
// blocks, since pasted logs have hundreds of spaces before each line. How wide they are is the module `columns`. Runs of digits, of `#` and of text, and the gaps
// between the words of a heading, are short and go by the byte.

ghost use Rattle.std.specs.Prelude.{◌≡◌, ℕ, Bool, ◌≤◌, ◌<◌, length, get_or};
ghost use Rattle.record.specs.Stretch.{of_kind};
ghost use Rattle.scan.specs.Run.{space_or_tab, leading, digit, hash, filled, blank, blanks};

use record::blocks::{ByteKind, pass};

// How many spaces and tabs go one by one before blocks are tried, which cost a call. No answer depends on it.
const FEW: usize = 16;

// Whether a byte is a space or a tab.
pub fn is_blank(byte: u8) -> bool
    ensures { result ≡ space_or_tab byte }
{
    matches!(byte, b' ' | b'\t')
}

// The byte at a place, or 0, which stands for nothing, past the end.
// Kept: 0 and no None, since the definitions (`first` in specs/Run.antt and what goes by it) have it for a byte that is not there.
pub fn byte_at(rest: &[u8], n: usize) -> u8
    ensures { result ≡ get_or rest.now n 0 }
{
    if n < rest.len() {
        return rest[n];
    }
    0
}

// Whether a byte is a digit.
pub fn is_digit(byte: u8) -> bool
    ensures { result ≡ digit byte }
{
    byte.is_ascii_digit()
}

// A space or a tab.
fn blank_kind() -> ByteKind
    ensures { (b : ℕ) → of_kind result b ≡ space_or_tab b }
{
    ByteKind {
        one: 32,
        other: 9,
        within: true,
    }
}

// How many spaces and tabs stand in front, in blocks.
fn blanks_by_block(rest: &[u8]) -> usize
    ensures { result ≡ blanks rest.now }
{
    pass(rest, 0, rest.len(), blank_kind())
}

// Whether a byte is `#`.
fn is_hash(byte: u8) -> bool
    ensures { result ≡ hash byte }
{
    byte == b'#'
}

// Whether a byte is neither a space nor a tab.
fn is_filled(byte: u8) -> bool
    ensures { result ≡ filled byte }
{
    !is_blank(byte)
}

// How many bytes in front are of a kind, which `is` tells of each. Runs are short, and a call costs as much as they do.
#[inline(always)]
fn leading<K: Fn(u8) -> bool>(rest: &[u8], is: K) -> usize
    ghost kind: { ℕ → Bool }
    requires callable { K.IsAlwaysCallable is }
    requires tells { (b : ℕ) (r : Bool) → b < 256 → K.post is b r → r ≡ kind b }
    ensures { result ≡ leading kind rest.now }
{
    for (n, byte) in rest.iter().enumerate() {
        if !is(*byte) {
            return n;
        }
    }
    rest.len()
}

// How many spaces and tabs stand in front. Mostly they are few: so the first bytes go one by one, and blocks follow only where all of these are such.
fn blanks(rest: &[u8]) -> usize
    ensures { result ≡ blanks rest.now }
{
    let near = rest.len().min(FEW);
    let n = leading(&rest[..near], is_blank);
    if n < FEW {
        return n;
    }
    blanks_by_block(rest)
}

// Whether a line is blank. Its byte at a place is looked at first, any place: mostly a reader came to one that is neither a space nor a tab.
pub fn is_blank_line(line: &[u8], place: usize) -> bool
    ensures { result ≡ blank line.now }
{
    if place < line.len() {
        if !is_blank(line[place]) {
            return false;
        }
    }
    blanks(line) == line.len()
}

// How many spaces and tabs stand in front, one by one: for the gaps of a heading, each of which is a scan, and mostly of one byte.
pub fn gap(rest: &[u8]) -> usize
    ensures { result ≡ blanks rest.now }
{
    leading(rest, is_blank)
}

// How many digits stand in front.
pub fn digits(rest: &[u8]) -> usize
    ensures { result ≡ leading digit rest.now }
{
    leading(rest, is_digit)
}

// How many `#` stand in front.
pub fn hashes(rest: &[u8]) -> usize
    ensures { result ≡ leading hash rest.now }
{
    leading(rest, is_hash)
}

// How many bytes stand before the next space or tab, or the end.
pub fn word(rest: &[u8]) -> usize
    ensures { result ≡ leading filled rest.now }
{
    leading(rest, is_filled)
}
