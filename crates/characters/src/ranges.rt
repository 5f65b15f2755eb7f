// Whether a character lies in one of the ranges of a table.
//
// The compiler lays a constant table out on the stack wherever it is named. So the large one is made once, by whoever has look-ups to do, and lent to each of
// them; the small one is made at each look-up, 28 bytes.

ghost use Rattle.std.specs.Prelude.{◌≡◌, true};
ghost use Rattle.characters.specs.Ranges.{member, unpacked, rising};
ghost use Rattle.characters.specs.Tables.{punctuation_ranges, space_ranges};
ghost use Rattle.characters.specs.Index.{Indexed};

use super::tables::{PUNCTUATION, SPACES};

// Whether c lies in one of some ranges in rising order and apart, each of which is one number. Of those that begin at c or before, it can only be in the last.
fn in_ranges(ranges: &[u32], c: u32) -> bool
    requires { rising 0 (unpacked ranges.now) ≡ true }
    ensures { result ≡ member (unpacked ranges.now) c }
{
    // The ranges that begin at c or before are the numbers below this, however far they go.
    let behind = 2048 * (u64::from(c) + 1);
    let begun = ranges.partition_point(|range| u64::from(*range) < behind);
    if begun == 0 {
        return false;
    }
    let range = ranges[begun - 1];
    c <= range / 2048 + range % 2048
}

// The table of punctuation, to be lent.
pub fn punctuation() -> [u32; 478]
    ensures { Indexed result }
{
    PUNCTUATION
}

// Whether c is of the general category P or S, by the table of punctuation: among the ranges that the index has for its 1,024 code points.
pub fn is_punctuation(table: &[u32], c: u32) -> bool
    requires { Indexed table.now }
    ensures { result ≡ member punctuation_ranges c }
{
    if c >= 131072 {
        return false;
    }
    let (index, ranges) = table.split_at(129);
    let block = (c / 1024) as usize;
    let from = index[block] as usize;
    let to = index[block + 1] as usize;
    in_ranges(&ranges[from..=to], c)
}

// Whether c is of the general category Zs. Most letters stand past the last one, the ideographic space, or below the third, the Ogham space mark.
pub fn is_space(c: u32) -> bool
    ensures { result ≡ member space_ranges c }
{
    if 12288 < c {
        return false;
    }
    if c < 5760 {
        return in_ranges(&SPACES[..2], c);
    }
    in_ranges(&SPACES, c)
}
