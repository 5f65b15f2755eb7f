// Bytes of one kind, passed in blocks: several at a step while there are several left.
//
// A block is looked at without a branch, so that the compiler makes a few instructions on vectors of the loop over its bytes. Which byte of a
// block is of another kind is left to narrower blocks, at last to those of one byte, which are the loop by the byte. No block goes past the end.

ghost use Rattle.std.specs.Prelude.{◌≡◌, ℕ, ◌+◌, ◌≤◌, ◌<◌, length};
ghost use Rattle.record.specs.Stretch.{of_kind, is_not, Tells, Passed};

// The widths of blocks: one for what is long, one for a line's length, and one so that no more than seven bytes are left. No answer depends on
// them; none is 0.
pub const WIDE: usize = 128;

pub const MIDDLE: usize = 32;

pub const NARROW: usize = 8;

// A kind of byte: either of two, where `within` is set, else neither of them.
#[derive(Clone, Copy)]
pub struct ByteKind {
    pub one: u8,
    pub other: u8,
    pub within: bool,
}

// Whether the `width` bytes at a place are all of the kind.
pub fn block_is(s: &[u8], at: usize, width: usize, kind: ByteKind) -> bool
    requires { at + width ≤ length s.now }
    ensures { Tells (of_kind kind) s.now at (at + width) result }
{
    let mut all = true;
    for k in 0..width {
        let byte = s[at + k];
        let either = (byte == kind.one) | (byte == kind.other);
        all = all & (either == kind.within);
    }
    all
}

// From one place on towards another, past whole blocks of `width` bytes of the kind.
pub fn pass_blocks(s: &[u8], from: usize, end: usize, width: usize, kind: ByteKind) -> usize
    requires { (from ≤ end) × (end ≤ length s.now) × (0 < width) }
    ensures { Passed (of_kind kind) s.now from end width result }
{
    let mut at = from;
    // Kept: a step is a block and not a byte, and the answer is the place; over `chunks_exact` that would be counted beside.
    while end - at >= width {
        if !block_is(s, at, width, kind) {
            return at;
        }
        at += width;
    }
    at
}

// The same to the end, or to the first byte of another kind: where wide blocks end narrower ones go on, at last by the byte. It is put into its callers, so that
// the kind is known where the blocks are looked at: a kind that is a value costs twice the time.
#[inline(always)]
pub fn pass(s: &[u8], from: usize, end: usize, kind: ByteKind) -> usize
    requires { (from ≤ end) × (end ≤ length s.now) }
    ensures { Passed (of_kind kind) s.now from end 1 result }
{
    let wide = pass_blocks(s, from, end, WIDE, kind);
    let middle = pass_blocks(s, wide, end, MIDDLE, kind);
    let narrow = pass_blocks(s, middle, end, NARROW, kind);
    pass_blocks(s, narrow, end, 1, kind)
}

// Every byte but one.
pub fn all_but(what: u8) -> ByteKind
    ensures { (b : ℕ) → of_kind result b ≡ is_not what b }
{
    ByteKind {
        one: what,
        other: what,
        within: false,
    }
}

// The first place of a byte, from one place on and before another; that other place, if there is none.
pub fn find(s: &[u8], from: usize, end: usize, what: u8) -> usize
    requires { (from ≤ end) × (end ≤ length s.now) }
    ensures { Passed (is_not what) s.now from end 1 result }
{
    pass(s, from, end, all_but(what))
}
