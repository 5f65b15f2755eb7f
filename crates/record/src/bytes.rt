// Numbers of four bytes, the lowest first, and the wiping of lent memory.

ghost use Rattle.std.specs.Prelude.{◌≡◌, ◌+◌, ◌≤◌, ◌<◌, length, replicate};
ghost use Rattle.record.specs.Bytes.{u32_at, u32_bytes, Wrote};

// A byte as a number.
pub fn wide(byte: u8) -> usize
    ensures { (result ≡ byte) × (result < 256) }
{
    byte as usize
}

// The number that the four bytes at a place make.
pub fn u32_at(s: &[u8], at: usize) -> usize
    requires { at + 4 ≤ length s.now }
    ensures { (result ≡ u32_at s.now at) × (result < 4294967296) }
{
    wide(s[at]) + 256 * wide(s[at + 1]) + 65536 * wide(s[at + 2]) + 16777216 * wide(s[at + 3])
}

// A number as four bytes, at a place.
pub fn put_u32(out: &mut [u8], at: usize, x: usize)
    requires { at + 4 ≤ length out.old }
    ensures { Wrote out.old at (u32_bytes x) out.new }
{
    out[at] = (x % 256) as u8;
    out[at + 1] = (x / 256 % 256) as u8;
    out[at + 2] = (x / 65536 % 256) as u8;
    out[at + 3] = (x / 16777216 % 256) as u8;
}

// All of it zero, whatever its length.
pub fn wipe(work: &mut [u8])
    ensures { work.new ≡ replicate (length work.old) 0 }
{
    work.fill(0);
}
