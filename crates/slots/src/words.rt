// Numbers of two bytes, the lower first.

ghost use Rattle.std.specs.Prelude.{◌≡◌, ◌+◌, ◌<◌, length};
ghost use Rattle.slots.specs.Words.{get16 as get, put16 as put};

// The number that the two bytes at a place make.
pub fn get16(s: &[u8], at: usize) -> usize
    requires { at + 1 < length s.now }
    ensures { (result ≡ get s.now at) × (result < 65536) }
{
    s[at] as usize + 256 * (s[at + 1] as usize)
}

// A number as two bytes, at a place.
pub fn put16(s: &mut [u8], at: usize, v: usize)
    requires { (at + 1 < length s.old) × (v < 65536) }
    ensures { s.new ≡ put s.old at v }
{
    s[at] = (v % 256) as u8;
    s[at + 1] = (v / 256) as u8;
}
