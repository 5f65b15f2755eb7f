// Words, which stand between spaces.

ghost use Rattle.std.specs.Prelude.{◌≡◌, ◌||◌, ◌==◌};

// Whether a byte stands between words.
pub fn is_between(byte: u8) -> bool
    ensures { result ≡ (byte == 32 || byte == 9 || byte == 10) }
{
    matches!(byte, b' ' | b'\t' | b'\n')
}
