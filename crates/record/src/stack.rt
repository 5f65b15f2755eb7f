// The open events: a fixed stack of 64 names held beside a depth.
//
// A loop over events holds one as a local and stores into its fields in place: a copy for each event would cost more than the rest of the
// check. specs/Stack.antt reads it as a list, the innermost first; proofs/Names.antt says what a store and a step back do to that list.

ghost use Rattle.std.specs.Prelude.{◌≡◌, replicate};

// Kept: an array with a depth beside it is the form that document 01 names for the open events; the library has no heap.
#[derive(Clone, Copy)]
pub struct Open {
    pub names: [u8; 64],
    pub numbers: [usize; 64],
    pub depth: usize,
}

impl Open {
    // None open.
    pub fn new() -> Open
        ensures { (result.depth ≡ 0) × (result.names ≡ replicate 64 0) × (result.numbers ≡ replicate 64 0) }
    {
        Open {
            names: [0u8; 64],
            numbers: [0usize; 64],
            depth: 0,
        }
    }
}
