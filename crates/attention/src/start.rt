// The chains are empty at the start: every head is written before any is read. The runs in their slots stay as they are.

ghost use Rattle.slots.specs.Layout.{Room};
ghost use Rattle.attention.specs.Start.{Cleared};

use slots::layout::{Head, put};

// Empties every chain.
pub fn clear_heads(w: &mut [u8])
    requires { Room w.old }
    ensures { Cleared w.old 6147 w.new }
{
    for k in 0..6147 {
        put::<Head>(w, k, 0);
    }
}
