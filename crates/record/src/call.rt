// The public call on a record as such: is it good, and what are its counts?

ghost use Rattle.record.specs.Promise.{Read};

use crate::bytes::wipe;
use crate::check::{Counts, Refusal, admit};
use crate::form::Handed;

// Numbers 1 to 5, or the two counts; the whole of the work memory is zero afterwards, whatever it held and whatever is answered.
pub fn read(handed: Handed, s: &[u8], work: &mut [u8]) -> Result<Counts, Refusal>
    ensures { Read handed s.now work.old result work.new }
{
    let found = admit(handed, s, work.len());
    wipe(work);
    found
}
