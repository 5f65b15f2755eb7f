// Why the first section of a record of form 2, which has the option byte, is refused: the causes of refusals 2 and 3 there. The record of the old
// form has no such section.

use crate::refuse::because;
use record::bytes::u32_at;
use terminal::host::Host;

// The first section is not an option byte: the cause of refusal 2.
pub fn explain_front(host: &mut Host, rec: &[u8]) {
    if rec.len() < 4 {
        return;
    }
    because(
        host,
        if u32_at(rec, 0) == 1 {
            b"the option byte is over 63"
        } else {
            b"the first section's count is not 1"
        },
    );
}

// The first section is not all there: the cause of refusal 3 at the record's start.
pub fn explain_front_length(host: &mut Host, rec: &[u8]) {
    because(
        host,
        if rec.len() < 4 {
            b"the first section's count is cut off"
        } else {
            b"the first section's count runs past the record's end"
        },
    );
}
