// The test programs' one way to try a call: a script says what to call and on which record, and standard output says what came of it.
//
// A line of a script, its words parted by spaces:
//
//     whole attention 59 84 65536 #3 "*a*" #6 +1@0 -1@1 +0@1 -0@2 +1@2 -1@3
//
// That is a label; the call: `read`, `attention`, `headings` or `lists`; the options; how many bytes of output and of work memory are lent;
// and the record, in the notation of the crate `script`. A line that begins with a space is passed over.
//
// Of each call is said what it answered, then the section as it stands in the output, then what became of the work memory:
//
//     whole: events 10 groups 1 tried 1; 10: +2@0 +3@0 -3@1 +4@1 +0@1 -0@2 -4@2 +3@2 -3@3 -2@3; work memory zero
//
// The calls on form 2 are `read2`, `attention2`, `headings2` and `lists2`. Such a line has no options: its record carries them. Of each event that
// is written the partner's number is said too:
//
//     whole-2 attention2 124 65536 %59 #3 "*a*" #6 +1@0 -1@1 +0@1 -0@2 +1@2 -1@3
//     whole-2: events 10 groups 1 tried 1; 10: +2@0/9 +3@0/2 -3@1/1 +4@1/6 +0@1/5 -0@2/4 -4@2/3 +3@2/8 -3@3/7 -2@3/0; work memory zero
//
// Of a label that begins with `big-` the section's events are left out, and its count is said; of form 2 also whether each event's partner is the
// true one. Both buffers are filled with 0xa5 before each call and looked at whole after it: the output has to be as it was behind the section, and
// all of it where none is written; the work memory has to be zero as far as it was lent, and as it was behind that. What is not as promised is said
// in capitals. That all is well is said too, so that a line that is not run for some reason differs from one that went well.

#![tactic(auto)]

mod section; // what a call wrote
mod buffers; // what a call left as it was, or wiped
mod calls; // the calls, and what they answer
mod ask; // a line's question, and its trial

use crate::ask::line;
use std::io;

// The script on standard input. Of one longer than 131,072 bytes the rest is not run, and its lines are then missing from what is said.
pub fn run(rt: &(impl Input + Print)) -> io::Result<()> {
    let mut text = [0u8; 131072];
    let n = script::read_full(&mut rt.reader(), &mut text);
    for s in text[..n].split(|b| *b == b'\n') {
        line(rt, s)?;
    }
    Ok(())
}
