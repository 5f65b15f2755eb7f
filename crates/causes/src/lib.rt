// Why a line, a text or a record is refused, said in a line on standard error: the refusal's number, its place, its words, and the one cause.
//
// The library answers a number and a place. The cause is found here, from the same bytes, by asking what the library's check or resolver asks. Where the
// parts of a record stand, its form says.

#![tactic(auto)]

pub mod refuse; // a refusal in a line
mod front; // the causes of refusals 2 and 3 in front of the document's count
mod lengths; // the cause of refusal 3
mod shapes; // the cause of refusal 6
mod soundness; // the cause of refusal 5
