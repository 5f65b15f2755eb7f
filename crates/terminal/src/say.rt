// Words on standard output and on standard error, and the statuses that a command leaves with.
//
// `say` answers whether its words were written. A command asks that of its last words alone: where words could not be written their stream is
// closed, so that those fail too. An output that does not block could take them otherwise, with a gap before them.

ghost use Rattle.std.specs.Prelude.{◌≡◌, if◌then◌else◌};

use crate::host::{Host, Stream, argument, close_for, is_closed};
use crate::quoted::put_escaped;
use std::fmt::{Display, InlineText};
use std::{fmt, io};

// The status that a command leaves with, which is printed as its digit. It is wrong where the arguments are bad, or an input or output fails.
#[derive(Clone, Copy, PartialEq, Eq)]
pub enum Status {
    Answered,
    Refused,
    Wrong,
}

impl Display for Status {
    fn fmt<W: fmt::Write>(&self, f: &mut fmt::Formatter<W>) -> fmt::Result {
        f.write_str(match self {
            Status::Answered => "0",
            Status::Refused => "1",
            Status::Wrong => "2",
        })
    }
}

// Whether words were written on a stream; where they were not it is closed.
fn or_close(host: &mut Host, stream: Stream, written: io::Result<()>) -> bool {
    match written {
        Ok(()) => true,
        Err(error) => {
            close_for(host, stream, error);
            false
        }
    }
}

// Words on a stream; whether they were written.
pub fn write(host: &mut Host, stream: Stream, text: &[u8]) -> bool {
    if is_closed(host, stream) {
        return false;
    }
    let written = match stream {
        Stream::Output => host.rt.stdout().write_all(text),
        Stream::Complaints => host.rt.stderr().write_all(text),
    };
    or_close(host, stream, written)
}

// What a value is printed as, on a stream; whether it was written.
pub fn print<D: Display + Drop>(host: &mut Host, stream: Stream, value: D) -> bool {
    if is_closed(host, stream) {
        return false;
    }
    let written = match stream {
        Stream::Output => host.rt.stdout().print(value),
        Stream::Complaints => host.rt.stderr().print(value),
    };
    or_close(host, stream, written)
}

// Kept: `say` here and `complain` below are two names for `write`, one for each stream; a stream named at each of their calls would be no plainer.
// Words on standard output; whether they were written.
pub fn say(host: &mut Host, text: &[u8]) -> bool {
    write(host, Stream::Output, text)
}

// A line feed; whether it was written.
pub fn end_line(host: &mut Host) -> bool {
    say(host, b"\n")
}

// Words on standard error.
pub fn complain(host: &mut Host, text: &[u8]) {
    write(host, Stream::Complaints, text);
}

// The status of a command whose last words were written, or were not.
pub fn done(host: &mut Host, written: bool) -> Status
    ensures { result ≡ if written then Status.Answered else Status.Wrong }
{
    if written {
        return Status::Answered;
    }
    complain(host, b"lark: standard output cannot be written\n");
    Status::Wrong
}

// What is wrong, in a line.
pub fn wrong(host: &mut Host, what: &[u8]) -> Status
    ensures { result ≡ Status.Wrong }
{
    complain(host, b"lark: ");
    complain(host, what);
    complain(host, b"; see lark help\n");
    Status::Wrong
}

// A word of the user's, escaped as a text is, or two quotes for one that is empty.
fn complain_word(host: &mut Host, word: &[u8]) {
    if word.is_empty() {
        complain(host, b"''");
    } else {
        put_escaped(host, Stream::Complaints, word);
    }
}

// Such a word; of a long one the beginning.
fn complain_beginning(host: &mut Host, word: &[u8]) {
    if word.len() > 40 {
        complain_word(host, &word[0..40]);
        complain(host, b"..");
    } else {
        complain_word(host, word);
    }
}

// What is wrong with a word, in a line.
pub fn blame_word(host: &mut Host, what: &[u8], word: &[u8]) -> Status
    ensures { result ≡ Status.Wrong }
{
    complain(host, b"lark: ");
    complain(host, what);
    complain(host, b": ");
    complain_beginning(host, word);
    complain(host, b"; see lark help\n");
    Status::Wrong
}

// What is wrong with argument i, in a line. One that does not fit here is longer than what is said of it.
pub fn blame(host: &mut Host, what: &[u8], i: usize) -> Status
    ensures { result ≡ Status.Wrong }
{
    let mut word = [0u8; 41];
    match argument(host, i, &mut word) {
        Some(n) => blame_word(host, what, &word[..n]),
        None => blame_word(host, what, &word),
    }
}

// The system's words for an error. The number of the error, which `std` prints behind them, is left out.
fn complain_reason(host: &mut Host, error: io::Error) {
    let text = InlineText::<128>::of(error);
    match text.as_str().split_once(" (os error ") {
        Some((reason, _)) => complain(host, reason.as_bytes()),
        None => complain(host, text.as_str().as_bytes()),
    }
}

// What failed, as a file's name or other words, in a line that ends with the system's reason.
pub fn fail(host: &mut Host, what: &[u8], error: io::Error) -> Status
    ensures { result ≡ Status.Wrong }
{
    complain(host, b"lark: ");
    complain_word(host, what);
    complain(host, b": ");
    complain_reason(host, error);
    complain(host, b"\n");
    Status::Wrong
}
