// The system as the program meets it: the arguments that it was started with, and the two streams that words are said on.

ghost use Rattle.std.specs.Prelude.{◌≤◌, length, IfSome};

use std::env::FillError;
use std::io;
use std::io::ErrorKind;
use std::rt::Env;

// A stream that words are said on: standard output, or standard error.
#[derive(Clone, Copy)]
pub enum Stream {
    Output,
    Complaints,
}

// The system, and what became of the streams: each is closed once words could not be written on it. Where nobody reads a stream any more, `unread` says so,
// and both are closed.
#[derive(Drop)]
pub struct Host {
    pub rt: HostRuntime,
    output_closed: bool,
    complaints_closed: bool,
    unread: bool,
}

impl Host {
    // The system, with both streams open.
    pub fn new(rt: HostRuntime) -> Host {
        Host {
            rt,
            output_closed: false,
            complaints_closed: false,
            unread: false,
        }
    }
}

// Whether a stream is closed.
pub fn is_closed(host: &Host, stream: Stream) -> bool {
    match stream {
        Stream::Output => host.output_closed,
        Stream::Complaints => host.complaints_closed,
    }
}

// Closes a stream.
fn close(host: &mut Host, stream: Stream) {
    match stream {
        Stream::Output => host.output_closed = true,
        Stream::Complaints => host.complaints_closed = true,
    }
}

// Closes a stream that could not be written, for this reason.
pub fn close_for(host: &mut Host, stream: Stream, error: io::Error) {
    close(host, stream);
    if error.kind() == ErrorKind::BrokenPipe {
        host.unread = true;
        close(host, Stream::Output);
        close(host, Stream::Complaints);
    }
}

// Whether nobody reads what was to be written on one of the streams.
pub fn is_unread(host: &Host) -> bool {
    host.unread
}

// Puts argument i at the start of a buffer: its length, or none where it is missing or longer than the buffer, which then has its first bytes.
pub fn argument(host: &Host, i: usize, buffer: &mut [u8]) -> Option<usize>
    ensures { IfSome result (λ n. n ≤ length buffer.new) }
{
    host.rt.arg(i, buffer).ok()
}

// The same, with 0 for none.
pub fn argument_length(host: &Host, i: usize, buffer: &mut [u8]) -> usize
    ensures { result ≤ length buffer.new }
{
    argument(host, i, buffer).unwrap_or(0)
}

// Whether argument i is there.
fn has_argument(host: &Host, i: usize) -> bool {
    let mut buffer = [0u8; 1];
    !matches!(host.rt.arg(i, &mut buffer), Err(FillError::NotPresent))
}

// How many arguments the program was started with, its own name among them.
pub fn argument_count(host: &Host) -> usize {
    for i in 0..usize::MAX {
        if !has_argument(host, i) {
            return i;
        }
    }
    usize::MAX
}
