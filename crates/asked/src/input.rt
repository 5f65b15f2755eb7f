// Texts and records, from arguments, files and standard input. What could not be had is said, and is the status that the command leaves with.

ghost use Rattle.std.specs.Prelude.{◌≤◌, length};

use crate::args::{Asked, RecordForm};
use record::form::Handed;
use std::fs::File;
use std::io;
use std::io::Read;
use std::str::from_utf8;
use terminal::host::{Host, argument};
use terminal::say::{Status, fail};

// Reads until a buffer is full, its source has no more, or a read fails; how many bytes it has then.
// Kept: `read_exact` of std does not say how many bytes came before the end; and the same function of `script` is of a crate for tests, on which `lark` does not stand.
fn read_full<R: Read>(from: &mut R, buffer: &mut [u8]) -> usize
    ensures { result ≤ length buffer.new }
{
    let mut done = 0;
    while done < buffer.len() {
        match from.read(&mut buffer[done..]) {
            Ok(0) | Err(_) => break,
            Ok(n) => done += n,
        }
    }
    done
}

// All that a source has, as far as the buffer goes. The first read shows whether it can be read at all: a directory cannot.
fn read_all<'a, R: Read>(from: &mut R, buffer: &'a mut [u8]) -> io::Result<&'a [u8]> {
    let first = from.read(buffer)?;
    if first == 0 {
        return Ok(&[]);
    }
    let n = first + read_full(from, &mut buffer[first..]);
    Ok(&buffer[..n])
}

// All that standard input has, as far as the buffer goes.
fn read_input<'a>(host: &mut Host, buffer: &'a mut [u8]) -> Result<&'a [u8], Status> {
    match read_all(&mut host.rt.stdin(), buffer) {
        Ok(bytes) => Ok(bytes),
        Err(error) => Err(fail(host, b"standard input", error)),
    }
}

// A text and a line have at most 16,384 bytes. A buffer for one has two more: one for the line feed at the end of standard input, and one that
// shows that the text is too long, which is all that the library needs to refuse it for that.
pub const TEXT_ROOM: usize = 16386;

// The text that is asked about. Of an argument that does not fit it is the beginning; of standard input it is all but the line feed at the end.
pub fn text_asked<'a>(
    host: &mut Host,
    asked: Asked,
    buffer: &'a mut [u8],
) -> Result<&'a [u8], Status> {
    let Some(text) = asked.operand else {
        let bytes = read_input(host, buffer)?;
        return Ok(bytes.strip_suffix(b"\n").unwrap_or(bytes));
    };
    match argument(host, text.argument, buffer) {
        Some(n) => Ok(&buffer[..n]),
        None => Ok(buffer),
    }
}

// The system's numbers for the errors that are known before it is asked: no such file, and a name that is too long.
const NOT_FOUND: i32 = 2;

const NAME_TOO_LONG: i32 = 36;

// A file to read. A name that is not UTF-8 is no file's here, since `std` opens none by such a name.
fn open_read(host: &Host, path: &[u8]) -> io::Result<File> {
    match from_utf8(path) {
        Ok(name) => File::open(&host.rt, name),
        Err(_) => Err(io::Error::from_raw_os_error(NOT_FOUND)),
    }
}

// All that a file has, as far as the buffer goes.
fn read_file<'a>(host: &Host, path: &[u8], buffer: &'a mut [u8]) -> io::Result<&'a [u8]> {
    let mut file = open_read(host, path)?;
    read_all(&mut file, buffer)
}

// A record has at most 8 + 16,384 + 8 × 2,048 = 32,776 bytes, and in form 2 at most 13 + 16,384 + 12 × 2,048 = 40,973. Of a longer one a buffer of
// more has all that its refusal hangs on: its counts, and a byte behind the last section. As many are for the section of a record, and for a call's
// work, of which the library asks 65,536 bytes.
pub const RECORD_ROOM: usize = 65536;

// A resolver's section has at most 4 + 8 × 8,000 = 64,004 bytes, and in form 2 at most 4 + 12 × 8,000.
pub const RESULT_ROOM: usize = 96004;

// The record in a file, or on standard input where the file's name is a dash.
fn read_record<'a>(host: &mut Host, path: &[u8], buffer: &'a mut [u8]) -> Result<&'a [u8], Status> {
    if path == b"-".as_slice() {
        return read_input(host, buffer);
    }
    match read_file(host, path, buffer) {
        Ok(bytes) => Ok(bytes),
        Err(error) => Err(fail(host, path, error)),
    }
}

// No file's name is longer.
const LONGEST_NAME: usize = 4096;

// The record that is asked about.
pub fn record_asked<'a>(
    host: &mut Host,
    asked: Asked,
    buffer: &'a mut [u8],
) -> Result<&'a [u8], Status> {
    let Some(file) = asked.operand else {
        return read_input(host, buffer);
    };
    let mut path = [0u8; LONGEST_NAME];
    let Some(n) = argument(host, file.argument, &mut path) else {
        let error = io::Error::from_raw_os_error(NAME_TOO_LONG);
        return Err(fail(host, b"the file's name", error));
    };
    read_record(host, &path[..n], buffer)
}

// How the record that is asked about, or that is made, is handed over: in the old form, with the options beside it, or in form 2, with them in it.
pub fn handed_asked(asked: Asked) -> Handed {
    match asked.form {
        RecordForm::Old => Handed::Old(asked.options()),
        RecordForm::Second => Handed::Second,
    }
}
