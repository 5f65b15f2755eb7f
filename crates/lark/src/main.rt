// lark: what the library makes of a text, a line or a record, for the terminal. `help.rt` has the commands.
// What it says is in the crate `terminal`, what it is asked in `asked`, and why something is refused in `causes`.
//
// Where its first argument is `--status` it writes the digit 0, 1 or 2 to descriptor 3, and the script `lark` at the repository's root, which
// asks for that, leaves with it. The script reads TERM and NO_COLOR too, and says `--styled` in place of `--status` where `show` is to use a
// terminal's styles. Nobody else needs to pass either: the script always says one of them first, so that what its user says is the command.
//
// Each command finds out first whether something is wrong, and writes then, so that nothing is on standard output where something is.

#![tactic(auto)]

mod help; // help and version
mod line; // the command `line`
mod resolve; // the commands on records
mod show; // the commands `show` and `record`

use asked::args::{Asked, Takes, arguments, say_fault};
use asked::input::{RECORD_ROOM, TEXT_ROOM, record_asked, text_asked};
use help::{Wish, say_help, say_version, wish_from};
use line::read_line;
use resolve::{run_attention, run_headings, run_lists, run_read};
use show::{record_text, show_text};
use std::fs::OpenOptions;
use std::io::Write;
use std::process::ExitCode;
use terminal::host::{Host, Stream, argument_count, argument_length, is_unread};
use terminal::say::{Status, blame, done};

// The descriptor that a status is written to, where that is asked for, by its name.
const STATUS_FILE: &str = "/dev/fd/3";

// What a shell shows of a program that a signal ends since nobody reads what it writes any more. This one ends with it as its status then.
const UNREAD: u8 = 141;

// A command whose arguments begin with number `next`, on the input that they stand for: how that is read into a buffer, and what is answered on it. It
// answers only where its arguments are good and the input can be had. Each command has a frame of its own on the stack, with no room for the others' buffers.
#[inline(never)]
fn on_input<R, F>(
    host: &mut Host,
    takes: Takes,
    next: usize,
    buffer: &mut [u8],
    read: R,
    answer: F,
) -> Status
where
    R: for<'a> FnOnce(&mut Host, Asked, &'a mut [u8]) -> Result<&'a [u8], Status>,
    F: FnOnce(&mut Host, &[u8], Asked) -> Status,
    requires reads { R.IsAlwaysCallable read }
    requires answers { F.IsAlwaysCallable answer }
{
    let asked = match arguments(host, next, takes) {
        Ok(asked) => asked,
        Err(fault) => return say_fault(host, fault),
    };
    match read(host, asked, buffer) {
        Ok(input) => answer(host, input, asked),
        Err(status) => status,
    }
}

// A command on a text.
fn on_text<F: FnOnce(&mut Host, &[u8], Asked) -> Status>(
    host: &mut Host,
    takes: Takes,
    next: usize,
    answer: F,
) -> Status
    requires { F.IsAlwaysCallable answer }
{
    on_input(host, takes, next, &mut [0u8; TEXT_ROOM], text_asked, answer)
}

// A command on a record.
fn on_record<F: FnOnce(&mut Host, &[u8], Asked) -> Status>(
    host: &mut Host,
    takes: Takes,
    next: usize,
    answer: F,
) -> Status
    requires { F.IsAlwaysCallable answer }
{
    on_input(
        host,
        takes,
        next,
        &mut [0u8; RECORD_ROOM],
        record_asked,
        answer,
    )
}

// The command `help`.
fn answer_help(host: &mut Host) -> Status {
    let written = say_help(host, Stream::Output);
    done(host, written)
}

// The command `version`.
fn answer_version(host: &mut Host) -> Status {
    let written = say_version(host);
    done(host, written)
}

// The command is argument i. One that does not fit the word is none of ours.
fn command_at(host: &mut Host, i: usize, styled: bool) -> Status {
    if i >= argument_count(host) {
        say_help(host, Stream::Complaints);
        return Status::Wrong;
    }
    let mut word = [0u8; 16];
    let n = argument_length(host, i, &mut word);
    let next = i + 1;
    match &word[..n] {
        b"show" => on_text(
            host,
            Takes::Text,
            next,
            |host, text, asked| show_text(host, text, asked, styled),
        ),
        b"line" => on_text(host, Takes::Line, next, read_line),
        b"record" => on_text(host, Takes::TextAndEvents, next, record_text),
        b"attention" => on_record(host, Takes::FileOfEvents, next, run_attention),
        b"headings" => on_record(host, Takes::FileOfEvents, next, run_headings),
        b"lists" => on_record(host, Takes::FileOfEvents, next, run_lists),
        b"read" => on_record(host, Takes::File, next, run_read),
        b"help" => answer_help(host),
        b"version" => answer_version(host),
        _ => blame(host, b"no such command", i),
    }
}

// Help or version, where one of the arguments from number i on asks for it, or the command, which is argument i.
fn answer_from(host: &mut Host, i: usize, styled: bool) -> Status {
    match wish_from(host, i) {
        Some(Wish::Help) => answer_help(host),
        Some(Wish::Version) => answer_version(host),
        None => command_at(host, i, styled),
    }
}

// Writes the status where the script `lark` reads it. The descriptor is opened to be read too: a pipe that nobody reads any more would keep the
// program waiting otherwise.
fn tell(host: &Host, status: Status) {
    let opened = OpenOptions::new()
        .read(true)
        .append(true)
        .open(&host.rt, STATUS_FILE);
    if let Ok(mut file) = opened {
        let _ = write!(file, "{status}");
    }
}

// The answer, whose command is argument i, with its status told where that is asked for.
fn answer_told(host: &mut Host, i: usize, styled: bool, told: bool) -> ExitCode {
    let status = answer_from(host, i, styled);
    if is_unread(host) {
        return ExitCode::from(UNREAD);
    }
    if told {
        tell(host, status);
    }
    ExitCode::SUCCESS
}

// The command is the first argument, or stands behind the word that the script `lark` says.
fn main(rt: HostRuntime) -> ExitCode {
    let mut host = Host::new(rt);
    let mut word = [0u8; 16];
    let n = argument_length(&host, 1, &mut word);
    match &word[..n] {
        b"--status" => answer_told(&mut host, 2, false, true),
        b"--styled" => answer_told(&mut host, 2, true, true),
        _ => answer_told(&mut host, 1, false, false),
    }
}
