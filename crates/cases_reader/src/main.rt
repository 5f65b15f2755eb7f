// Reads one event of each record of the script on standard input by its number, and says what was found.
//
// A line of the script: a label, the number of an event, and the record in the notation of the crate `script`. A line that begins with a space
// is passed over. An event is said by its kind, name and place. The reader checks nothing: records that no call would take are read too.

#![tactic(auto)]

use reader::event_number;
use record::event::Event;
use std::io;

// The event that was found, or that the record ends before it; and the end of the line.
fn say_found(rt: &impl Print, found: Option<Event>) -> io::Result<()> {
    match found {
        Some(event) => println!(rt; "event {} {} {}", event.kind, event.name, event.place),
        None => println!(rt; "end"),
    }
}

// One line of the script: the label up to the first space, the number, and the record.
fn line(rt: &impl Print, s: &[u8], bytes: &mut [u8]) -> io::Result<()> {
    let first = script::find(s, 0, b' ');
    if first == 0 {
        return Ok(());
    }
    rt.write_all(&s[..first])?;
    rt.write_all(b": ")?;
    let number = script::skip(s, first);
    let second = script::find(s, number, b' ');
    let n = script::spell(s, second, bytes);
    say_found(rt, event_number(&bytes[..n], script::number(s, number)))
}

// All lines of the script, with one buffer for the records that they spell.
fn run(rt: &impl Print, text: &[u8]) -> io::Result<()> {
    let mut bytes = [0u8; 65536];
    for s in text.split(|b| *b == b'\n') {
        line(rt, s, &mut bytes)?;
    }
    Ok(())
}

// The script on standard input, up to 65,536 bytes of it.
fn main(rt: HostRuntime) -> io::Result<()> {
    let mut text = [0u8; 65536];
    let n = script::read_full(&mut rt.reader(), &mut text);
    run(&rt, &text[..n])
}
