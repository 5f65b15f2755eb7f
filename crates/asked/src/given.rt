// The events that the arguments of `record` spell.
//
// One event past the limit is enough for their record to be refused for it. So a section has room for 2,049 of them, which are 16,392 bytes behind
// its count.

ghost use Rattle.std.specs.Prelude.{◌+◌, ◌≤◌, length};

use crate::input::RECORD_ROOM;
use record::bytes::put_u32;
use record::event::put_event;
use record::limits::MAX_EVENTS;
use terminal::host::{Host, argument, argument_count};
use terminal::notation::event_in;
use terminal::number::Misspelt;
use terminal::say::{Status, blame, blame_word};
use terminal::words::is_between;

// Writes the event that a word spells, at a place of the section. Where it spells none that is said.
fn put_word(host: &mut Host, word: &[u8], section: &mut [u8], to: usize) -> Result<(), Status>
    requires { to + 8 ≤ length section.old }
{
    match event_in(word) {
        Ok(event) => {
            put_event(section, to, event.kind, event.name, event.place);
            Ok(())
        }
        Err(Misspelt::TooLarge) => Err(blame_word(host, b"too large", word)),
        Err(Misspelt::Other) => Err(blame_word(host, b"not an event", word)),
    }
}

// The word that stands in front, and what is behind it.
fn first_word(words: &[u8]) -> (&[u8], &[u8]) {
    let end = words.iter().position(|byte| is_between(*byte));
    words.split_at(end.unwrap_or(words.len()))
}

// Writes the events that words spell behind so many that are there already; how many there are then.
fn put_words(
    host: &mut Host,
    words: &[u8],
    section: &mut [u8],
    events: usize,
) -> Result<usize, Status>
    requires { 16396 ≤ length section.old }
{
    let mut events = events;
    let mut rest = words;
    // What stands between two words is gone over by one search, however much it is.
    while let Some(start) = rest.iter().position(|byte| !is_between(*byte)) {
        if events > MAX_EVENTS {
            break;
        }
        let (word, behind) = first_word(&rest[start..]);
        put_word(host, word, section, 4 + 8 * events)?;
        events += 1;
        rest = behind;
    }
    Ok(events)
}

// The same for the words of argument i. The longest words for as many events as a record takes fit here.
fn put_argument(
    host: &mut Host,
    i: usize,
    section: &mut [u8],
    events: usize,
) -> Result<usize, Status>
    requires { 16396 ≤ length section.old }
{
    let mut words = [0u8; RECORD_ROOM];
    let Some(n) = argument(host, i, &mut words) else {
        return Err(blame(host, b"too long", i));
    };
    put_words(host, &words[..n], section, events)
}

// Writes the section of the events that the arguments from a number on spell; how many they are. Where a word spells none that is said.
pub fn put_given(host: &mut Host, first: usize, section: &mut [u8]) -> Result<usize, Status> {
    if section.len() < RECORD_ROOM {
        return Err(Status::Wrong);
    }
    let mut events = 0;
    for i in first..argument_count(host) {
        events = put_argument(host, i, section, events)?;
    }
    put_u32(section, 0, events);
    Ok(events)
}
