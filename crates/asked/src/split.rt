// A text made into events: each longest run of one marker whose option is on is an attention run, and all between is data.

ghost use Rattle.std.specs.Prelude.{◌+◌, ◌≤◌, ◌<◌, length};

use record::bytes::put_u32;
use record::event::put_event;
use record::limits::{ATTENTION_SEQUENCE, DATA, ENTER, EXIT, MAX_EVENTS};
use terminal::marker::marker;

// The name of a piece, by its first byte.
fn name_of(piece: &[u8], options: u32) -> u8 {
    match piece.first() {
        Some(byte) if marker(*byte, options).is_some() => ATTENTION_SEQUENCE,
        _ => DATA,
    }
}

// Writes the enter and exit of a piece, at a place of the section.
fn put_piece(section: &mut [u8], to: usize, name: u8, from: usize, end: usize)
    requires { to + 16 ≤ length section.old }
{
    put_event(section, to, ENTER, name, from);
    put_event(section, to + 8, EXIT, name, end);
}

// Writes the enter and exit of each piece behind the section's count; how many events. A pair past the limit is enough for their record to be
// refused for it. The places stay within the text, so no sum of lengths is cut off.
fn put_pieces(text: &[u8], options: u32, section: &mut [u8]) -> usize {
    let mut at: usize = 0;
    let mut events = 0;
    for piece in text.chunk_by(|a, b| marker(*a, options) == marker(*b, options)) {
        if events > MAX_EVENTS || section.len() < 20 + 8 * events {
            break;
        }
        let end = at.saturating_add(piece.len());
        put_piece(section, 4 + 8 * events, name_of(piece, options), at, end);
        events += 2;
        at = end;
    }
    events
}

// Writes the section of a text's events; how many they are.
pub fn put_split(text: &[u8], options: u32, section: &mut [u8]) -> usize {
    if section.len() < 4 {
        return 0;
    }
    let events = put_pieces(text, options, section);
    put_u32(section, 0, events);
    events
}
