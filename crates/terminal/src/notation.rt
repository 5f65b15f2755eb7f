// Document 01's notation of an event, as -t prints it in the old form: + for enter or - for exit, the name in digits or in a word, @ and the place.

use crate::names::named;
use crate::number::{Misspelt, spelled};
use record::event::Event;
use record::limits::{ENTER, EXIT};

// The number of a name that is given in digits or in a word.
fn name_in(word: &[u8]) -> Result<u32, Misspelt> {
    match spelled(word) {
        Err(Misspelt::Other) => named(word).map(u32::from).ok_or(Misspelt::Other),
        number => number,
    }
}

// An event of a kind, by its name and its place. A record has a byte for a name.
fn event_by(kind: u8, name: u32, place: u32) -> Result<Event, Misspelt> {
    let Ok(name) = u8::try_from(name) else {
        return Err(Misspelt::TooLarge);
    };
    Ok(Event {
        kind,
        name,
        place: place as usize,
    })
}

// An event's kind by its sign.
fn kind_of(sign: u8) -> Option<u8> {
    match sign {
        b'+' => Some(ENTER),
        b'-' => Some(EXIT),
        _ => None,
    }
}

// The event that a word spells. It is too large where all in it is spelled well but a number.
pub fn event_in(word: &[u8]) -> Result<Event, Misspelt> {
    let Some((sign, spelling)) = word.split_first() else {
        return Err(Misspelt::Other);
    };
    let Some(kind) = kind_of(*sign) else {
        return Err(Misspelt::Other);
    };
    let Some(at) = spelling.iter().position(|byte| *byte == b'@') else {
        return Err(Misspelt::Other);
    };
    match (name_in(&spelling[..at]), spelled(&spelling[at + 1..])) {
        (Ok(name), Ok(place)) => event_by(kind, name, place),
        (Err(Misspelt::Other), _) | (_, Err(Misspelt::Other)) => Err(Misspelt::Other),
        _ => Err(Misspelt::TooLarge),
    }
}
