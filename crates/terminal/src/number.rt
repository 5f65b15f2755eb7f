// Numbers in decimal digits.

use std::str::from_utf8;

// Why a word is not what it should spell: a number in it is larger than fits there, or it spells something else.
#[derive(Clone, Copy, PartialEq, Eq)]
pub enum Misspelt {
    TooLarge,
    Other,
}

// The number that a word of digits spells, if a record can hold it.
pub fn spelled(word: &[u8]) -> Result<u32, Misspelt> {
    let Ok(text) = from_utf8(word) else {
        return Err(Misspelt::Other);
    };
    if text.is_empty() || !word.iter().all(|byte| byte.is_ascii_digit()) {
        return Err(Misspelt::Other);
    }
    text.parse::<u32>().map_err(|_| Misspelt::TooLarge)
}
