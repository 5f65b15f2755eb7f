// The words for the names of events, as the crate for Rust has them too.

use crate::host::Host;
use crate::say::say;

// The words for the names 0 to 24.
const WORDS: [&str; 25] = [
    "Data",
    "AttentionSequence",
    "Emphasis",
    "EmphasisSequence",
    "EmphasisText",
    "Strong",
    "StrongSequence",
    "StrongText",
    "GfmStrikethrough",
    "GfmStrikethroughSequence",
    "GfmStrikethroughText",
    "HeadingAtx",
    "HeadingAtxSequence",
    "HeadingAtxText",
    "SpaceOrTab",
    "ListItem",
    "ListItemPrefix",
    "ListItemMarker",
    "ListItemValue",
    "ListOrdered",
    "ListUnordered",
    "LineEnding",
    "BlankLineEnding",
    "BlockQuotePrefix",
    "OtherContainer",
];

// The name that a word is for, in small letters or capitals.
pub fn named(word: &[u8]) -> Option<u8> {
    let name = WORDS
        .iter()
        .position(|known| known.as_bytes().eq_ignore_ascii_case(word))?;
    u8::try_from(name).ok()
}

// The word for a name, on standard output.
pub fn say_word(host: &mut Host, name: u8) {
    if let Some(word) = WORDS.get(usize::from(name)) {
        say(host, word.as_bytes());
    }
}
