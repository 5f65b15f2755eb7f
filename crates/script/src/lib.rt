// The notation of the test scripts: a line of words that spell the bytes of a record or of a message's line.
//
//     "*a*"        these bytes, up to the next quote
//     #3           a count: four bytes, the lowest first
//     x0d          one byte in hex; x0d*7 is seven of them
//     +1@0 -1@1    an event: enter (+) or exit (-), its name and its place
//     =9           the last sixteen bytes, two events of the old form, nine times more
//     ^2*9         the last two events nine times more, each time with the places of both two further on
//
// Three words are for a record of form 2:
//
//     %59          the first section: a count of 1, and the option byte
//     +1@0/7       an event whose partner number is 7, whatever the true one is
//     !25=07       the byte at place 25 of all that is spelled so far replaced by this one, in hex
//
// Such a record is spelled with events of twelve bytes. An event has its true partner's number, unless the word gives another or a byte of it is
// replaced. One that has no partner has its own number; so has an enter until its exit is spelled, and it is no use to give that one.
//
// A word that is none of these spells nothing. Bytes that do not fit the lent buffer are dropped.

#![tactic(auto)]

mod spelled; // the bytes that words spell
pub mod second; // the events of form 2, and their true partners

ghost use Rattle.std.specs.Prelude.{◌+◌, ◌≤◌, ◌<◌, length};

use crate::spelled::Spelled;
use std::io::Read;

// The place of the next byte that is no space, from a place on.
pub fn skip(s: &[u8], at: usize) -> usize
    requires { at ≤ length s.now }
    ensures { (at ≤ result) × (result ≤ length s.now) }
{
    run_of(s, at, b' ')
}

// The place of the next byte of this value, from a place on, or the end.
pub fn find(s: &[u8], at: usize, byte: u8) -> usize
    requires { at ≤ length s.now }
    ensures { (at ≤ result) × (result ≤ length s.now) }
{
    at + s[at..].iter().take_while(|b| **b != byte).count()
}

// The place of the first byte that has another value, from a place on, or the end.
pub fn run_of(s: &[u8], at: usize, byte: u8) -> usize
    requires { at ≤ length s.now }
    ensures { (at ≤ result) × (result ≤ length s.now) }
{
    at + s[at..].iter().take_while(|b| **b == byte).count()
}

// The next word of a line, up to a space; it and the spaces before it are cut off the line's front. At the end it is empty.
pub fn next_word<'a>(line: &mut &'a [u8]) -> &'a [u8]
    ensures { length result.now + length line.new.now ≤ length line.old.now }
{
    let from_word = &line[skip(line, 0)..];
    let (word, rest) = from_word.split_at(find(from_word, 0, b' '));
    *line = rest;
    word
}

// The number that the decimal digits at a place make; past 12 digits the rest is dropped.
pub fn number(s: &[u8], at: usize) -> usize
    requires { at ≤ length s.now }
    ensures { result < 1000000000010 }
{
    let mut value: usize = 0;
    for b in &s[at..] {
        if !b.is_ascii_digit() || value >= 100000000000 {
            break;
        }
        value = value * 10 + digit(*b);
    }
    value
}

// The value of a digit, decimal or hex in small letters; of any other byte 0.
fn digit(byte: u8) -> usize
    ensures { result < 16 }
{
    match byte {
        b'0'..=b'9' => usize::from(byte - b'0'),
        b'a'..=b'f' => usize::from(byte - b'a') + 10,
        _ => 0,
    }
}

// All that the words of a line spell, from a place on, with events of this width: 8 bytes, or 12 for form 2; how many bytes.
pub fn spell_by(s: &[u8], at: usize, width: usize, out: &mut [u8]) -> usize
    requires { (at ≤ length s.now) × (8 ≤ width) × (width ≤ 12) }
    ensures { result ≤ length out.new }
{
    let mut spelled = Spelled::new(out, width);
    let mut rest = &s[at..];
    while let Some((sign, behind)) = rest.split_first() {
        match *sign {
            b' ' => rest = behind,
            b'"' => {
                let (text, quote) = behind.split_at(find(behind, 0, b'"'));
                spelled.copy(text);
                rest = quote.strip_prefix(b"\"").unwrap_or(quote);
            }
            _ => {
                let (word, next) = behind.split_at(find(behind, 0, b' '));
                spelled.spell(*sign, word);
                rest = next;
            }
        }
    }
    spelled.len
}

// All that the words of a line spell, from a place on, with the old form's events; how many bytes.
pub fn spell(s: &[u8], at: usize, out: &mut [u8]) -> usize
    requires { at ≤ length s.now }
    ensures { result ≤ length out.new }
{
    spell_by(s, at, 8, out)
}

// The next bytes of a source, to the front of a buffer, until that is full, the source ends or a read fails; how many there were.
// Kept: `read_exact` of std does not say how many bytes there were before the end, and reads on where one read fails for a signal.
pub fn read_full(from: &mut impl Read, buffer: &mut [u8]) -> usize
    ensures { result ≤ length buffer.new }
{
    let mut got = 0;
    while got < buffer.len() {
        match from.read(&mut buffer[got..]) {
            Ok(more) if more > 0 => got += more,
            _ => break,
        }
    }
    got
}
