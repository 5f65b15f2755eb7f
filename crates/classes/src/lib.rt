// The class of a character that stands beside a run of markers.
//
// An ASCII character's is in one constant table of 128 entries; that the table says what the definition says is one computed test. Past ASCII it goes by
// Unicode's ranges. The compiler lays a table out anew wherever it is named, so whoever has look-ups to do makes the two once and lends them; the ranges only
// where they are needed.

#![tactic(auto)]

ghost use Rattle.std.specs.Prelude.{◌≡◌, false, ◌≤◌, ◌<◌};
ghost use Rattle.characters.specs.Index.{Indexed};
ghost use Rattle.classes.specs.Class.{class_of};
ghost use Rattle.classes.specs.Lent.{AsciiTable, Lent, lacks as lacksRanges};

use characters::ranges::{is_punctuation, is_space};

#[derive(Clone, Copy, PartialEq, Eq)]
pub enum Class {
    Other,
    Whitespace,
    Punctuation,
}

// For each ASCII character its class.
const CLASSES: [Class; 128] = [
    Class::Other, // zero byte
    Class::Other, // control 1
    Class::Other, // control 2
    Class::Other, // control 3
    Class::Other, // control 4
    Class::Other, // control 5
    Class::Other, // control 6
    Class::Other, // control 7
    Class::Other, // control 8
    Class::Whitespace, // tab
    Class::Whitespace, // line feed
    Class::Other, // vertical tab
    Class::Whitespace, // form feed
    Class::Other, // carriage return
    Class::Other, // control 14
    Class::Other, // control 15
    Class::Other, // control 16
    Class::Other, // control 17
    Class::Other, // control 18
    Class::Other, // control 19
    Class::Other, // control 20
    Class::Other, // control 21
    Class::Other, // control 22
    Class::Other, // control 23
    Class::Other, // control 24
    Class::Other, // control 25
    Class::Other, // control 26
    Class::Other, // escape
    Class::Other, // control 28
    Class::Other, // control 29
    Class::Other, // control 30
    Class::Other, // control 31
    Class::Whitespace, // space
    Class::Punctuation, // !
    Class::Punctuation, // "
    Class::Punctuation, // #
    Class::Punctuation, // $
    Class::Punctuation, // %
    Class::Punctuation, // &
    Class::Punctuation, // '
    Class::Punctuation, // (
    Class::Punctuation, // )
    Class::Punctuation, // *
    Class::Punctuation, // +
    Class::Punctuation, // ,
    Class::Punctuation, // -
    Class::Punctuation, // .
    Class::Punctuation, // /
    Class::Other, // 0
    Class::Other, // 1
    Class::Other, // 2
    Class::Other, // 3
    Class::Other, // 4
    Class::Other, // 5
    Class::Other, // 6
    Class::Other, // 7
    Class::Other, // 8
    Class::Other, // 9
    Class::Punctuation, // :
    Class::Punctuation, // ;
    Class::Punctuation, // <
    Class::Punctuation, // =
    Class::Punctuation, // >
    Class::Punctuation, // ?
    Class::Punctuation, // @
    Class::Other, // A
    Class::Other, // B
    Class::Other, // C
    Class::Other, // D
    Class::Other, // E
    Class::Other, // F
    Class::Other, // G
    Class::Other, // H
    Class::Other, // I
    Class::Other, // J
    Class::Other, // K
    Class::Other, // L
    Class::Other, // M
    Class::Other, // N
    Class::Other, // O
    Class::Other, // P
    Class::Other, // Q
    Class::Other, // R
    Class::Other, // S
    Class::Other, // T
    Class::Other, // U
    Class::Other, // V
    Class::Other, // W
    Class::Other, // X
    Class::Other, // Y
    Class::Other, // Z
    Class::Punctuation, // [
    Class::Punctuation, // \
    Class::Punctuation, // ]
    Class::Punctuation, // ^
    Class::Punctuation, // _
    Class::Punctuation, // `
    Class::Other, // a
    Class::Other, // b
    Class::Other, // c
    Class::Other, // d
    Class::Other, // e
    Class::Other, // f
    Class::Other, // g
    Class::Other, // h
    Class::Other, // i
    Class::Other, // j
    Class::Other, // k
    Class::Other, // l
    Class::Other, // m
    Class::Other, // n
    Class::Other, // o
    Class::Other, // p
    Class::Other, // q
    Class::Other, // r
    Class::Other, // s
    Class::Other, // t
    Class::Other, // u
    Class::Other, // v
    Class::Other, // w
    Class::Other, // x
    Class::Other, // y
    Class::Other, // z
    Class::Punctuation, // {
    Class::Punctuation, // |
    Class::Punctuation, // }
    Class::Punctuation, // ~
    Class::Other, // delete
];

// The table of ASCII characters, to be lent.
pub fn ascii_classes() -> [Class; 128]
    ensures { AsciiTable result }
{
    CLASSES
}

// The class of a character past ASCII, by the table of punctuation.
fn class_past_ascii(marks: &[u32], c: u32) -> Class
    requires { Indexed marks.now × (128 ≤ c) }
    ensures { result ≡ class_of c }
{
    if is_space(c) {
        Class::Whitespace
    } else if is_punctuation(marks, c) {
        Class::Punctuation
    } else {
        Class::Other
    }
}

// Whether a character is past ASCII while the ranges are not lent.
#[tactic(auto, unfolding(crate::specs::Lent::lacks))]
pub fn lacks(marks: &[u32], c: u32) -> bool
    ensures { result ≡ lacksRanges marks.now c }
{
    marks.is_empty() && c >= 128
}

// The class of a character, by the two tables.
pub fn class_of(ascii: &[Class], marks: &[u32], c: u32) -> Class
    requires { Lent ascii.now marks.now × (lacksRanges marks.now c ≡ false) }
    ensures { result ≡ class_of c }
{
    if c < 128 {
        ascii[c as usize]
    } else {
        class_past_ascii(marks, c)
    }
}
