// The rule of attention: what a next match is, and the small questions that a resolver asks of runs.
//
// The definitions stand in specs/, from the record's runs to the output; no definition there knows how a resolver stores its runs. The code
// here is what every resolver needs of them: whether a run can open or close, and whether a closer takes an opener.

#![tactic(auto)]

ghost use Rattle.std.specs.Prelude.{◌≡◌, true, false, not, ◌&&◌};
ghost use Rattle.characters.specs.Beside.{Character};
ghost use Rattle.classes.specs.Lent.{Lent, lacks};
ghost use Rattle.runs.specs.Flanking.{beside_marker, can_open, can_close};
ghost use Rattle.runs.specs.Paragraph.{is_other, first_by, opens_by};
ghost use Rattle.runs.specs.Rule.{threes as threesOf, tildes as tildesOf};

use classes::{Class, class_of};

// The most tildes that a side of a strikethrough has.
const MOST_TILDES: usize = 2;

// The next match from a run on: its opener, its closer and the candidates tried for it; or that there is none, and those tried.
// Kept: both ends carry the candidates tried, so that neither Option nor Result has its shape.
#[derive(Clone, Copy)]
pub enum Next {
    Match {
        opener: usize,
        closer: usize,
        tried: usize,
    },
    Done {
        tried: usize,
    },
}

// Whether a character is a marker that lets a run of this marker open or close beside it.
#[tactic(auto, unfolding(crate::specs::Flanking::beside_marker))]
fn beside_marker(strike: bool, marker: u8, c: u32) -> bool
    ensures { result ≡ beside_marker strike marker (Character c) }
{
    marker != b'~' && (c == b'*' as u32 || c == b'_' as u32 || (c == b'~' as u32 && strike))
}

// Whether a class is neither whitespace nor punctuation.
fn is_other(class: Class) -> bool
    ensures { result ≡ is_other class }
{
    matches!(class, Class::Other)
}

// The first result: whether a run can open between characters of these classes, of which the second is `beside`, before what `_` asks beyond it.
#[tactic(auto, unfolding(crate::specs::Paragraph::first_by))]
fn first_open(strike: bool, marker: u8, before: Class, after: Class, beside: u32) -> bool
    ensures { result ≡ first_by strike marker before after (Character beside) }
{
    match after {
        Class::Other => true,
        Class::Whitespace => beside_marker(strike, marker, beside),
        Class::Punctuation => !is_other(before) || beside_marker(strike, marker, beside),
    }
}

// Whether it can open: the first result, and for `_` what is asked beyond it.
#[tactic(auto, unfolding(crate::specs::Paragraph::opens_by, record::specs::Choice::choose))]
fn opens_by(strike: bool, marker: u8, before: Class, left: u32, after: Class, right: u32) -> bool
    ensures { result ≡ opens_by strike marker before (Character left) after (Character right) }
{
    first_open(strike, marker, before, after, right)
        && (marker != b'_' || !is_other(before) || !first_open(strike, marker, after, before, left))
}

// Whether a run can open, and whether it can close.
#[derive(Clone, Copy)]
pub struct Flanks {
    pub opens: bool,
    pub closes: bool,
}

// What a run of this marker can do between these two characters. To close is to open with before and after exchanged. Each class is looked up once, by the
// two tables that are lent, the ranges among them if one of the characters is past ASCII.
pub fn flanking(
    ascii: &[Class],
    marks: &[u32],
    strike: bool,
    marker: u8,
    before: u32,
    after: u32,
) -> Flanks
    requires { Lent ascii.now marks.now × (lacks marks.now before ≡ false) × (lacks marks.now after ≡ false) }
    ensures { (result.opens ≡ can_open true strike marker (Character before) (Character after)) × (result.closes ≡ can_close true strike marker (Character before) (Character after)) }
{
    let left = class_of(ascii, marks, before);
    let right = class_of(ascii, marks, after);
    Flanks {
        opens: opens_by(strike, marker, left, before, right, after),
        closes: opens_by(strike, marker, right, after, left, before),
    }
}

// Whether the rule of three forbids a match of these sizes; `both` says that one side can both open and close.
#[tactic(auto, unfolding(crate::specs::Rule::threes))]
fn threes(both: bool, opener: usize, closer: usize) -> bool
    ensures { result ≡ threesOf both opener closer }
{
    both && closer % 3 != 0 && (opener % 3 + closer % 3) % 3 == 0
}

// Whether the rule of tildes forbids a match of these sizes.
#[tactic(auto, unfolding(crate::specs::Rule::tildes))]
fn tildes(single: bool, marker: u8, opener: usize, closer: usize) -> bool
    ensures { result ≡ tildesOf single marker opener closer }
{
    marker == b'~' && (opener != closer || closer > MOST_TILDES || (closer == 1 && !single))
}

// Whether a closer takes an opener of its marker and container, by what is left of both.
pub fn eligible(single: bool, both: bool, marker: u8, opener: usize, closer: usize) -> bool
    ensures { result ≡ (not (threesOf both opener closer) && not (tildesOf single marker opener closer)) }
{
    !threes(both, opener, closer) && !tildes(single, marker, opener, closer)
}
