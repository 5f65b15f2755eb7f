// The seven calls, by their numbers in the list and by their names.

ghost use Rattle.replay.specs.Numbers.{Decodes};

use std::fmt;

#[derive(Clone, Copy, PartialEq, Eq)]
pub enum Call {
    Attention,
    Headings,
    Lists,
    SpaceOrTab,
    ListItem,
    Continuation,
    Heading,
}

// All of them, in the order of their numbers.
pub const CALLS: [Call; 7] = [
    Call::Attention,
    Call::Headings,
    Call::Lists,
    Call::SpaceOrTab,
    Call::ListItem,
    Call::Continuation,
    Call::Heading,
];

// A number that no call has.
#[derive(Clone, Copy, Debug, PartialEq, Eq)]
pub struct UnknownCall(pub u32);

impl TryFrom<u32> for Call {
    type Error = UnknownCall;

    ghost try_from_gives = { Decodes };

    fn try_from(number: u32) -> Result<Self, UnknownCall> {
        CALLS
            .get(number as usize)
            .copied()
            .ok_or(UnknownCall(number))
    }
}

impl fmt::Display for Call {
    fn fmt<W: fmt::Write>(&self, f: &mut fmt::Formatter<W>) -> fmt::Result {
        f.write_str(match self {
            Call::Attention => "attention",
            Call::Headings => "headings",
            Call::Lists => "lists",
            Call::SpaceOrTab => "space_or_tab",
            Call::ListItem => "list_item",
            Call::Continuation => "continuation",
            Call::Heading => "heading",
        })
    }
}
