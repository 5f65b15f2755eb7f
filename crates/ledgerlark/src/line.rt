// The calls on a line.

ghost use Rattle.std.specs.Prelude.{◌≡◌};
ghost use Rattle.ledgerlark.specs.Answers.{kind_of, lark_spaces, lark_item, lark_going, lark_headed, SpacesAs, ItemAs, GoingAs, HeadedAs};

use lines::container::{Container, Kind};
use lines::going::Going;
use lines::item::Item;
use lines::spaces::Taken;
use record::check::Refusal;

#[repr(C)]
#[derive(Clone, Copy)]
pub struct LarkSpaces {
    pub number: usize,
    pub place: usize,
    pub found: usize,
    pub taken: usize,
    pub left: usize,
}

#[repr(C)]
#[derive(Clone, Copy)]
pub struct LarkItem {
    pub number: usize,
    pub place: usize,
    pub found: usize,
    pub taken: usize,
    pub left: usize,
    pub size: usize,
    pub blank: usize,
    pub mark: usize,
}

#[repr(C)]
#[derive(Clone, Copy)]
pub struct LarkGoing {
    pub number: usize,
    pub place: usize,
    pub found: usize,
    pub taken: usize,
    pub left: usize,
    pub blank: usize,
}

#[repr(C)]
#[derive(Clone, Copy)]
pub struct LarkHeaded {
    pub number: usize,
    pub place: usize,
    pub found: usize,
    pub events: usize,
}

// The kind of container that a mark's number stands for: `.` and `)` make an ordered one, all else a bulleted one.
fn kind_of(mark: u32) -> Kind
    ensures { result ≡ kind_of mark }
{
    match mark {
        46 => Kind::Ordered(b'.'),
        41 => Kind::Ordered(b')'),
        _ => Kind::Bullet((mark % 256) as u8),
    }
}

// The numbers of an answer about space-or-tab.
impl From<Result<Option<Taken>, Refusal>> for LarkSpaces {
    ghost from_gives = { λ found numbers. numbers ≡ lark_spaces found };

    fn from(found: Result<Option<Taken>, Refusal>) -> LarkSpaces {
        match found {
            Ok(Some(Taken { bytes, left })) => LarkSpaces {
                number: 0,
                place: 0,
                found: 1,
                taken: bytes,
                left,
            },
            Ok(None) => LarkSpaces {
                number: 0,
                place: 0,
                found: 0,
                taken: 0,
                left: 0,
            },
            Err(Refusal { number, place }) => LarkSpaces {
                number,
                place,
                found: 0,
                taken: 0,
                left: 0,
            },
        }
    }
}

// The numbers of an answer about a list item's start.
impl From<Result<Option<Item>, Refusal>> for LarkItem {
    ghost from_gives = { λ found numbers. numbers ≡ lark_item found };

    fn from(found: Result<Option<Item>, Refusal>) -> LarkItem {
        match found {
            Ok(
                Some(
                    Item {
                        taken,
                        left,
                        container,
                    },
                ),
            ) => LarkItem {
                number: 0,
                place: 0,
                found: 1,
                taken,
                left,
                size: container.size,
                blank: usize::from(container.blank),
                mark: usize::from(container.kind.mark()),
            },
            Ok(None) => LarkItem {
                number: 0,
                place: 0,
                found: 0,
                taken: 0,
                left: 0,
                size: 0,
                blank: 0,
                mark: 0,
            },
            Err(Refusal { number, place }) => LarkItem {
                number,
                place,
                found: 0,
                taken: 0,
                left: 0,
                size: 0,
                blank: 0,
                mark: 0,
            },
        }
    }
}

// The numbers of an answer about continuation.
impl From<Result<Going, Refusal>> for LarkGoing {
    ghost from_gives = { λ found numbers. numbers ≡ lark_going found };

    fn from(found: Result<Going, Refusal>) -> LarkGoing {
        match found {
            Ok(
                Going::Goes {
                    taken,
                    left,
                    container,
                },
            ) => LarkGoing {
                number: 0,
                place: 0,
                found: 1,
                taken,
                left,
                blank: usize::from(container.blank),
            },
            Ok(Going::Stops { container }) => LarkGoing {
                number: 0,
                place: 0,
                found: 0,
                taken: 0,
                left: 0,
                blank: usize::from(container.blank),
            },
            Err(Refusal { number, place }) => LarkGoing {
                number,
                place,
                found: 0,
                taken: 0,
                left: 0,
                blank: 0,
            },
        }
    }
}

// The numbers of an answer of the heading reader.
impl From<Result<Option<usize>, Refusal>> for LarkHeaded {
    ghost from_gives = { λ found numbers. numbers ≡ lark_headed found };

    fn from(found: Result<Option<usize>, Refusal>) -> LarkHeaded {
        match found {
            Ok(Some(events)) => LarkHeaded {
                number: 0,
                place: 0,
                found: 1,
                events,
            },
            Ok(None) => LarkHeaded {
                number: 0,
                place: 0,
                found: 0,
                events: 0,
            },
            Err(Refusal { number, place }) => LarkHeaded {
                number,
                place,
                found: 0,
                events: 0,
            },
        }
    }
}

// The spaces and tabs in front of a line that starts at a column; and so below.
pub fn lark_space_or_tab(
    line: &[u8],
    options: u32,
    column: usize,
    min: usize,
    max: usize,
) -> LarkSpaces
    ensures { SpacesAs line.now options column min max result }
{
    LarkSpaces::from(lines::spaces::space_or_tab(line, options, column, min, max))
}

// A list item that starts on a line.
pub fn lark_list_item(line: &[u8], options: u32, column: usize, interrupting: u32) -> LarkItem
    ensures { ItemAs line.now options column interrupting result }
{
    LarkItem::from(lines::item::list_item(line, options, column, interrupting != 0))
}

// Whether a line goes on with a list item.
pub fn lark_continuation(
    line: &[u8],
    options: u32,
    column: usize,
    size: usize,
    blank: u32,
    mark: u32,
) -> LarkGoing
    ensures { GoingAs line.now options column size blank mark result }
{
    let kind = kind_of(mark);
    let held = Container {
        kind,
        size,
        blank: blank != 0,
    };
    LarkGoing::from(lines::going::continuation(line, options, column, held))
}

// A heading's events, not yet resolved.
pub fn lark_heading(line: &[u8], options: u32, column: usize, out: &mut [u8]) -> LarkHeaded
    ensures { HeadedAs line.now options column out.old result out.new }
{
    LarkHeaded::from(atx::heading(line, options, column, out))
}
