// The calls on a record.

ghost use Rattle.std.specs.Prelude.{◌≡◌};
ghost use Rattle.runs.specs.Rule.{crate};
ghost use Rattle.ledgerlark.specs.Answers.{lark_reading, lark_reading2, lark_attention, lark_headings, lark_lists, ReadAs, Read2As, AttentionAs, Attention2As, HeadingsAs, Headings2As, ListsAs, Lists2As};

use attention::call::Resolved;
use record::check::{Counts, Refusal};
use record::form::{Handed, options_of};

#[repr(C)]
#[derive(Clone, Copy)]
pub struct LarkReading {
    pub number: usize,
    pub place: usize,
    pub document: usize,
    pub events: usize,
}

// Of a record in form 2: its options too, which it carries.
#[repr(C)]
#[derive(Clone, Copy)]
pub struct LarkReading2 {
    pub number: usize,
    pub place: usize,
    pub options: usize,
    pub document: usize,
    pub events: usize,
}

#[repr(C)]
#[derive(Clone, Copy)]
pub struct LarkResolved {
    pub number: usize,
    pub place: usize,
    pub events: usize,
    pub groups: usize,
    pub tried: usize,
}

// The numbers of an answer of `read`.
impl From<Result<Counts, Refusal>> for LarkReading {
    ghost from_gives = { λ found numbers. numbers ≡ lark_reading found };

    fn from(found: Result<Counts, Refusal>) -> LarkReading {
        match found {
            Ok(Counts { document, events }) => LarkReading {
                number: 0,
                place: 0,
                document,
                events,
            },
            Err(Refusal { number, place }) => LarkReading {
                number,
                place,
                document: 0,
                events: 0,
            },
        }
    }
}

impl LarkReading2 {
    // The numbers of an answer of `read` about a record with these options.
    fn of(options: usize, found: Result<Counts, Refusal>) -> LarkReading2
        ensures { result ≡ lark_reading2 options found }
    {
        match found {
            Ok(Counts { document, events }) => LarkReading2 {
                number: 0,
                place: 0,
                options,
                document,
                events,
            },
            Err(Refusal { number, place }) => LarkReading2 {
                number,
                place,
                options: 0,
                document: 0,
                events: 0,
            },
        }
    }
}

// The numbers of an answer about attention.
impl From<Result<Resolved, Refusal>> for LarkResolved {
    ghost from_gives = { λ found numbers. numbers ≡ lark_attention found };

    fn from(found: Result<Resolved, Refusal>) -> LarkResolved {
        match found {
            Ok(made) => LarkResolved {
                number: 0,
                place: 0,
                events: made.events,
                groups: made.groups,
                tried: made.tried,
            },
            Err(Refusal { number, place }) => LarkResolved {
                number,
                place,
                events: 0,
                groups: 0,
                tried: 0,
            },
        }
    }
}

// The numbers of an answer about headings or lists, which have neither groups nor candidates.
impl From<Result<usize, Refusal>> for LarkResolved {
    ghost from_gives = { λ found numbers. numbers ≡ lark_headings found };

    fn from(found: Result<usize, Refusal>) -> LarkResolved {
        match found {
            Ok(events) => LarkResolved {
                number: 0,
                place: 0,
                events,
                groups: 0,
                tried: 0,
            },
            Err(Refusal { number, place }) => LarkResolved {
                number,
                place,
                events: 0,
                groups: 0,
                tried: 0,
            },
        }
    }
}

// Whether a record is good, and how large its parts are.
pub fn lark_read(s: &[u8], options: u32, work: &mut [u8]) -> LarkReading
    ensures { ReadAs s.now options work.old result work.new }
{
    LarkReading::from(record::call::read(Handed::Old(options), s, work))
}

// The attention runs of a record resolved.
pub fn lark_resolve_attention(
    s: &[u8],
    options: u32,
    out: &mut [u8],
    work: &mut [u8],
) -> LarkResolved
    ensures { AttentionAs crate s.now options out.old work.old result out.new work.new }
{
    LarkResolved::from(attention::call::resolve_attention(Handed::Old(options), s, out, work))
}

// The headings of a record resolved.
pub fn lark_resolve_headings(
    s: &[u8],
    options: u32,
    out: &mut [u8],
    work: &mut [u8],
) -> LarkResolved
    ensures { HeadingsAs s.now options out.old work.old result out.new work.new }
{
    LarkResolved::from(heading::resolve::resolve_headings(Handed::Old(options), s, out, work))
}

// The list items of a record resolved.
pub fn lark_resolve_lists(s: &[u8], options: u32, out: &mut [u8], work: &mut [u8]) -> LarkResolved
    ensures { ListsAs s.now options out.old work.old result out.new work.new }
{
    LarkResolved::from(list::call::resolve_lists(Handed::Old(options), s, out, work))
}

// The calls on a record in form 2: each is the call above on the record as it is handed over there, which has its options in it. What they write
// carries partner numbers.

pub fn lark_read2(s: &[u8], work: &mut [u8]) -> LarkReading2
    ensures { Read2As s.now work.old result work.new }
{
    let options = options_of(Handed::Second, s) as usize;
    LarkReading2::of(options, record::call::read(Handed::Second, s, work))
}

pub fn lark_resolve_attention2(s: &[u8], out: &mut [u8], work: &mut [u8]) -> LarkResolved
    ensures { Attention2As crate s.now out.old work.old result out.new work.new }
{
    LarkResolved::from(attention::call::resolve_attention(Handed::Second, s, out, work))
}

pub fn lark_resolve_headings2(s: &[u8], out: &mut [u8], work: &mut [u8]) -> LarkResolved
    ensures { Headings2As s.now out.old work.old result out.new work.new }
{
    LarkResolved::from(heading::resolve::resolve_headings(Handed::Second, s, out, work))
}

pub fn lark_resolve_lists2(s: &[u8], out: &mut [u8], work: &mut [u8]) -> LarkResolved
    ensures { Lists2As s.now out.old work.old result out.new work.new }
{
    LarkResolved::from(list::call::resolve_lists(Handed::Second, s, out, work))
}
