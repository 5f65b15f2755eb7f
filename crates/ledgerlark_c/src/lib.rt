// The static library: the calls of `ledgerlark` under their names in C, and nothing else.
//
// A slice is a pointer and then its length. An answer is a struct by value. Each call passes on the promise of the call of that name, whose arguments and
// answer are its own.

#![tactic(auto)]

ghost use Rattle.runs.specs.Rule.{crate};
ghost use Rattle.ledgerlark.specs.Answers.{ReadAs, Read2As, AttentionAs, Attention2As, HeadingsAs, Headings2As, ListsAs, Lists2As, SpacesAs, ItemAs, GoingAs, HeadedAs};

use ledgerlark::line::{LarkGoing, LarkHeaded, LarkItem, LarkSpaces};
use ledgerlark::resolve::{LarkReading, LarkReading2, LarkResolved};

// The calls on a record.

#[unsafe(no_mangle)]
pub extern "C" fn lark_read(s: &[u8], options: u32, work: &mut [u8]) -> LarkReading
    ensures { ReadAs s.now options work.old result work.new }
{
    ledgerlark::resolve::lark_read(s, options, work)
}

#[unsafe(no_mangle)]
pub extern "C" fn lark_resolve_attention(
    s: &[u8],
    options: u32,
    out: &mut [u8],
    work: &mut [u8],
) -> LarkResolved
    ensures { AttentionAs crate s.now options out.old work.old result out.new work.new }
{
    ledgerlark::resolve::lark_resolve_attention(s, options, out, work)
}

#[unsafe(no_mangle)]
pub extern "C" fn lark_resolve_headings(
    s: &[u8],
    options: u32,
    out: &mut [u8],
    work: &mut [u8],
) -> LarkResolved
    ensures { HeadingsAs s.now options out.old work.old result out.new work.new }
{
    ledgerlark::resolve::lark_resolve_headings(s, options, out, work)
}

#[unsafe(no_mangle)]
pub extern "C" fn lark_resolve_lists(
    s: &[u8],
    options: u32,
    out: &mut [u8],
    work: &mut [u8],
) -> LarkResolved
    ensures { ListsAs s.now options out.old work.old result out.new work.new }
{
    ledgerlark::resolve::lark_resolve_lists(s, options, out, work)
}

// The calls on a record in form 2.

#[unsafe(no_mangle)]
pub extern "C" fn lark_read2(s: &[u8], work: &mut [u8]) -> LarkReading2
    ensures { Read2As s.now work.old result work.new }
{
    ledgerlark::resolve::lark_read2(s, work)
}

#[unsafe(no_mangle)]
pub extern "C" fn lark_resolve_attention2(s: &[u8], out: &mut [u8], work: &mut [u8]) -> LarkResolved
    ensures { Attention2As crate s.now out.old work.old result out.new work.new }
{
    ledgerlark::resolve::lark_resolve_attention2(s, out, work)
}

#[unsafe(no_mangle)]
pub extern "C" fn lark_resolve_headings2(s: &[u8], out: &mut [u8], work: &mut [u8]) -> LarkResolved
    ensures { Headings2As s.now out.old work.old result out.new work.new }
{
    ledgerlark::resolve::lark_resolve_headings2(s, out, work)
}

#[unsafe(no_mangle)]
pub extern "C" fn lark_resolve_lists2(s: &[u8], out: &mut [u8], work: &mut [u8]) -> LarkResolved
    ensures { Lists2As s.now out.old work.old result out.new work.new }
{
    ledgerlark::resolve::lark_resolve_lists2(s, out, work)
}

// The calls on a line.

#[unsafe(no_mangle)]
pub extern "C" fn lark_space_or_tab(
    line: &[u8],
    options: u32,
    column: usize,
    min: usize,
    max: usize,
) -> LarkSpaces
    ensures { SpacesAs line.now options column min max result }
{
    ledgerlark::line::lark_space_or_tab(line, options, column, min, max)
}

#[unsafe(no_mangle)]
pub extern "C" fn lark_list_item(
    line: &[u8],
    options: u32,
    column: usize,
    interrupting: u32,
) -> LarkItem
    ensures { ItemAs line.now options column interrupting result }
{
    ledgerlark::line::lark_list_item(line, options, column, interrupting)
}

#[unsafe(no_mangle)]
pub extern "C" fn lark_continuation(
    line: &[u8],
    options: u32,
    column: usize,
    size: usize,
    blank: u32,
    mark: u32,
) -> LarkGoing
    ensures { GoingAs line.now options column size blank mark result }
{
    ledgerlark::line::lark_continuation(line, options, column, size, blank, mark)
}

#[unsafe(no_mangle)]
pub extern "C" fn lark_heading(
    line: &[u8],
    options: u32,
    column: usize,
    out: &mut [u8],
) -> LarkHeaded
    ensures { HeadedAs line.now options column out.old result out.new }
{
    ledgerlark::line::lark_heading(line, options, column, out)
}
