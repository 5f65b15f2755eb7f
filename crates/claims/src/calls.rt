// The twelve exported calls: none asks for anything, and each promises what the claims speak of.

ghost use Rattle.runs.specs.Rule.{crate};
ghost use Rattle.ledgerlark.specs.Answers.{ReadAs, Read2As, AttentionAs, Attention2As, HeadingsAs, Headings2As, ListsAs, Lists2As, SpacesAs, ItemAs, GoingAs, HeadedAs};

use ledgerlark::line::{LarkGoing, LarkHeaded, LarkItem, LarkSpaces};
use ledgerlark::resolve::{LarkReading, LarkReading2, LarkResolved};

// What is claimed of `ReadAs` holds of `lark_read`; and so on below.
pub fn read(s: &[u8], options: u32, work: &mut [u8]) -> LarkReading
    ensures { ReadAs s.now options work.old result work.new }
{
    ledgerlark::resolve::lark_read(s, options, work)
}

pub fn resolve_attention(s: &[u8], options: u32, out: &mut [u8], work: &mut [u8]) -> LarkResolved
    ensures { AttentionAs crate s.now options out.old work.old result out.new work.new }
{
    ledgerlark::resolve::lark_resolve_attention(s, options, out, work)
}

pub fn resolve_headings(s: &[u8], options: u32, out: &mut [u8], work: &mut [u8]) -> LarkResolved
    ensures { HeadingsAs s.now options out.old work.old result out.new work.new }
{
    ledgerlark::resolve::lark_resolve_headings(s, options, out, work)
}

pub fn resolve_lists(s: &[u8], options: u32, out: &mut [u8], work: &mut [u8]) -> LarkResolved
    ensures { ListsAs s.now options out.old work.old result out.new work.new }
{
    ledgerlark::resolve::lark_resolve_lists(s, options, out, work)
}

pub fn read2(s: &[u8], work: &mut [u8]) -> LarkReading2
    ensures { Read2As s.now work.old result work.new }
{
    ledgerlark::resolve::lark_read2(s, work)
}

pub fn resolve_attention2(s: &[u8], out: &mut [u8], work: &mut [u8]) -> LarkResolved
    ensures { Attention2As crate s.now out.old work.old result out.new work.new }
{
    ledgerlark::resolve::lark_resolve_attention2(s, out, work)
}

pub fn resolve_headings2(s: &[u8], out: &mut [u8], work: &mut [u8]) -> LarkResolved
    ensures { Headings2As s.now out.old work.old result out.new work.new }
{
    ledgerlark::resolve::lark_resolve_headings2(s, out, work)
}

pub fn resolve_lists2(s: &[u8], out: &mut [u8], work: &mut [u8]) -> LarkResolved
    ensures { Lists2As s.now out.old work.old result out.new work.new }
{
    ledgerlark::resolve::lark_resolve_lists2(s, out, work)
}

pub fn space_or_tab(line: &[u8], options: u32, column: usize, min: usize, max: usize) -> LarkSpaces
    ensures { SpacesAs line.now options column min max result }
{
    ledgerlark::line::lark_space_or_tab(line, options, column, min, max)
}

pub fn list_item(line: &[u8], options: u32, column: usize, interrupting: u32) -> LarkItem
    ensures { ItemAs line.now options column interrupting result }
{
    ledgerlark::line::lark_list_item(line, options, column, interrupting)
}

pub fn continuation(
    line: &[u8],
    options: u32,
    column: usize,
    size: usize,
    blank: u32,
    mark: u32,
) -> LarkGoing
    ensures { GoingAs line.now options column size blank mark result }
{
    ledgerlark::line::lark_continuation(line, options, column, size, blank, mark)
}

pub fn heading(line: &[u8], options: u32, column: usize, out: &mut [u8]) -> LarkHeaded
    ensures { HeadedAs line.now options column out.old result out.new }
{
    ledgerlark::line::lark_heading(line, options, column, out)
}
