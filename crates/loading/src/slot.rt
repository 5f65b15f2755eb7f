// One run put into its slot: its size and marker, whether it can open and close, and the number of its chain.
//
// Every field of the slot is written here, so that nothing of lent memory is read before this call wrote it. The heads of all chains are the
// resolver's to clear.

ghost use Rattle.std.specs.Prelude.{◌≡◌, ◌+◌, ◌*◌, ◌≤◌, ◌<◌, length};
ghost use Rattle.classes.specs.Lent.{Lent};
ghost use Rattle.runs.specs.Rule.{crate};
ghost use Rattle.runs.specs.Chains.{marker_number};
ghost use Rattle.slots.specs.Layout.{Room, with_chain, with_first_group, with_latest_group, with_link};
ghost use Rattle.loading.specs.Filling.{numbered, Filled, Settling, Settled, SettledOr};

use super::shape::option_on;
use characters::beside::{neighbour_after, neighbour_before};
use classes::{Class, lacks};
use record::bytes::u32_at;
use record::form::Form;
use record::limits::OPTION_STRIKETHROUGH;
use runs::flanking;
use slots::layout::{
    Chain, Closes, FirstGroup, LatestGroup, Left, Link, Opens, Whole, put, put_flag, put_marker,
};

// The number of the chain of a marker and a container, the number of whose enter event is named.
#[tactic(auto, unfolding(runs::specs::Chains::marker_number, record::specs::Choice::choose))]
fn chain_number(container: Option<usize>, marker: u8) -> usize
    requires { numbered container ≤ 2048 }
    ensures { (result ≡ 3 * numbered container + marker_number marker) × (result < 6147) }
{
    let place = match container {
        Some(number) => number + 1,
        None => 0,
    };
    3 * place
        + match marker {
            b'*' => 0,
            b'_' => 1,
            _ => 2,
        }
}

// Writes the number of a run's chain, that the run is not on it yet, and that it is in no group.
fn put_fresh(w: &mut [u8], n: usize, chain: usize)
    requires { (n < 1024) × ((chain < 6147) × Room w.old) }
    ensures { w.new ≡ with_latest_group (with_first_group (with_link (with_chain w.old n chain) n 0) n 0) n 0 }
{
    put::<Chain>(w, n, chain);
    put::<Link>(w, n, 0);
    put::<FirstGroup>(w, n, 0);
    put::<LatestGroup>(w, n, 0);
}

// Writes all of a slot.
fn fill(w: &mut [u8], n: usize, size: usize, marker: u8, opens: bool, closes: bool, chain: usize)
    requires { (n < 1024) × ((size < 65536) × ((chain < 6147) × Room w.old)) }
    ensures { Filled w.old n size marker opens closes chain w.new }
{
    put::<Whole>(w, n, size);
    put::<Left>(w, n, size);
    put_marker(w, n, marker);
    put_flag::<Opens>(w, n, opens);
    put_flag::<Closes>(w, n, closes);
    put_fresh(w, n, chain);
}

// Puts the run that the event at a place of the record enters, and the next one leaves, into the slot n. The two tables are lent for the classes of its
// neighbours; where the ranges are not, and one of these is past ASCII, nothing is done, and there is no answer.
pub fn settle(
    ascii: &[Class],
    marks: &[u32],
    s: &[u8],
    form: Form,
    d: usize,
    options: u32,
    at: usize,
    container: Option<usize>,
    w: &mut [u8],
    n: usize,
) -> Option<()>
    requires { Lent ascii.now marks.now × Settling form s.now d at (numbered container) w.old n }
    ensures { SettledOr marks.now result (Settled crate form s.now d options at (numbered container) w.old n w.new) }
{
    let from = u32_at(s, at + 4);
    let to = u32_at(s, at + form.width + 4);
    let start = 4 + form.front;
    let document = &s[start..start + d];
    let marker = document[from];
    let left = neighbour_before(document, from);
    let right = neighbour_after(document, to);
    if lacks(marks, left) || lacks(marks, right) {
        return None;
    }
    let strike = option_on(options, OPTION_STRIKETHROUGH);
    let can = flanking(ascii, marks, strike, marker, left, right);
    let chain = chain_number(container, marker);
    fill(w, n, to - from, marker, can.opens, can.closes, chain);
    Some(())
}
