// A match: the runs between lose open, markers are taken from both sides, and the group is written down.

ghost use Rattle.std.specs.Prelude.{◌≡◌, ◌<◌};
ghost use Rattle.runs.specs.Plain.{amount as amountOf};
ghost use Rattle.slots.specs.Layout.{Room, chain_of};
ghost use Rattle.chains.specs.Step.{unchained, popped, cleared, leaves, lowered, joined, matched_at, Ranged, Takable};

use slots::layout::{
    Chain, FirstGroup, Head, LatestGroup, Left, Link, OpenRun, Opens, get, put, put_flag, put_group,
};

// How many markers a match takes from each side.
#[tactic(auto, unfolding(runs::specs::Plain::amount, record::specs::Choice::choose, record::specs::Choice::and))]
fn amount(a: usize, b: usize) -> usize
    ensures { result ≡ amountOf a b }
{
    if a < 2 || b < 2 { 1 } else { 2 }
}

// Takes a run, the latest on its chain, off it.
#[tactic(auto, unfolding(crate::specs::Step::unchained))]
fn unchain(w: &mut [u8], q: usize)
    requires { (q < 1024) × ((chain_of w.old q < 6147) × Room w.old) }
    ensures { w.new ≡ unchained w.old q }
{
    let older = get::<Link>(w, q);
    put::<Head>(w, get::<Chain>(w, q), older);
}

// Takes a run, the latest on its chain, off it; it can open no more.
#[tactic(auto, unfolding(crate::specs::Step::popped))]
fn pop(w: &mut [u8], q: usize)
    requires { (q < 1024) × ((chain_of w.old q < 6147) × Room w.old) }
    ensures { w.new ≡ popped w.old q }
{
    unchain(w, q);
    put_flag::<Opens>(w, q, false);
}

// The open runs above `o` lose open, from the top down; gives how many are open then.
fn clear_above(w: &mut [u8], height: usize, o: usize) -> usize
    requires { Ranged w.old height }
    ensures { (w.new, result) ≡ cleared height w.old o }
{
    for h in (0..height).rev() {
        let q = get::<OpenRun>(w, h);
        if q <= o {
            return h + 1;
        }
        pop(w, q);
    }
    0
}

// An opener of which all markers are taken leaves its chain and the open runs; gives how many are open then.
#[tactic(auto, unfolding(crate::specs::Step::leaves, crate::specs::Step::lowered, record::specs::Choice::choose))]
fn leave(w: &mut [u8], height: usize, o: usize, a: usize, k: usize) -> usize
    requires { ((o < 1024) × (0 < height)) × ((chain_of w.old o < 6147) × Room w.old) }
    ensures { (result ≡ lowered height a k) × (w.new ≡ leaves w.old o a k) }
{
    if a == k {
        unchain(w, o);
        height - 1
    } else {
        height
    }
}

// Writes a group down, links it to the opener's group before it, and keeps the closer's first.
#[tactic(auto, unfolding(crate::specs::Step::joined, record::specs::Choice::choose))]
fn join(w: &mut [u8], g: usize, o: usize, c: usize, k: usize)
    requires { ((o < 1024) × (c < 1024)) × ((g < 1000) × ((k < 65536) × Room w.old)) }
    ensures { w.new ≡ joined w.old g o c k }
{
    let earlier = get::<LatestGroup>(w, o);
    let none = get::<FirstGroup>(w, c) == 0;
    put_group(w, g, o, c, k, earlier);
    put::<LatestGroup>(w, o, g + 1);
    if none {
        put::<FirstGroup>(w, c, g + 1);
    }
}

// The match of an opener and a closer, the group `g`, where `height` runs are open; gives how many are open then.
#[tactic(auto, unfolding(crate::specs::Step::matched_at))]
pub fn take_match(w: &mut [u8], height: usize, o: usize, c: usize, g: usize) -> usize
    requires { Takable w.old height o c g }
    ensures { (w.new, result) ≡ matched_at w.old height o c g }
{
    let a = get::<Left>(w, o);
    let b = get::<Left>(w, c);
    let k = amount(a, b);
    let above = clear_above(w, height, o);
    let open_runs = leave(w, above, o, a, k);
    put::<Left>(w, o, a - k);
    put::<Left>(w, c, b - k);
    join(w, g, o, c, k);
    open_runs
}
