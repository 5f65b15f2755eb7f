// The next match: onward over the runs, and at each closer down its chain, until one takes an opener.

ghost use Rattle.std.specs.Prelude.{◌≡◌, ◌+◌, ◌-◌, ◌<◌, ltb};
ghost use Rattle.record.specs.Choice.{and};
ghost use Rattle.runs.specs.Rule.{rule_for};
ghost use Rattle.slots.specs.Layout.{Room, left_of, chain_of};
ghost use Rattle.chains.specs.Walk.{both_at, takes_at, first as first_of, passed, raised, onward, Sound};

use runs::{Next, eligible};
use slots::layout::{Chain, Closes, Flag, Head, Left, Link, OpenRun, Opens, get, has, marker, put};

// What a walk finds, and how many runs are open then.
#[derive(Clone, Copy)]
pub struct Walked {
    pub next: Next,
    pub height: usize,
}

// Whether a run has markers left, and a flag.
#[tactic(auto, unfolding(record::specs::Choice::and))]
fn able<G: Flag>(w: &[u8], i: usize) -> bool
    requires { (i < 1024) × Room w.now }
    ensures { result ≡ and (ltb 0 (left_of w.now i)) (G.of w.now i) }
{
    get::<Left>(w, i) > 0 && has::<G>(w, i)
}

// Whether a run can both open and close.
#[tactic(auto, unfolding(crate::specs::Walk::both_at, record::specs::Choice::and))]
fn both(w: &[u8], i: usize) -> bool
    requires { (i < 1024) × Room w.now }
    ensures { result ≡ both_at w.now i }
{
    has::<Opens>(w, i) && has::<Closes>(w, i)
}

// Whether the closer `i` takes the run `o`.
#[tactic(auto, unfolding(crate::specs::Walk::takes_at, runs::specs::Rule::rule_over))]
fn takes(w: &[u8], single: bool, o: usize, i: usize) -> bool
    requires { ((o < 1024) × (i < 1024)) × Room w.now }
    ensures { result ≡ takes_at (rule_for single) w.now o i }
{
    eligible(
        single,
        both(w, o) || both(w, i),
        marker(w, i),
        get::<Left>(w, o),
        get::<Left>(w, i),
    )
}

// The head of a run's chain.
fn first(w: &[u8], i: usize) -> usize
    requires { (i < 1024) × ((chain_of w.now i < 6147) × Room w.now) }
    ensures { result ≡ first_of w.now i }
{
    get::<Head>(w, get::<Chain>(w, i))
}

// Puts a passed run on its chain and on the open runs, if it has markers left and can open; gives how many are open then.
#[tactic(auto, unfolding(crate::specs::Walk::opening, crate::specs::Walk::passed, crate::specs::Walk::raised, record::specs::Choice::choose))]
fn pass(w: &mut [u8], height: usize, i: usize) -> usize
    requires { ((i < 1024) × (height < 1024)) × ((chain_of w.old i < 6147) × Room w.old) }
    ensures { (result ≡ raised w.old height i) × (w.new ≡ passed w.old height i) }
{
    if !able::<Opens>(w, i) {
        return height;
    }
    let k = get::<Chain>(w, i);
    let latest = get::<Head>(w, k);
    put::<Link>(w, i, latest);
    put::<Head>(w, k, i + 1);
    put::<OpenRun>(w, height, i);
    height + 1
}

// The next match from the run `from` of `n`, where `height` runs are open.
pub fn next_match(w: &mut [u8], height: usize, from: usize, n: usize, single: bool) -> Walked
    requires { Sound w.old height n from }
    ensures { (result.next, (w.new, result.height)) ≡ onward (n - from) (rule_for single) w.old height from 0 }
{
    let mut held = height;
    let mut tried: usize = 0;
    let mut found = None;
    'closers: for i in from..n {
        if able::<Closes>(w, i) {
            // The number of a run plus 1, or 0 at the chain's end.
            let mut p = first(w, i);
            while let Some(o) = p.checked_sub(1) {
                tried += 1;
                if takes(w, single, o, i) {
                    found = Some(Next::Match {
                        opener: o,
                        closer: i,
                        tried,
                    });
                    break 'closers;
                }
                p = get::<Link>(w, o);
            }
        }
        held = pass(w, held, i);
    }
    Walked {
        next: found.unwrap_or(Next::Done { tried }),
        height: held,
    }
}
