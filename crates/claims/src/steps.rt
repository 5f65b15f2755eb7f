// The matcher's three functions: each asks no more than is said here, and promises what demand 3's page speaks of.

ghost use Rattle.std.specs.Prelude.{◌-◌, ◌≡◌};
ghost use Rattle.runs.specs.Rule.{rule_for};
ghost use Rattle.chains.specs.Walk.{Sound, onward};
ghost use Rattle.matcher.specs.Promise.{Begun, Handles, Loaded, Answers};

use chains::walk::Walked;
use matcher::closers::{Closed, Groups, TooMany};

// "the call that finds the next match".
pub fn next_match(w: &mut [u8], height: usize, from: usize, n: usize, single: bool) -> Walked
    requires { Sound w.old height n from }
    ensures { (result.next, (w.new, result.height)) ≡ onward (n - from) (rule_for single) w.old height from 0 }
{
    chains::walk::next_match(w, height, from, n, single)
}

// "the step that handles one closer".
pub fn handle_closer(
    w: &mut [u8],
    n: usize,
    single: bool,
    so_far: Closed,
) -> Result<Closed, TooMany>
    requires { Begun w.old so_far.height n so_far.next so_far.groups so_far.tried }
    ensures { Handles (rule_for single) w.old so_far.height n so_far.next so_far.groups so_far.tried result w.new }
{
    matcher::closers::handle_closer(w, n, single, so_far)
}

// All of the chained matcher.
pub fn find_groups(w: &mut [u8], n: usize, single: bool) -> Result<Groups, TooMany>
    requires { Loaded w.old n }
    ensures { Answers (rule_for single) w.old n result w.new }
{
    matcher::closers::find_groups(w, n, single)
}
