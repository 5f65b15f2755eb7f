// All matches: closer after closer, each to its end.

ghost use Rattle.runs.specs.Rule.{rule_for};
ghost use Rattle.matcher.specs.Promise.{Begun, Handles, Loaded, Answers};

use chains::taking::take_match;
use chains::walk::next_match;
use runs::Next;

// Where a closer leaves things: the run to go on from, how many runs are open, how many groups there are and how many candidates were tried.
#[derive(Clone, Copy, Debug, PartialEq, Eq)]
pub struct Closed {
    pub next: usize,
    pub height: usize,
    pub groups: usize,
    pub tried: usize,
}

// A match came for which there is no room: there are more groups than a result can hold.
#[derive(Clone, Copy, Debug, PartialEq, Eq)]
pub struct TooMany;

// Handles one closer: the first from where the last one left things that takes an opener, as long as it takes one. If there is none, all of the n runs are
// passed. It asks of the memory what the chains and the open runs need, and nothing of runs that are on neither: what is found is found along the chains.
pub fn handle_closer(
    w: &mut [u8],
    n: usize,
    single: bool,
    so_far: Closed,
) -> Result<Closed, TooMany>
    requires { Begun w.old so_far.height n so_far.next so_far.groups so_far.tried }
    ensures { Handles (rule_for single) w.old so_far.height n so_far.next so_far.groups so_far.tried result w.new }
{
    let Closed {
        next: mut at,
        mut height,
        mut groups,
        mut tried,
    } = so_far;
    let mut until = n;
    loop {
        let walked = next_match(w, height, at, until, single);
        match walked.next {
            Next::Done { tried: more } => {
                return Ok(Closed {
                    next: until,
                    height: walked.height,
                    groups,
                    tried: tried + more,
                });
            }
            Next::Match {
                opener,
                closer,
                tried: more,
            } => {
                if groups == 1000 {
                    return Err(TooMany);
                }
                height = take_match(w, walked.height, opener, closer, groups);
                groups += 1;
                tried += more;
                at = closer;
                until = closer + 1;
            }
        }
    }
}

// What all matches come to: how many groups, and how many candidates were tried.
#[derive(Clone, Copy, Debug, PartialEq, Eq)]
pub struct Groups {
    pub groups: usize,
    pub tried: usize,
}

// All matches among `n` runs, as the plain rule makes them.
pub fn find_groups(w: &mut [u8], n: usize, single: bool) -> Result<Groups, TooMany>
    requires { Loaded w.old n }
    ensures { Answers (rule_for single) w.old n result w.new }
{
    let mut so_far = Closed {
        next: 0,
        height: 0,
        groups: 0,
        tried: 0,
    };
    while so_far.next < n {
        so_far = handle_closer(w, n, single, so_far)?;
    }
    Ok(Groups {
        groups: so_far.groups,
        tried: so_far.tried,
    })
}
