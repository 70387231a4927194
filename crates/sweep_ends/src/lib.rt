// Where the sweep begins and where it ends: the first frontier, and whether a frontier is finished.
#![tactic(auto)]

ghost use Rattle.std.specs.Prelude.{◌≡◌, ◌<◌, ◌^◌, [], ◌∷◌, length};
ghost use Rattle.lists.specs.Tests.{same_list};
ghost use Rattle.model.specs.Plan.{ring, south};
ghost use Rattle.model.specs.Sweep.{below};
ghost use Rattle.rings.specs.Tables.{plan_of};
ghost use Rattle.sweep_frontier.specs.Frontiers.{unless_failed};
ghost use Rattle.sweep_ends.specs.Ends.{first_contexts, marked, first_frontier, unfinished};

use rings::Rings;
use sweep_frontier::{Frontier, FrontierView};

// West, North's inner neighbours from West's side to East's, East. There is room for them: North has at most 255 neighbours, as the size of its ring is a byte.
#[tactic(auto, using(crate::proofs::Beginning::north_size))]
fn front(rings: &Rings) -> Option<Frontier>
    ensures value { result ≡ unless_failed (first_contexts (plan_of rings.now)) }
    ensures north { length (ring (plan_of rings.now) 0) < 2 ^ 8 }
{
    let north = usize::from(rings::NORTH);
    let inner = rings.size_of(north).saturating_sub(2);
    let mut at = [0u16; 512];
    let mut len = sweep_frontier::push(&mut at, 0, rings::WEST)?;
    for t in (0..inner).rev() {
        len = sweep_frontier::push(&mut at, len, rings.entry_at(north, t + 1))?;
    }
    len = sweep_frontier::push(&mut at, len, rings::EAST)?;
    Some(Frontier {
        len,
        at,
        marks: [0u8; 256],
    })
}

// A mark for each context of the frontier.
#[tactic(auto, using(lists::proofs::Folds::folds_up_end), unfolding(lists::specs::Spans::zeros, crate::specs::Ends::marked))]
fn marked(frontier: &Frontier) -> [u8; 256]
    ensures { result ≡ marked frontier.now.at frontier.now.len }
{
    let mut marks = [0u8; 256];
    for k in 0..frontier.len {
        arrays::put(&mut marks, arrays::number_at(&frontier.at, k), 1);
    }
    marks
}

// The first frontier, all its contexts marked; North has at most 255 neighbours.
#[tactic(auto, using(sweep_frontier::proofs::Fails::unless_failed_none, sweep_frontier::proofs::Fails::unless_failed_no), unfolding(crate::specs::Ends::first_frontier))]
pub fn first_frontier(rings: &Rings) -> Option<Frontier>
    ensures value { result ≡ unless_failed (first_frontier (plan_of rings.now)) }
    ensures north { length (ring (plan_of rings.now) 0) < 2 ^ 8 }
{
    let mut frontier = front(rings)?;
    frontier.marks = marked(&frontier);
    Some(frontier)
}

// Is South alone below position k?
#[tactic(auto, using(crate::proofs::Finishing::done_yes, crate::proofs::Finishing::done_no))]
fn is_done(front: &FrontierView, k: usize) -> bool
    ensures { result ≡ same_list (below (plan_of front.now.located.rings) front.now.f.now k) (south ∷ []) }
{
    let below = front.below(k);
    below.is_one() && below.at(0) == rings::SOUTH
}

// Has some inner context of a frontier of m more than South below?
pub fn is_unfinished(front: &FrontierView, m: usize) -> bool
    ensures { result ≡ unfinished (plan_of front.now.located.rings) front.now.f.now m }
{
    (1..m.saturating_sub(1)).any(|k| !is_done(front, k))
}
