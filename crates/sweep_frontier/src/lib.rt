// The frontier of the sweep in flat arrays, and what is below it.
#![tactic(auto)]

ghost use Rattle.std.specs.Prelude.{◌≡◌, true, List, ℕ};
ghost use Rattle.sweep_frontier.specs.Frontiers as run;

mod below;

pub use below::{Below, FrontierView};

// A frontier: its contexts, and a mark for each context that is or was on the frontier.
#[derive(Drop)]
pub struct Frontier {
    pub len: usize,
    pub at: [u16; 512],
    pub marks: [u8; 256],
}

// Puts x at the end of a frontier of len contexts on a lent array: how many it then has. There is none where it has 512 contexts.
#[tactic(auto, unfolding(crate::specs::Frontiers::pushed))]
pub fn push(at: &mut [u16], len: usize, x: u16) -> Option<usize>
    ensures { (marks : List ℕ) → run.tried result len at.new marks ≡ run.pushed (run.frontier_of true len at.old marks) x }
{
    if len >= 512 {
        return None;
    }
    arrays::put(at, len, x);
    Some(len + 1)
}
