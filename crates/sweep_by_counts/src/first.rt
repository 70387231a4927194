// The sweep before its first step.
ghost use Rattle.std.specs.Prelude.{◌≡◌, suc, cond, get_or};
ghost use Rattle.rings.specs.Tables.{plan_of};
ghost use Rattle.model.specs.Sweep.{first_state};
ghost use Rattle.sweep_frontier.specs.Frontiers.{whole};
ghost use Rattle.sweep_frontier.specs.Held.{HoldsFrontier};
ghost use Rattle.sweep_by_counts.specs.Strays.{lists_stray, chord_at, chorded};
ghost use Rattle.sweep_by_counts.specs.Running.{RunningBelow};

use crate::CountingSweep;
use crate::course::Course;
use rings::Rings;
use sweep_frontier::Frontier;

// Has u's ring a context that is marked, other than l and r?
fn lists_stray(rings: &Rings, marks: &[u8], u: usize, l: usize, r: usize) -> bool
    ensures { result ≡ lists_stray (plan_of rings.now) marks.now u l r }
{
    rings.span(u).any(|i| {
        let w = rings::neighbour_of(arrays::number_at(rings.entries, i));
        arrays::number_at(marks, w) != 0 && w != l && w != r
    })
}

// The context after position k of a frontier.
fn after(frontier: &Frontier, k: usize) -> usize
    ensures { result ≡ get_or frontier.now.at (suc k) 0 }
{
    arrays::number_at(&frontier.at, k.saturating_add(1))
}

// Does the context at k of a frontier, whose contexts and no others are marked, list one that is not beside it?
#[tactic(auto, unfolding(crate::specs::Strays::chord_at))]
fn is_chord_end(rings: &Rings, frontier: &Frontier, k: usize) -> bool
    ensures { result ≡ chord_at (plan_of rings.now) frontier.now.marks frontier.now.at k }
{
    let u = arrays::number_at(&frontier.at, k);
    let l = arrays::number_at(&frontier.at, k.saturating_sub(1));
    lists_stray(rings, &frontier.marks, u, l, after(frontier, k))
}

// Has a frontier a chord, whose contexts and no others are marked?
fn is_chorded(rings: &Rings, frontier: &Frontier) -> bool
    ensures { result ≡ chorded (plan_of rings.now) frontier.now.marks frontier.now.at frontier.now.len }
{
    (0..frontier.len).any(|k| is_chord_end(rings, frontier, k))
}

// The limit of the search for the first step: there is none to find where the first frontier has a chord.
fn first_limit(rings: &Rings, frontier: &Frontier) -> usize
    ensures { result ≡ cond (chorded (plan_of rings.now) frontier.now.marks frontier.now.at frontier.now.len) 0 frontier.now.len }
{
    if is_chorded(rings, frontier) {
        0
    } else {
        frontier.len
    }
}

impl CountingSweep<'_> {
    // The sweep before its first step, whose frontier is this, and the limit of the search for the step.
    pub(crate) fn begin(&self, frontier: Frontier) -> (Course, usize)
        requires { HoldsFrontier (first_state (plan_of self.now.guided.located.rings)) (whole frontier) }
        ensures { RunningBelow (plan_of self.now.guided.located.rings) self.now.guided.located.rings.n result.1 result.0 }
    {
        let rings = self.guided.located.rings;
        let limit = first_limit(&rings, &frontier);
        let labels = self.guided.first_labels(&frontier.at, frontier.len);
        let mut counts = [0u16; 256];
        crate::moves::raise_all(&mut counts, &rings, &frontier.at[..frontier.len]);
        let course = Course {
            frontier,
            counts,
            labels,
        };
        (course, limit)
    }
}
