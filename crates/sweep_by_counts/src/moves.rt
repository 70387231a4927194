// A step of the sweep on the arrays of a course, in place.
ghost use Rattle.std.specs.Prelude.{◌≤◌, ◌+◌, ◌-◌, ◌||◌, ℕ, List, Bool, length};
ghost use Rattle.lists.specs.Tests.{member};
ghost use Rattle.model.specs.Plan.{ring};
ghost use Rattle.model.specs.Sweep.{State};
ghost use Rattle.rings.specs.Tables.{plan_of};
ghost use Rattle.sweep_frontier.specs.Held.{Marks};
ghost use Rattle.sweep_theory.specs.Counter.{raised, counted};
ghost use Rattle.sweep_by_counts.specs.Courses.{CountersIn};
ghost use Rattle.sweep_by_counts.specs.Moves.{Steps, Spliced, Moved};

use crate::course::Course;
use rings::Rings;
use std::ops::Range;
use sweep_labelling::Guided;

// Counts one contact more for each entry of u's ring.
#[tactic(auto, using(crate::proofs::Counts::raises_start))]
fn raise(counts: &mut [u16; 256], rings: &Rings, u: usize)
    ensures { (cnt : List ℕ) → CountersIn counts.old cnt → CountersIn counts.new (raised (ring (plan_of rings.now) u) cnt) }
{
    let Range { start, end } = rings.span(u);
    for i in start..end {
        let w = rings::neighbour_of(arrays::number_at(rings.entries, i));
        let more = arrays::at(counts, w).saturating_add(1);
        arrays::put(counts, w, more);
    }
}

// Counts one contact more for each neighbour of each of these contexts.
#[tactic(auto, using(crate::proofs::Counts::raised_start))]
pub(crate) fn raise_all(counts: &mut [u16; 256], rings: &Rings, contexts: &[u16])
    ensures { (cnt : List ℕ) → CountersIn counts.old cnt → CountersIn counts.new (counted (plan_of rings.now) contexts.now cnt) }
{
    for c in contexts {
        raise(counts, rings, usize::from(*c));
    }
}

// Marks each of these contexts.
#[tactic(auto, using(crate::proofs::Counts::marked_start, crate::proofs::Counts::marked_on))]
fn mark_all(marks: &mut [u8; 256], contexts: &[u16])
    ensures { (q : ℕ → Bool) → Marks marks.old q → Marks marks.new (λ (c : ℕ). member c contexts.now || q c) }
{
    for c in contexts {
        arrays::put(marks, usize::from(*c), 1);
    }
}

// Puts a list in place of positions a to j - 1 of a frontier of m contexts, with zeros behind the frontier: how many it then has.
#[tactic(auto, using(crate::proofs::Splices::spliced_longer, crate::proofs::Splices::spliced_shorter))]
fn splice(at: &mut [u16; 512], m: usize, a: usize, j: usize, list: &[u16]) -> usize
    requires order { a ≤ j }
    requires inside { j ≤ m }
    requires short { m ≤ 512 }
    requires room { a + length list.now + (m - j) ≤ 512 }
    ensures { Spliced at.old at.new m a j list.now result }
{
    let behind = a + list.len();
    at.copy_within(j..m, behind);
    at[a..behind].copy_from_slice(list);
    let len = behind + (m - j);
    if len < m {
        at[len..m].fill(0);
    }
    len
}

// Takes the step of positions i and j of the frontier: this list in place of the positions between them, marked and counted, with its labels.
pub(crate) fn advance(guided: &Guided, course: &mut Course, list: &[u16], i: usize, j: usize)
    requires { (s : State) × (cnt : List ℕ) × Steps (plan_of guided.now.located.rings) s cnt course.old list.now i j }
    ensures { Moved (plan_of guided.now.located.rings) course.old course.new list.now i j }
{
    guided.step_labels(
        &mut course.labels,
        &course.frontier.at,
        list,
        list.len(),
        i,
        j,
    );
    course.frontier.len = splice(&mut course.frontier.at, course.frontier.len, i + 1, j, list);
    mark_all(&mut course.frontier.marks, list);
    raise_all(&mut course.counts, &guided.located.rings, list);
}
