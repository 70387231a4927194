// The pair of positions that a step of the sweep takes: the largest j, then the largest i, that are eligible.
ghost use Rattle.std.specs.Prelude.{◌≡◌, ℕ, suc, ◌+◌, ◌≤◌, ◌<◌, not, drop};
ghost use Rattle.std.specs.List.{list_any};
ghost use Rattle.model.specs.Plan.{adjacent};
ghost use Rattle.model.specs.Sweep.{State, chordless, choose, choices};
ghost use Rattle.rings.specs.Tables.{plan_of};
ghost use Rattle.sweep_by_definition.specs.Search.{found_as, Begins, Tested, Best};

use ring_positions::Located;
use sweep_frontier::FrontierView;

// Does u list one of these contexts, from the a-th on?
fn touches(located: &Located, u: usize, list: &[u16], a: usize) -> bool
    ensures { result ≡ list_any (adjacent (plan_of located.now.rings) u) (drop a list.now) }
{
    (a..list.len()).any(|t| located.is_adjacent(u, arrays::number_at(list, t)))
}

// Have these contexts a chord: does one of them list one that is two or more positions further on?
#[tactic(auto, using(crate::proofs::Chords::chords_hit, crate::proofs::Chords::chords_on, crate::proofs::Chords::chords_end))]
pub fn is_chorded(located: &Located, list: &[u16]) -> bool
    ensures { result ≡ not (chordless (plan_of located.now.rings) list.now) }
{
    for k in 0..list.len() {
        if touches(located, usize::from(list[k]), list, k + 2) {
            return true;
        }
    }
    false
}

// Are positions k - 1 and j of a frontier of m contexts eligible? There is no answer where their list fails: it fails for every smaller k then.
fn fits(front: &FrontierView, m: usize, marks: &[u8; 256], k: usize, j: usize) -> Option<bool>
    ensures { (s : State) → Begins front.now m marks.now s → (i : ℕ) → k ≡ suc i → i + 2 ≤ j → j < m → Tested (plan_of front.now.located.rings) s i j result }
{
    let mut list = [0u16; 512];
    let mut on = *marks;
    let q = crate::list::listed(&mut list, &mut on, front, k..j).ok()?;
    let mut next = [0u16; 512];
    let len = crate::list::replaced(&mut next, front.f, m, k, j, &list, q).ok()?;
    Some(!is_chorded(&front.located, &next[..len]))
}

// The largest i that is eligible with j.
fn best(front: &FrontierView, m: usize, marks: &[u8; 256], j: usize) -> Option<usize>
    ensures { (s : State) → Begins front.now m marks.now s → j < m → Best (plan_of front.now.located.rings) s j result }
{
    for k in (1..j).rev() {
        if fits(front, m, marks, k, j)? {
            return Some(k - 1);
        }
    }
    None
}

// The pair of positions that a step takes: of the eligible pairs of a frontier of m contexts that with the largest j, then with the largest i.
pub(crate) fn choose(front: &FrontierView, m: usize, marks: &[u8; 256]) -> Option<(usize, usize)>
    ensures { (s : State) → Begins front.now m marks.now s → found_as result ≡ choose (plan_of front.now.located.rings) s (choices s.frontier) }
{
    for j in (0..m).rev() {
        if let Some(i) = best(front, m, marks, j) {
            return Some((i, j));
        }
    }
    None
}
