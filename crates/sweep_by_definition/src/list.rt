// The list of a pair of positions, and the frontier with that list in place.
ghost use Rattle.std.specs.Prelude.{◌≡◌, true, List, ℕ, ◌-◌, ◌<◌, fold};
ghost use Rattle.lists.specs.Spans.{span};
ghost use Rattle.rings.specs.Tables.{plan_of};
ghost use Rattle.sweep_frontier.specs.Frontiers.{frontier_of, lent_frontier, pushed};
ghost use Rattle.sweep_by_definition.specs.Lists.{last_is, excluded, added, below_added, listing, frontier_replaced};

use std::ops::Range;
use sweep_frontier::FrontierView;

// Is c the last of the first len contexts?
#[tactic(auto, unfolding(crate::specs::Lists::last_is))]
fn last_is(at: &[u16], len: usize, c: u16) -> bool
    ensures { result ≡ last_is at.now len c }
{
    len > 0 && c == arrays::at(at, len - 1)
}

// Is c a border context, or one that is marked: it is or was on the frontier or is on the list?
#[tactic(auto, unfolding(crate::specs::Lists::excluded))]
fn is_excluded(marks: &[u8], c: u16) -> bool
    ensures { result ≡ excluded marks.now c }
{
    c < 4 || arrays::number_at(marks, usize::from(c)) != 0
}

// Puts c at the end of a frontier, which may have failed: how many contexts it then has. It fails where it is full.
#[tactic(auto, using(crate::proofs::Moves::grown_off))]
fn grow(at: &mut [u16], frontier: Result<usize, usize>, c: u16) -> Result<usize, usize>
    ensures { (marks : List ℕ) → lent_frontier result at.new marks ≡ pushed (lent_frontier frontier at.old marks) c }
{
    match frontier {
        Ok(len) => sweep_frontier::push(at, len, c).ok_or(len),
        Err(len) => Err(sweep_frontier::push(at, len, c).unwrap_or(len)),
    }
}

// Puts c at the end of a list, which may have failed, and marks it, unless it stands there: how many contexts the list then has. It fails where c may not be on the list.
#[tactic(auto, using(crate::proofs::Moves::push_noted), unfolding(crate::specs::Lists::added, crate::specs::Lists::failed))]
fn add(at: &mut [u16], marks: &mut [u8], list: Result<usize, usize>, c: u16) -> Result<usize, usize>
    ensures { lent_frontier result at.new marks.new ≡ added (lent_frontier list at.old marks.old) c }
{
    let (Ok(len) | Err(len)) = list;
    if last_is(at, len, c) {
        return list;
    }
    if is_excluded(marks, c) {
        return Err(len);
    }
    arrays::put(marks, usize::from(c), 1);
    grow(at, list, c)
}

// Puts what is below position k at the end of a list of len contexts: how many it then has. It fails where nothing is below, or where one of these may not be on the list; the others are put there then too.
#[tactic(auto, using(crate::proofs::Moves::back_bare))]
fn add_below(
    at: &mut [u16],
    marks: &mut [u8],
    len: usize,
    front: &FrontierView,
    k: usize,
) -> Result<usize, usize>
    ensures { lent_frontier result at.new marks.new ≡ below_added (plan_of front.now.located.rings) front.now.f.now k (frontier_of true len at.old marks.old) }
{
    let below = front.below(k);
    let q = below.len();
    if q == 0 {
        return Err(len);
    }
    let mut grown = Ok(len);
    for t in (0..q).rev() {
        grown = add(at, marks, grown, below.at(t));
    }
    grown
}

// Puts the list of what is below these positions in the front of a lent array, each context of it marked beside those that are marked before: how many contexts it has.
// It fails where nothing is below one of these positions or a context may not be on the list; the error is how many contexts it has then.
#[tactic(auto, using(lists::proofs::Folds::folds_up_on, lists::proofs::Folds::folds_up_end), unfolding(crate::specs::Lists::listing))]
pub(crate) fn listed(
    at: &mut [u16],
    marks: &mut [u8],
    front: &FrontierView,
    positions: Range<usize>,
) -> Result<usize, usize>
    ensures { lent_frontier result at.new marks.new ≡ listing (plan_of front.now.located.rings) front.now.f.now positions.start positions.end (frontier_of true 0 at.old marks.old) }
{
    let mut len = 0;
    for k in positions {
        len = add_below(at, marks, len, front, k)?;
    }
    Ok(len)
}

// Puts these positions of f at the end of a frontier, which may have failed: how many contexts it then has. It fails where it is full.
fn append(
    at: &mut [u16],
    frontier: Result<usize, usize>,
    f: &[u16],
    positions: Range<usize>,
) -> Result<usize, usize>
    ensures { (marks : List ℕ) → lent_frontier result at.new marks ≡ fold pushed (lent_frontier frontier at.old marks) (span f.now positions.start positions.end) }
{
    let mut grown = frontier;
    for k in positions {
        grown = grow(at, grown, arrays::at(f, k));
    }
    grown
}

// Puts the frontier of m contexts, with a list of q in place of positions a to j - 1, in the front of a lent array: how many contexts it has.
// It fails where the new one has no room for it; the error is how many contexts the frontier has then.
pub(crate) fn replaced(
    at: &mut [u16],
    f: &[u16],
    m: usize,
    a: usize,
    j: usize,
    list: &[u16],
    q: usize,
) -> Result<usize, usize>
    ensures { (marks : List ℕ) → lent_frontier result at.new marks ≡ frontier_replaced (frontier_of true 0 at.old marks) f.now m a j list.now q }
{
    let left = append(at, Ok(0), f, 0..a);
    let middle = append(at, left, list, 0..q);
    append(at, middle, f, j..m)
}
