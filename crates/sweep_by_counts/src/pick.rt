// The pair of positions that a step of the sweep takes: with each position one candidate alone, by one test of what is below the position before.
ghost use Rattle.std.specs.Prelude.{◌≡◌, ◌<◌, ◌≤◌, ◌-◌, ◌^◌, suc, min, length, List, ℕ};
ghost use Rattle.model.specs.Sweep.{State};
ghost use Rattle.rings.specs.Tables.{plan_of};
ghost use Rattle.sweep_frontier.specs.Frontiers.{below_of, whole};
ghost use Rattle.sweep_frontier.specs.Held.{HoldsList};
ghost use Rattle.std.specs.List.{list_all};
ghost use Rattle.sweep_theory.specs.Quick.{single, candidate, open_at, reach};
ghost use Rattle.sweep_theory.specs.Local.{low_due, high_due, positions_due};
ghost use Rattle.sweep_theory.specs.Counter.{pick_by};
ghost use Rattle.sweep_by_counts.specs.Courses.{HoldsState};
ghost use Rattle.sweep_by_counts.specs.Picks.{picked_as, Listed, fair_on, good_on};

use crate::course::Course;
use ring_positions::Located;
use sweep_frontier::{Below, FrontierView};

// What the search for a step looks at: the course of a sweep, and the plan's rings.
#[derive(Clone, Copy)]
pub(crate) struct View<'a> {
    pub(crate) located: Located<'a>,
    pub(crate) course: &'a Course,
}

// The pair of positions that a step takes, and how many contexts its list has.
#[derive(Clone, Copy)]
pub(crate) struct Found {
    pub(crate) i: usize,
    pub(crate) j: usize,
    pub(crate) q: usize,
}

// The first position that c touches, where it is on the list of i and j.
#[tactic(auto, unfolding(sweep_theory::specs::Local::low_due))]
fn low_due(i: usize, j: usize, list: &[u16], c: u16) -> usize
    ensures { result ≡ low_due i j list.now c }
{
    if c == arrays::at(list, 0) {
        return i;
    }
    j.saturating_sub(1)
}

// The last position that c touches, where it is on the list of i and j.
#[tactic(auto, unfolding(sweep_theory::specs::Local::high_due))]
fn high_due(j: usize, list: &[u16], c: u16) -> usize
    ensures value { result ≡ high_due j list.now c }
    ensures upper_bound { result ≤ j }
{
    if c == arrays::at(list, list.len().saturating_sub(1)) {
        return j;
    }
    j.saturating_sub(1)
}

// How many positions c touches, where it is on the list of i and j.
#[tactic(auto, unfolding(sweep_theory::specs::Local::positions_due))]
fn due(i: usize, j: usize, list: &[u16], c: u16) -> usize
    requires { j < 2 ^ 16 }
    ensures { result ≡ positions_due i j list.now c }
{
    high_due(j, list, c).saturating_sub(low_due(i, j, list, c)) + 1
}

impl<'a> View<'a> {
    // What is below position k of the frontier.
    #[inline(always)]
    pub(crate) fn below(&self, k: usize) -> Below<'a>
        ensures value { result ≡ below_of self.now.located.rings self.now.course.now.frontier.at k }
        ensures x_bound { result.x < 2 ^ 8 }
    {
        let front = FrontierView {
            located: self.located,
            f: &self.course.frontier.at,
        };
        front.below(k)
    }

    // Is one context alone below position k?
    #[tactic(auto, using(crate::proofs::Singles::single_told))]
    #[inline(always)]
    fn is_single(&self, k: usize) -> bool
        ensures { result ≡ single (plan_of self.now.located.rings) self.now.course.now.frontier.at k }
    {
        self.below(k).is_one()
    }

    // The only i that may be eligible with j and be the largest: the highest position up to j - 2 that has not one context below, or else 0.
    #[tactic(auto, using(crate::proofs::Singles::falls_hit, crate::proofs::Singles::falls_on, crate::proofs::Singles::falls_end), unfolding(sweep_theory::specs::Quick::candidate))]
    fn candidate(&self, j: usize) -> usize
        ensures value { result ≡ candidate (plan_of self.now.located.rings) self.now.course.now.frontier.at j }
        ensures upper_bound { result ≤ j - 2 }
    {
        for k in (1..j.saturating_sub(1)).rev() {
            if !self.is_single(k) {
                return k;
            }
        }
        0
    }

    // May position j be eligible: is it two or more, and East's position or one that has not one context below?
    fn is_open(&self, j: usize) -> bool
        ensures { (f : List ℕ) → HoldsList (whole self.now.course.now.frontier) f → result ≡ open_at (plan_of self.now.located.rings) f j }
    {
        if j < 2 {
            return false;
        }
        if j >= self.course.frontier.len.saturating_sub(1) {
            return true;
        }
        !self.is_single(j)
    }

    // May c be on the list of i and j: is it no border context and not marked, and do as many contexts that came to the frontier touch it as must touch one of that list?
    #[tactic(auto, unfolding(crate::specs::Picks::fair_on))]
    fn is_fair(&self, i: usize, j: usize, list: &[u16], c: u16) -> bool
        requires { j < 2 ^ 16 }
        ensures { result ≡ fair_on self.now.course.now i j list.now c }
    {
        let at = usize::from(c);
        c >= 4
            && arrays::number_at(&self.course.frontier.marks, at) == 0
            && arrays::number_at(&self.course.counts, at) == due(i, j, list, c)
    }

    // May each context of the list be on that of i and j?
    fn is_all_fair(&self, i: usize, j: usize, list: &[u16]) -> bool
        requires { j < 2 ^ 16 }
        ensures { result ≡ list_all (fair_on self.now.course.now i j list.now) list.now }
    {
        list.iter().all(|c| self.is_fair(i, j, list, *c))
    }

    // May the list be that of i and j?
    #[tactic(auto, using(crate::proofs::Tests::good_none, crate::proofs::Tests::good_unfair, crate::proofs::Tests::good_told))]
    fn is_good(&self, i: usize, j: usize, list: &[u16]) -> bool
        requires { j < 2 ^ 16 }
        ensures { result ≡ good_on self.now.course.now (plan_of self.now.located.rings) i j list.now }
    {
        if list.is_empty() {
            return false;
        }
        if !self.is_all_fair(i, j, list) {
            return false;
        }
        !sweep_by_definition::is_chorded(&self.located, list)
    }

    // The pair that a step takes, of those with j below the limit; its list then stands in the front of the lent array. Where one context alone is below the position before j, none of those between i and j is open.
    pub(crate) fn pick(&self, limit: usize, list: &mut [u16; 256]) -> Option<Found>
        ensures pair { (s : State) (cnt : List ℕ) → HoldsState (plan_of self.now.located.rings) s cnt self.now.course.now → picked_as result ≡ pick_by cnt (plan_of self.now.located.rings) s (min limit (length s.frontier)) }
        ensures list { (s : State) (cnt : List ℕ) → HoldsState (plan_of self.now.located.rings) s cnt self.now.course.now → Listed (plan_of self.now.located.rings) s.frontier list.new result }
    {
        let mut j = limit.min(self.course.frontier.len).min(512);
        while j > 1 {
            j -= 1;
            if self.is_open(j) {
                let i = self.candidate(j);
                let q = self.below(j - 1).put_on(list);
                if self.is_good(i, j, &list[..q]) {
                    return Some(Found { i, j, q });
                }
                if q == 1 {
                    j = i + 1;
                }
            }
        }
        None
    }

    // The limit of the next step, where the context at j stands at position k after this one.
    pub(crate) fn resume(&self, k: usize) -> usize
        requires { k < 2 ^ 16 }
        ensures { (s : State) (cnt : List ℕ) → HoldsState (plan_of self.now.located.rings) s cnt self.now.course.now → result ≡ suc (suc (reach (plan_of self.now.located.rings) s.frontier k)) }
    {
        let m = self.course.frontier.len.min(512);
        for t in k..m {
            if !self.is_single(t) {
                return t + 2;
            }
        }
        k.max(m) + 2
    }
}
