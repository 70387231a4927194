// The least solution of difference constraints: a first pass in an order that settles most numbers; where one is not met then, passes over all constraints, forward and back in turn, until no number rises or one passes n.
#![tactic(auto)]

ghost use Rattle.std.specs.Prelude.{◌≡◌, ◌+◌, ◌<◌, ◌^◌, drop, get_or};
ghost use Rattle.std.specs.List.{list_all};
ghost use Rattle.model.specs.Chart.{meets};
ghost use Rattle.chart_solver.specs.Constraints.{rise, constraint_of, constraints_in};
ghost use Rattle.chart_solver.specs.Solved.{solved, numbers_of, kept_at};
ghost use Rattle.chart_solver.specs.Relaxing.{RaisedIn, Relaxed, Passed, pass_index};

mod first;

// A difference constraint: the number at low, and the gap, which counts as 1 where it is not 0, are together at most the number at high.
#[derive(Clone, Copy)]
pub struct Constraint {
    pub low: u16,
    pub high: u16,
    pub gap: u8,
}

impl Constraint {
    // What it asks of its higher number.
    #[tactic(auto, unfolding(crate::specs::Constraints::rise))]
    fn due(&self, at: &[u16]) -> usize
        ensures value { result ≡ get_or at.now self.now.low 0 + rise self.now.gap }
        ensures upper_bound { result < 2 ^ 17 }
    {
        let low = arrays::number_at(at, usize::from(self.low));
        if self.gap == 0 { low } else { low + 1 }
    }

    // Do the numbers meet it?
    #[tactic(auto, unfolding(crate::specs::Constraints::constraint_of, model::specs::Chart::meets))]
    fn is_met(&self, at: &[u16]) -> bool
        ensures { result ≡ meets at.now (constraint_of self.now) }
    {
        self.due(at) <= arrays::number_at(at, usize::from(self.high))
    }
}

// Do the numbers meet all constraints?
fn all_met(constraints: &[Constraint], at: &[u16]) -> bool
    ensures { result ≡ list_all (meets at.now) (constraints_in constraints.now) }
{
    constraints.iter().all(|c| c.is_met(at))
}

// So many numbers, and the constraints on them.
#[derive(Drop)]
struct System<'a> {
    pub n: usize,
    pub constraints: &'a [Constraint],
}

// The constraint that a pass comes to after i others.
#[tactic(auto, unfolding(crate::specs::Relaxing::pass_index))]
fn pass_index(back: bool, count: usize, i: usize) -> usize
    requires { i < count }
    ensures { result ≡ pass_index back count i }
{
    if back { count - 1 - i } else { i }
}

impl<'a> System<'a> {
    // Raises the higher number of constraint k to what it asks, or to n where it would pass n.
    fn lift(&self, at: &mut [u16; 200], k: usize)
        requires { RaisedIn self.now at.old }
        ensures { RaisedIn self.now at.new }
    {
        let Some(constraint) = self.constraints.get(k) else {
            return;
        };
        let high = usize::from(constraint.high);
        if high >= self.n {
            return;
        }
        let due = constraint.due(at).min(self.n) as u16;
        at[high] = at[high].max(due);
    }

    // Takes constraint k: its higher number is raised to what it asks. Whether it rose; none where it would pass n.
    fn raise(&self, at: &mut [u16; 200], k: usize) -> Option<bool>
        requires { RaisedIn self.now at.old }
        ensures { Relaxed self.now k at.old at.new result }
    {
        let Some(constraint) = self.constraints.get(k) else {
            return Some(false);
        };
        let high = usize::from(constraint.high);
        if high >= self.n {
            return Some(false);
        }
        let due = constraint.due(at);
        if usize::from(at[high]) >= due {
            return Some(false);
        }
        if due > self.n {
            return None;
        }
        at[high] = due as u16;
        Some(true)
    }

    // One pass: each constraint raises its higher number. Whether one rose; none where one would pass n.
    fn pass(&self, at: &mut [u16; 200], back: bool) -> Option<bool>
        requires { RaisedIn self.now at.old }
        ensures { Passed self.now at.old at.new result }
    {
        let count = self.constraints.len();
        let mut rose = false;
        for i in 0..count {
            if self.raise(at, pass_index(back, count, i))? {
                rose = true;
            }
        }
        Some(rose)
    }

    // The least numbers that meet the constraints, if there are such numbers: numbers that the constraints have raised, after passes until none rises.
    fn settle(&self, raised: [u16; 200]) -> Option<[u16; 200]>
        requires { RaisedIn self.now raised }
        ensures { result ≡ numbers_of (solved self.now.n (constraints_in self.now.constraints.now)) }
    {
        let mut at = raised;
        let mut back = false;
        while let Some(rose) = self.pass(&mut at, back) {
            if !rose {
                return Some(at);
            }
            back = !back;
        }
        None
    }
}

// The least numbers that meet the constraints, n of them and zeros after them, if there are such numbers and they meet the constraints behind so many, whatever number those are on. Mostly the first pass has settled all, and nothing is raised any more.
pub fn solve(n: usize, constraints: &[Constraint], behind: usize) -> Option<[u16; 200]>
    ensures { result ≡ kept_at (constraints_in (drop behind constraints.now)) (numbers_of (solved n (constraints_in constraints.now))) }
{
    if 200 < n {
        return None;
    }
    let system = System { n, constraints };
    let mut at = [0; 200];
    first::first_pass(&system, &mut at);
    if all_met(constraints, &at) {
        return Some(at);
    }
    let rest = &constraints[behind.min(constraints.len())..];
    let least = system.settle(at)?;
    if all_met(rest, &least) {
        Some(least)
    } else {
        None
    }
}
