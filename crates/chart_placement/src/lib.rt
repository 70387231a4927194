// Placement: the chart of a labelled plan over flat arrays.
#![tactic(auto)]

ghost use Rattle.std.specs.Prelude.{◌≡◌, List, ℕ, true, false, ◌+◌, ◌≤◌, ◌<◌, length, take};
ghost use Rattle.lists.specs.Parts.{index_of};
ghost use Rattle.model.specs.Outcome.{mapped};
ghost use Rattle.model.specs.Chart.{chart};
ghost use Rattle.refusal.specs.Refusals.{outcome_of};
ghost use Rattle.rings.specs.Tables.{start_of, table_of};
ghost use Rattle.chart_solver.specs.Constraints.{constraints_in};
ghost use Rattle.chart_placement.specs.DartConstraints.{dart_constraints, constraint_end, gap_of, constraint_count, dart_constraint};
ghost use Rattle.chart_placement.specs.Drawing.{drawn_of, stands_at, has_corners, in_corners};
ghost use Rattle.chart_placement.specs.Marking.{MarkedUpTo, DartAt, marked_position};

use chart_points::Points;
use chart_solver::Constraint;
use labels::{RIGHT, UP};
use plan_bounds::Fit;
use refusal::Refusal;
use rings::{EAST, NORTH, SOUTH, WEST};

// The slope that a line must at least have.
const SLOPE: u8 = 0;

// A chart in arrays of its own, with zeros after its numbers.
#[derive(Clone, Copy)]
pub struct Drawn {
    pub w: u16,
    pub h: u16,
    pub xs: [u16; 200],
    pub ys: [u16; 200],
}

impl Drawn {
    // The chart, lent.
    pub fn points(&self) -> Points
        ensures w { result.w ≡ self.now.w }
        ensures h { result.h ≡ self.now.h }
        ensures xs { result.xs.now ≡ self.now.xs }
        ensures ys { result.ys.now ≡ self.now.ys }
    {
        Points {
            w: self.w,
            h: self.h,
            xs: &self.xs,
            ys: &self.ys,
        }
    }

    // Does the context u stand at a, b?
    #[tactic(auto, unfolding(crate::specs::Drawing::stands_at))]
    fn is_at(&self, u: u16, a: u16, b: u16) -> bool
        ensures { result ≡ stands_at self.now.xs self.now.ys u a b }
    {
        let u = usize::from(u);
        arrays::at(&self.xs, u) == a && arrays::at(&self.ys, u) == b
    }

    // Do the border contexts stand at the corners?
    #[tactic(auto, unfolding(crate::specs::Drawing::has_corners))]
    fn has_corners(&self) -> bool
        ensures { result ≡ has_corners self.now.xs self.now.ys }
    {
        let north = usize::from(NORTH);
        let w = self.xs[north];
        let h = self.ys[north];
        self.is_at(SOUTH, 0, 0) && self.is_at(WEST, 0, h) && self.is_at(EAST, w, 0)
    }
}

// The first context, or the second where a dart's ends are exchanged in its constraint.
#[tactic(auto, unfolding(crate::specs::DartConstraints::constraint_end))]
fn constraint_end(upright: bool, label: u8, u: u16, v: u16) -> u16
    ensures { result ≡ constraint_end upright label u v }
{
    if upright && label == RIGHT { v } else { u }
}

// The gap of a dart's constraint.
#[tactic(auto, unfolding(crate::specs::DartConstraints::gap_of, model::specs::Chart::slope))]
fn gap_of(upright: bool, label: u8) -> u8
    ensures { result ≡ gap_of upright label }
{
    if upright {
        if label == UP { 1 } else { SLOPE }
    } else {
        if label == UP { SLOPE } else { 1 }
    }
}

// How many constraints a dart asks for.
#[tactic(auto, unfolding(crate::specs::DartConstraints::constraint_count))]
fn constraint_count(label: u8) -> usize
    ensures value { result ≡ constraint_count label }
    ensures upper_bound { result ≤ 1 }
{
    usize::from(label <= RIGHT)
}

// The constraint that a number is at most another.
fn level(low: u16, high: u16) -> Constraint
    ensures { result ≡ record { low = low; high = high; gap = 0 } }
{
    Constraint { low, high, gap: 0 }
}

// The constraint of one coordinate that a dart from u to v asks for.
fn dart_constraint(upright: bool, label: u8, u: u16, v: u16) -> Constraint
    ensures { result ≡ dart_constraint upright label u v }
{
    Constraint {
        low: constraint_end(upright, label, u, v),
        high: constraint_end(upright, label, v, u),
        gap: gap_of(upright, label),
    }
}

// The position where v stands first in the ring that begins at a, if its mark says so: the mark is one more than that position, and at most a where v has not been met in this ring.
#[tactic(auto, unfolding(crate::specs::Marking::marked_position))]
fn marked_position(marks: &[u16; 200], v: usize, a: usize) -> Option<usize>
    requires { v < 200 }
    ensures { result ≡ marked_position marks.now v a }
{
    let mark = usize::from(marks[v]);
    if mark > a { Some(mark - 1) } else { None }
}

// Where the label of a dart stands whose end is v, the entry at i of the ring that begins at a: where v stands first in this ring. An entry that is v's first is marked.
fn label_position(marks: &mut [u16; 200], v: usize, a: usize, i: usize) -> usize
    requires low { v < 200 }
    requires small { a + i < 1186 }
    ensures value { (r : List ℕ) → MarkedUpTo marks.old r a i → DartAt r i v → result ≡ a + index_of v r }
    ensures marked { (r : List ℕ) → MarkedUpTo marks.old r a i → DartAt r i v → MarkedUpTo marks.new r a (i + 1) }
{
    if let Some(at) = marked_position(marks, v, a) {
        return at;
    }
    marks[v] = (a + i + 1) as u16;
    a + i
}

// Puts the constraints that a labelled plan asks for to the front of an array for each coordinate: the border's tie, then those of the darts in the order of the rings. How many there are of each.
fn constraints_of(fit: &Fit, labels: &[u8], x: &mut [Constraint], y: &mut [Constraint]) -> usize
    requires room_x { 2 + start_of fit.now.plan.sizes.now fit.now.plan.n ≤ length x.old }
    requires room_y { 2 + start_of fit.now.plan.sizes.now fit.now.plan.n ≤ length y.old }
    ensures x { constraints_in (take result x.new) ≡ dart_constraints false (table_of fit.now.plan) labels.now }
    ensures y { constraints_in (take result y.new) ≡ dart_constraints true (table_of fit.now.plan) labels.now }
    ensures tied { 2 ≤ result }
    ensures fits_x { result ≤ length x.new }
    ensures fits_y { result ≤ length y.new }
{
    x[0] = level(NORTH, EAST);
    x[1] = level(EAST, NORTH);
    y[0] = level(NORTH, WEST);
    y[1] = level(WEST, NORTH);
    let plan = fit.plan;
    let mut count = 2;
    let mut marks = [0u16; 200];
    let mut a = 0;
    for u in 0..plan.n {
        let k = arrays::number_at(plan.sizes, u);
        for i in 0..k {
            let entry = arrays::at(plan.entries, a + i);
            let v = rings::neighbour_of(usize::from(entry));
            let at = label_position(&mut marks, v, a, i);
            let label = labels::label_at(labels, at);
            let s = u as u16;
            x[count] = dart_constraint(false, label, s, entry);
            y[count] = dart_constraint(true, label, s, entry);
            count += constraint_count(label);
        }
        a += k;
    }
    count
}

// The chart with these numbers, if the border contexts stand at its corners.
#[tactic(auto, unfolding(crate::specs::Drawing::drawn_at))]
fn with_corners(xs: [u16; 200], ys: [u16; 200]) -> Result<Drawn, Refusal>
    ensures { outcome_of result ≡ in_corners xs ys }
{
    let north = usize::from(NORTH);
    let drawn = Drawn {
        w: xs[north],
        h: ys[north],
        xs,
        ys,
    };
    if drawn.has_corners() {
        Ok(drawn)
    } else {
        Err(Refusal::NoPlacement)
    }
}

// The chart of a plan, if there is one, with two arrays that its constraints fit.
fn chart_with(
    fit: &Fit,
    labels: &[u8],
    x: &mut [Constraint],
    y: &mut [Constraint],
) -> Result<Drawn, Refusal>
    requires room_x { 2 + start_of fit.now.plan.sizes.now fit.now.plan.n ≤ length x.old }
    requires room_y { 2 + start_of fit.now.plan.sizes.now fit.now.plan.n ≤ length y.old }
    ensures { outcome_of result ≡ mapped drawn_of (chart (table_of fit.now.plan) labels.now) }
{
    let n = fit.plan.n;
    let count = constraints_of(fit, labels, x, y);
    let Some(xs) = chart_solver::solve(n, &x[..count], 2) else {
        return Err(Refusal::NoPlacement);
    };
    let Some(ys) = chart_solver::solve(n, &y[..count], 2) else {
        return Err(Refusal::NoPlacement);
    };
    with_corners(xs, ys)
}

// The chart of a plan that fits: the least placement. A small plan takes short arrays, which are sooner made.
pub fn chart_of(fit: &Fit, labels: &[u8]) -> Result<Drawn, Refusal>
    ensures { outcome_of result ≡ mapped drawn_of (chart (table_of fit.now.plan) labels.now) }
{
    let none = level(NORTH, NORTH);
    if plan_bounds::total_of(fit.plan.sizes, fit.plan.n) <= 126 {
        let mut x = [none; 128];
        let mut y = [none; 128];
        chart_with(fit, labels, &mut x, &mut y)
    } else {
        let mut x = [none; 1188];
        let mut y = [none; 1188];
        chart_with(fit, labels, &mut x, &mut y)
    }
}
