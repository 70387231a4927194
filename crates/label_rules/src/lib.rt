// The label rules of a plan that fits: the lowest context that breaks them, with the label of each dart found by a table of labels.
#![tactic(auto)]

ghost use Rattle.std.specs.Prelude.{◌≡◌, ℕ, ◌≤◌, ◌<◌, ◌*◌, ◌&&◌, true, false, length, get_or};
ghost use Rattle.std.specs.List.{list_any};
ghost use Rattle.model.specs.Outcome.{rule};
ghost use Rattle.lists.specs.Folds.{some_within};
ghost use Rattle.model.specs.Plan.{neighbour, border, ring};
ghost use Rattle.model.specs.Labels.{label_of, bad_dart, not_due, breaks, label_rules};
ghost use Rattle.refusal.specs.Refusals.{outcome_of};
ghost use Rattle.rings.specs.Tables.{starts_of, plan_of, table_of};
ghost use Rattle.plan_bounds.specs.Fits.{fit};
ghost use Rattle.label_rules.specs.LabelBy.{label_mark, across, note_marks, note_around, marks_filled, Marked, wrong_dart};

use plan_bounds::Fit;
use refusal::Refusal;
use rings::Rings;
use std::ops::Range;

// The least mark of a label that has a direction.
const DIRECTED: u8 = 2;

// The mark of a label, as a table holds it: 5 up, 4 right, 3 down, 2 left, 1 between border contexts, and 0 none.
fn mark_of(label: u8) -> u8
    ensures { result ≡ label_mark label }
{
    labels::NONE.saturating_sub(label)
}

// The mark of the label two quarters on, of one that has a direction.
#[tactic(auto, unfolding(crate::specs::LabelBy::across))]
fn across(mark: u8) -> u8
    ensures { result ≡ across mark }
{
    mark % 4 + 2
}

// The labels of a ring's entries noted in a row of a table, from the last entry to the first.
fn note_row(row: &mut [u8], ring: &[u16], labels: &[u8])
    requires { length labels.now ≡ length ring.now }
    ensures { row.new ≡ note_marks ring.now labels.now 0 (length ring.now) row.old }
{
    for i in (0..ring.len()).rev() {
        let v = rings::neighbour_of(usize::from(ring[i]));
        if v < row.len() {
            row[v] = mark_of(labels[i]);
        }
    }
}

// The labels around u noted in a table that has a row for each context, from the last entry of u's ring to the first: in u's row where the arrays have the ring and its labels.
fn note_around(table: &mut [u8], rings: &Rings, labels: &[u8], u: usize)
    requires fits { fit (plan_of rings.now) ≡ true }
    requires room { 200 * rings.now.n ≤ length table.old }
    requires there { u < rings.now.n }
    ensures { table.new ≡ note_around rings.now labels.now u table.old }
{
    let Range { start, end } = rings.span(u);
    if end <= rings.entries.len() && end <= labels.len() {
        let row = 200 * u;
        note_row(
            &mut table[row..row + 200],
            &rings.entries[start..end],
            &labels[start..end],
        );
        return;
    }
    for i in (start..end).rev() {
        let v = rings::neighbour_of(arrays::number_at(rings.entries, i));
        table[200 * u + v] = mark_of(labels::label_at(labels, i));
    }
}

// The labels of all rings noted in a table that has a row for each context.
fn fill(table: &mut [u8], rings: &Rings, labels: &[u8])
    requires fits { fit (plan_of rings.now) ≡ true }
    requires room { 200 * rings.now.n ≤ length table.old }
    ensures { table.new ≡ marks_filled rings.now labels.now table.old }
{
    for u in 0..rings.n {
        note_around(table, rings, labels, u);
    }
}

// The rings of a plan that fits, with their labels, and with a table in which the mark of each label stands.
#[derive(Clone, Copy)]
struct Labelled<'a, 'b, 'c> {
    rings: Rings<'a>,
    labels: &'b [u8],
    table: &'c [u8],
    ghost fits: { fit (plan_of rings) ≡ true },
    ghost begins: { rings.starts.now ≡ starts_of rings.sizes.now },
    ghost own: { Marked rings labels.now table.now },
}

impl Labelled<'_, '_, '_> {
    // The mark of the dart from u to v, two contexts; 0 where there is no dart.
    fn mark_at(&self, u: usize, v: usize) -> u8
        requires { (u < self.now.rings.n) × (v < self.now.rings.n) }
        ensures { result ≡ label_mark (label_of (plan_of self.now.rings) self.now.labels.now u v) }
    {
        self.table[200 * u + v]
    }

    // Does the dart from u to v, not both border contexts, break the rules? It does unless it and its reverse differ by two quarters.
    fn is_bad_inner(&self, u: usize, v: usize) -> bool
        requires there { (u < self.now.rings.n) × (v < self.now.rings.n) }
        requires inner { (border u && border v) ≡ false }
        ensures { result ≡ bad_dart (plan_of self.now.rings) self.now.labels.now u v }
    {
        let x = self.mark_at(u, v);
        x < DIRECTED || self.mark_at(v, u) != across(x)
    }

    // Does the dart from u to v break the rules? The border's label stands between border contexts, and only there.
    fn is_bad(&self, u: usize, v: usize) -> bool
        requires { (u < self.now.rings.n) × (v < self.now.rings.n) }
        ensures { result ≡ bad_dart (plan_of self.now.rings) self.now.labels.now u v }
    {
        if labels::both_border(u, v) {
            return self.mark_at(u, v) != mark_of(labels::BORDER);
        }
        self.is_bad_inner(u, v)
    }

    // Is the dart from u to v, of a border context, an inner dart without the label due?
    fn is_not_due(&self, u: usize, v: usize) -> bool
        requires { (u < 4) × (u < self.now.rings.n) × (v < self.now.rings.n) }
        ensures { result ≡ not_due (plan_of self.now.rings) self.now.labels.now u v }
    {
        v >= 4 && self.mark_at(u, v) != mark_of(labels::due_label(u))
    }

    // Does the dart from u to v break the rules, or has it, where u is a border context, a label that is not due?
    #[tactic(auto, unfolding(crate::specs::LabelBy::wrong_dart))]
    fn is_wrong(&self, u: usize, v: usize) -> bool
        requires { (u < self.now.rings.n) × (v < self.now.rings.n) }
        ensures { result ≡ wrong_dart (plan_of self.now.rings) self.now.labels.now u v }
    {
        self.is_bad(u, v) || u < 4 && self.is_not_due(u, v)
    }

    // Does one of these darts, which leave an inner context, break the rules?
    fn has_bad_inner(&self, u: usize, ring: &[u16]) -> bool
        requires inner { 4 ≤ u }
        requires there { (i : ℕ) → i < length ring.now → (u < self.now.rings.n) × (neighbour (get_or ring.now i 0) < self.now.rings.n) }
        ensures { result ≡ some_within (λ i. bad_dart (plan_of self.now.rings) self.now.labels.now u (neighbour (get_or ring.now i 0))) 0 (length ring.now) }
    {
        for i in 0..ring.len() {
            if self.is_bad_inner(u, rings::neighbour_of(usize::from(ring[i]))) {
                return true;
            }
        }
        false
    }

    // Is a dart that leaves u wrong? That u is inner, and that the entries have its ring, is tested once, and not at each dart.
    fn has_wrong(&self, u: usize) -> bool
        ensures { result ≡ list_any (wrong_dart (plan_of self.now.rings) self.now.labels.now u) (ring (plan_of self.now.rings) u) }
    {
        let Range { start, end } = self.rings.span(u);
        if u >= 4 && end <= self.rings.entries.len() {
            return self.has_bad_inner(u, &self.rings.entries[start..end]);
        }
        for i in start..end {
            if self.is_wrong(
                u,
                rings::neighbour_of(arrays::number_at(self.rings.entries, i)),
            ) {
                return true;
            }
        }
        false
    }

    // Does u break the rules: is one of its darts wrong, or are the labels of an inner context not four runs?
    fn is_broken_at(&self, u: usize) -> bool
        ensures { result ≡ breaks (plan_of self.now.rings) self.now.labels.now u }
    {
        let Range { start, end } = self.rings.span(u);
        self.has_wrong(u) || u >= 4 && !labels::runs::four_runs(self.labels, start, end)
    }

    // No context breaks the rules; or the lowest that does.
    fn check(&self) -> Result<(), Refusal>
        ensures { outcome_of result ≡ rule 10 self.now.rings.n (breaks (plan_of self.now.rings) self.now.labels.now) }
    {
        refusal::none_of(self.rings.n, |u| self.is_broken_at(u), Refusal::BadLabels)
    }
}

// No context breaks the label rules; or the lowest that does. The table of labels has N cells, with a row for each context.
fn check_in<const N: usize>(fit: &Fit, labels: &[u8]) -> Result<(), Refusal>
    requires { (200 * fit.now.plan.n ≤ N) × (N ≤ 40000) }
    ensures { outcome_of result ≡ label_rules (table_of fit.now.plan) labels.now }
{
    let plan = fit.plan;
    let starts = rings::starts_of(plan.sizes);
    let rings = plan.rings(&starts);
    let mut table = [0u8; N];
    fill(&mut table, &rings, labels);
    let labelled = Labelled {
        rings,
        labels,
        table: &table,
    };
    labelled.check()
}

// No context breaks the label rules; or the lowest that does. A table for few contexts is small.
pub fn check(fit: &Fit, labels: &[u8]) -> Result<(), Refusal>
    ensures { outcome_of result ≡ label_rules (table_of fit.now.plan) labels.now }
{
    if fit.plan.n <= rings::FEW_CONTEXTS {
        check_in::<4000>(fit, labels)
    } else if fit.plan.n <= rings::SOME_CONTEXTS {
        check_in::<12000>(fit, labels)
    } else {
        check_in::<40000>(fit, labels)
    }
}
