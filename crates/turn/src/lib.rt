// The turn: both darts of each named edge by a quarter, equal to the model's on every plan that fits.
// One pass tests and turns the named edges. An edge named before is known by its label, which is not the old one any more.
#![tactic(auto)]

ghost use Rattle.std.specs.Prelude.{◌≡◌, ◌≤◌, ◌<◌, ◌*◌, ◌%◌, true};
ghost use Rattle.lists.specs.Parts.{pairs};
ghost use Rattle.model.specs.Outcome.{mapped};
ghost use Rattle.model.specs.Turn.{quarters, turn};
ghost use Rattle.refusal.specs.Refusals.{outcome_of};
ghost use Rattle.rings.specs.Tables.{starts_of, plan_of, table_of};
ghost use Rattle.plan_bounds.specs.Fits.{fit};
ghost use Rattle.turn.specs.Turned.{labels_in_array, put_into};
ghost use Rattle.turn.specs.EdgeTurns.{label_position, turn_at, unturned, pairs_turned};

use plan_bounds::Fit;
use refusal::Refusal;
use ring_positions::Located;

// The quarters of a direction: one clockwise, three counterclockwise.
// A number, and no enum: the pass over the edges comes before the direction is tested, and turns by whatever direction it is given.
fn quarters_of(direction: u8) -> u8
    ensures value { result ≡ quarters direction }
    ensures upper_bound { (result < 4) × (result % 2 ≡ 1) }
{
    if direction == 0 { 1 } else { 3 }
}

// The label at i turned clockwise by q quarters; nothing where i is past the last.
#[tactic(auto, unfolding(crate::specs::EdgeTurns::turn_at))]
fn turn_at(labels: &mut [u8], i: usize, q: u8)
    ensures { labels.new ≡ turn_at q i labels.old }
{
    let turned = labels::turned(labels::label_at(labels, i), q);
    arrays::put(labels, i, turned);
}

// The rings of a plan that fits, with a table that finds their entries: by them the label of each dart is found where the model has it.
#[derive(Clone, Copy)]
struct FitLocated<'a> {
    located: Located<'a>,
    ghost fits: { fit (plan_of located.rings) ≡ true },
    ghost begins: { located.rings.starts.now ≡ starts_of located.rings.sizes.now },
}

impl FitLocated<'_> {
    // Where the label of the dart from u to v stands, if there is a dart.
    fn position_of(&self, u: usize, v: usize) -> Option<usize>
        ensures { result ≡ label_position (plan_of self.now.located.rings) u v }
    {
        let i = self.located.index_of(u, v);
        let rings = self.located.rings;
        if i < rings.size_of(u) {
            return Some(arrays::number_at(rings.starts, u) + i);
        }
        None
    }

    // Where the label of the dart from u to v stands, if it is an inner dart whose label was not turned yet.
    #[tactic(auto, unfolding(crate::specs::EdgeTurns::unturned, crate::specs::EdgeTurns::bad_at))]
    fn unturned_position(&self, old: &[u8], new: &[u8], u: usize, v: usize) -> Option<usize>
        ensures { result ≡ unturned old.now new.now u v (label_position (plan_of self.now.located.rings) u v) }
    {
        let i = self.position_of(u, v)?;
        if labels::both_border(u, v) {
            return None;
        }
        if labels::label_at(new, i) != labels::label_at(old, i) {
            return None;
        }
        Some(i)
    }

    // The labels with each named edge turned by q quarters, where every pair is an inner edge that was not named before.
    fn turn_pairs(&self, labels: [u8; 1186], items: &[u16], q: u8) -> Result<[u8; 1186], Refusal>
        requires { (q < 4) × (q % 2 ≡ 1) }
        ensures { outcome_of result ≡ pairs_turned (plan_of self.now.located.rings) q (pairs items.now) labels }
    {
        let (pairs, _) = items.as_chunks::<2>();
        let mut turned = labels;
        for (k, pair) in pairs.iter().enumerate() {
            let u = usize::from(pair[0]);
            let v = usize::from(pair[1]);
            let i = self
                .unturned_position(&labels, &turned, u, v)
                .ok_or(Refusal::BadPair(k))?;
            if let Some(back) = self.position_of(v, u) {
                turn_at(&mut turned, back, q);
            }
            turn_at(&mut turned, i, q);
        }
        Ok(turned)
    }
}

// The labels with each named edge turned by q quarters, with a table of N cells, which has a row for each context. The table is made first, so that it is cleared once.
fn turn_in<const N: usize>(
    fit: &Fit,
    labels: [u8; 1186],
    items: &[u16],
    q: u8,
) -> Result<[u8; 1186], Refusal>
    requires quarters { (q < 4) × (q % 2 ≡ 1) }
    requires room { (200 * fit.now.plan.n ≤ N) × (N ≤ 40000) }
    ensures { outcome_of result ≡ pairs_turned (table_of fit.now.plan) q (pairs items.now) labels }
{
    let mut positions = [0u8; N];
    let plan = fit.plan;
    let starts = rings::starts_of(plan.sizes);
    let rings = plan.rings(&starts);
    ring_positions::fill(&mut positions, &rings);
    let located = Located {
        rings,
        positions: &positions,
    };
    let fit_located = FitLocated { located };
    fit_located.turn_pairs(labels, items, q)
}

// The same; the table is small for few contexts.
fn turn_edges(fit: &Fit, labels: [u8; 1186], items: &[u16], q: u8) -> Result<[u8; 1186], Refusal>
    requires { (q < 4) × (q % 2 ≡ 1) }
    ensures { outcome_of result ≡ pairs_turned (table_of fit.now.plan) q (pairs items.now) labels }
{
    if fit.plan.n <= rings::FEW_CONTEXTS {
        turn_in::<4000>(fit, labels, items, q)
    } else if fit.plan.n <= rings::SOME_CONTEXTS {
        turn_in::<12000>(fit, labels, items, q)
    } else {
        turn_in::<40000>(fit, labels, items, q)
    }
}

// The labels with both darts of each named edge turned by a quarter, after the list, the direction and the label rules are tested.
pub fn turn_labels(
    labels: [u8; 1186],
    fit: &Fit,
    items: &[u16],
    direction: u8,
) -> Result<[u8; 1186], Refusal>
    ensures { outcome_of result ≡ mapped (put_into labels) (turn (table_of fit.now.plan) (labels_in_array (table_of fit.now.plan) labels) items.now direction) }
{
    let turned = turn_edges(fit, labels, items, quarters_of(direction))?;
    if items.len() % 2 != 0 || 1 < direction {
        return Err(Refusal::BadPair(items.len() / 2));
    }
    label_rules::check(fit, &turned)?;
    Ok(turned)
}
