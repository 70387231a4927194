// The labels before the sweep.
ghost use Rattle.std.specs.Prelude.{◌≡◌, ◌+◌, ◌≤◌};
ghost use Rattle.lists.specs.Spans.{zero_padded};
ghost use Rattle.model.specs.Plan.{entry_count};
ghost use Rattle.model.specs.Sweep.{bare_labels};
ghost use Rattle.rings.specs.Tables.{plan_of};
ghost use Rattle.sweep_labelling.specs.Labelling as labelling;

use rings::Rings;

// The label of a dart before the sweep: the border's between border contexts, none elsewhere.
#[tactic(auto, unfolding(crate::specs::Labelling::bare_label))]
fn bare_label(u: usize, v: usize) -> u8
    ensures { result ≡ labelling.bare_label u v }
{
    if labels::both_border(u, v) {
        labels::BORDER
    } else {
        labels::NONE
    }
}

// Puts the labels of u's ring at k and after.
fn bare_ring(labels: &mut [u8], rings: &Rings, k: usize, u: usize)
    requires { k ≤ 1186 }
    ensures { labelling.Adds (plan_of rings.now) k u labels.old labels.new }
{
    for t in 0..rings.size_of(u) {
        arrays::put(labels, k + t, bare_label(u, rings.neighbour_at(u, t)));
    }
}

// How many entries all rings together have.
#[tactic(auto, using(crate::proofs::Unlabelled::counted_start))]
fn entry_count(rings: &Rings) -> usize
    requires { entry_count (plan_of rings.now) ≤ 1186 }
    ensures { result ≡ entry_count (plan_of rings.now) }
{
    let mut k = 0;
    for u in 0..rings.n {
        k += rings.size_of(u);
    }
    k
}

// The labels before the sweep: ring by ring those of the border contexts, and none behind them, since there each dart leaves an inner context.
pub(crate) fn bare_labels(rings: &Rings) -> [u8; 1186]
    requires { entry_count (plan_of rings.now) ≤ 1186 }
    ensures { result ≡ zero_padded 1186 (bare_labels (plan_of rings.now)) }
{
    let mut b = [0u8; 1186];
    let mut k = 0;
    for u in 0..rings.n.min(4) {
        bare_ring(&mut b, rings, k, u);
        k += rings.size_of(u);
    }
    let end = entry_count(rings);
    b[k..end].fill(labels::NONE);
    b
}
