// Four runs of labels, found in one pass around a ring.
ghost use Rattle.std.specs.Prelude.{◌≡◌, ◌≤◌};
ghost use Rattle.std.proofs.Math.Seq.{slice};
ghost use Rattle.model.specs.Labels.{four_runs};
ghost use Rattle.labels.specs.Changes.{change_weight};

// What a change from label a to label b weighs: 0 where there is none, 1 to the next label clockwise, 5 otherwise. It has no branches.
#[tactic(auto, unfolding(crate::specs::Changes::change_weight))]
fn change_weight(a: u8, b: u8) -> u8
    ensures value { result ≡ change_weight a b }
    ensures upper_bound { result ≤ 5 }
{
    let is_next = (a < 4) & (b == (a % 4 + 1) % 4);
    let changed = if is_next { 1 } else { 5 };
    if a == b { 0 } else { changed }
}

// Are the labels from a up to e four runs, up, right, down, left, going round? They are if their changes, the one from the last label to the first among them, weigh 4. A sum past 255 is no more than 255.
#[tactic(auto, using(crate::proofs::Rounds::runs_none, crate::proofs::Rounds::round_is, crate::proofs::Rounds::weighs_start, crate::proofs::Rounds::weighs_end))]
pub fn four_runs(labels: &[u8], a: usize, e: usize) -> bool
    ensures { result ≡ four_runs (slice a e labels.now) }
{
    let end = e.min(labels.len());
    if end <= a {
        return false;
    }
    let round = &labels[a..end];
    let mut last = round[round.len() - 1];
    let mut changes = 0u8;
    for &label in round {
        changes = changes.saturating_add(change_weight(last, label));
        last = label;
    }
    changes == 4
}
