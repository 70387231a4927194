// The calls that change a sheet, but for open: offer, sweep, turn and chart. Each takes every value of the struct: one whose plan does not fit counts as a fresh sheet.
#![tactic(auto)]

ghost use Rattle.std.specs.Prelude.{◌≡◌};
ghost use Rattle.model.specs.Plan.{labels_due};
ghost use Rattle.model.specs.Calls.{offer_call, sweep_call, turn_call, chart_call};
ghost use Rattle.refusal.specs.Refusals.{outcome_of};
ghost use Rattle.sheet.specs.Sheets.{held_plan, reads};
ghost use Rattle.sheet.specs.Answers.{packed_as};

use refusal::Refusal;
use sheet::{Judged, Sheet, Stage};
use sweep::RuledFit;

// How many labels the plan of a sheet takes.
fn labels_due(sheet: &Sheet) -> usize
    ensures { result ≡ labels_due (held_plan sheet.now) }
{
    rings::labels_due(sheet.n)
}

// Offer (OPEN up): labels for all rings in context order, checked and stored; the chart is dropped.
#[tactic(auto, using(crate::proofs::Offers::steps), unfolding(sheet::specs::Sheets::rank, sheet::specs::Answers::answer_of))]
pub fn offer(sheet: Sheet, labels: &[u8]) -> Result<Sheet, Refusal>
    ensures { outcome_of result ≡ packed_as (offer_call (reads sheet) labels.now) }
{
    let fitting = sheet::require_fitting(&sheet, Stage::Open)?;
    if labels.len() != labels_due(&sheet) {
        return Err(Refusal::OtherRecord(0));
    }
    label_rules::check(&fitting.fit(), labels)?;
    Ok(fitting.relabelled(labels))
}

// Sweep (OPEN up): labels worked out from North down to South, stored; the chart is dropped.
#[tactic(auto, using(sheet::proofs::Sweeps::steps), unfolding(sheet::specs::Sheets::rank, sheet::specs::Answers::answer_of))]
pub fn sweep(sheet: Sheet) -> Result<Sheet, Refusal>
    ensures { outcome_of result ≡ packed_as (sweep_call (reads sheet)) }
{
    let fitting = sheet::require_fitting(&sheet, Stage::Open)?;
    let swept = sweep::sweep_labels(&fitting.fit())?;
    Ok(fitting.with_labels(&swept))
}

// Sweep of a sheet that keeps what an opened file must keep: the same, and the rules 4 to 9 of its plan are not tested again.
#[tactic(auto, using(sheet::proofs::Sweeps::steps), unfolding(sheet::specs::Sheets::rank, sheet::specs::Answers::answer_of))]
pub fn sweep_judged(judged: Judged) -> Result<Sheet, Refusal>
    ensures { outcome_of result ≡ packed_as (sweep_call (reads judged.sheet)) }
{
    let fitting = sheet::require_fitting(&judged.sheet, Stage::Open)?;
    let ruled = RuledFit { fit: fitting.fit() };
    let swept = sweep::sweep_ruled(&ruled)?;
    Ok(fitting.with_labels(&swept))
}

// Turn (LABELLED up): the labels of both darts of each named edge, a quarter clockwise (direction 0) or counterclockwise (1); the chart is dropped.
#[tactic(auto, using(crate::proofs::Turns::steps), unfolding(sheet::specs::Sheets::rank, sheet::specs::Answers::answer_of))]
pub fn turn(sheet: Sheet, items: &[u16], direction: u8) -> Result<Sheet, Refusal>
    ensures { outcome_of result ≡ packed_as (turn_call (reads sheet) items.now direction) }
{
    let fitting = sheet::require_fitting(&sheet, Stage::Labelled)?;
    let turned = turn::turn_labels(sheet.labels, &fitting.fit(), items, direction)?;
    Ok(fitting.with_labels(&turned))
}

// Chart (LABELLED up): the least placement that keeps the compass rules, stored.
#[tactic(auto, using(sheet::proofs::Charts::steps), unfolding(sheet::specs::Sheets::rank, sheet::specs::Answers::answer_of))]
pub fn chart(sheet: Sheet) -> Result<Sheet, Refusal>
    ensures { outcome_of result ≡ packed_as (chart_call (reads sheet)) }
{
    let fitting = sheet::require_fitting(&sheet, Stage::Labelled)?;
    let drawn = chart_placement::chart_of(&fitting.fit(), fitting.labels())?;
    Ok(fitting.charted(&drawn.points()))
}
