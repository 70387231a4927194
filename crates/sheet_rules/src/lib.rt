// The rules 8 to 12 of a sheet, as far as its stage has come. The two public functions take every value of the struct: one whose plan does not fit counts as a fresh sheet.
#![tactic(auto)]

ghost use Rattle.std.specs.Prelude.{◌≡◌};
ghost use Rattle.model.specs.Labels.{label_rules};
ghost use Rattle.model.specs.File.{charted};
ghost use Rattle.refusal.specs.Refusals.{outcome_of};
ghost use Rattle.sheet.specs.Sheets.{held_plan, held_labels, held_chart, reads};
ghost use Rattle.sheet_rules.specs.Rules.{flat_rules, chart_rules, rules_from_10, rules_from_8};

use refusal::Refusal;
use sheet::{Fitting, Sheet, Stage};

// 8 and 9 of a sheet.
#[tactic(auto, using(crate::proofs::Rules::flat_parts), unfolding(crate::specs::Rules::flat_rules))]
fn flat_part(sheet: &Sheet) -> Result<(), Refusal>
    ensures { outcome_of result ≡ flat_rules sheet.now.n (held_plan sheet.now) }
{
    let starts = rings::starts_of(&sheet.sizes);
    let plan = sheet::table_of(sheet);
    let rings = plan.rings(&starts);
    faces::rule8(&rings)?;
    faces::rule9(&rings)
}

// 10 of a sheet whose plan fits.
fn label_part(fitting: &Fitting) -> Result<(), Refusal>
    ensures { outcome_of result ≡ label_rules (held_plan fitting.now.sheet.now) (held_labels fitting.now.sheet.now) }
{
    label_rules::check(&fitting.fit(), fitting.labels())
}

// 11 and 12 of a sheet whose plan fits: the chart in its arrays is the plan's chart.
#[tactic(auto, using(crate::proofs::Rules::undrawn))]
fn chart_part(fitting: &Fitting) -> Result<(), Refusal>
    ensures { outcome_of result ≡ chart_rules (held_plan fitting.now.sheet.now) (held_labels fitting.now.sheet.now) (held_chart fitting.now.sheet.now) }
{
    let n = usize::from(fitting.sheet.n);
    let drawn = chart_placement::chart_of(&fitting.fit(), fitting.labels())?;
    if chart_points::same_chart(n, &fitting.points(), &drawn.points()) {
        Ok(())
    } else {
        Err(Refusal::OtherChart)
    }
}

// 10 of a sheet whose plan fits, then 11 and 12.
#[tactic(auto, using(crate::proofs::Rules::parts), unfolding(crate::specs::Rules::rules_from_10))]
fn charted_part(fitting: &Fitting) -> Result<(), Refusal>
    ensures { outcome_of result ≡ rules_from_10 (charted (held_plan fitting.now.sheet.now) (held_labels fitting.now.sheet.now) (held_chart fitting.now.sheet.now)) }
{
    label_part(fitting)?;
    chart_part(fitting)
}

// 10 to 12 of a sheet: of its labels and its chart, where it has them. One without labels is passed at once, before its plan is read.
#[tactic(auto, using(crate::proofs::Rules::from_10_parts), unfolding(sheet::specs::Sheets::rank))]
pub fn rules_from_10(sheet: &Sheet) -> Result<(), Refusal>
    ensures { outcome_of result ≡ rules_from_10 (reads sheet.now) }
{
    if sheet.stage < Stage::Labelled {
        return Ok(());
    }
    match sheet::stage_of(sheet) {
        Stage::Empty | Stage::Open => Ok(()),
        Stage::Labelled => label_part(&Fitting { sheet }),
        Stage::Charted => charted_part(&Fitting { sheet }),
    }
}

// 8 to 12 of a sheet: 8 and 9 of its plan, then 10 to 12.
#[tactic(auto, using(crate::proofs::Rules::from_8_parts), unfolding(sheet::specs::Sheets::rank, crate::specs::Rules::rules_from_8))]
pub fn rules_from_8(sheet: &Sheet) -> Result<(), Refusal>
    ensures { outcome_of result ≡ rules_from_8 (reads sheet.now) }
{
    if sheet::stage_of(sheet) < Stage::Open {
        return Ok(());
    }
    flat_part(sheet)?;
    rules_from_10(sheet)
}
