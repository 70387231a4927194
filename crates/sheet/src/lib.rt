// The sheet: plan, labels and chart in flat arrays. The calls that change it take and return it by value; all else is lent it.
#![tactic(auto)]

mod making;

ghost use Rattle.std.specs.Prelude.{◌≡◌, true, min, max, take, leb, IfOk};
ghost use Rattle.lists.specs.Spans.{stretch};
ghost use Rattle.model.specs.Outcome.{passed, require};
ghost use Rattle.model.specs.File.{fresh, labelled, charted};
ghost use Rattle.model.specs.Calls.{judge};
ghost use Rattle.refusal.specs.Refusals.{outcome_of};
ghost use Rattle.rings.specs.Tables.{start_of, table_of};
ghost use Rattle.chart_points.specs.Charts.{chart_of_points};
ghost use Rattle.sheet.specs.Sheets.{packed, held_count, held_plan, held_labels, held_chart, fits, reads, stage_read, rank};
ghost use Rattle.sheet.specs.Answers.{answer_of};

use chart_points::Points;
pub use making::BoundedTable;
use plan_bounds::Fit;
use refusal::Refusal;
use rings::Table;

// How far a sheet has come.
#[derive(Clone, Copy, PartialEq, Eq, PartialOrd, Ord)]
pub enum Stage {
    Empty = 0,
    Open = 1,
    Labelled = 2,
    Charted = 3,
}

// A sheet. What is not in use is zero.
#[derive(Clone, Copy)]
pub struct Sheet {
    pub stage: Stage,
    pub n: u16,
    pub sizes: [u8; 200],
    pub entries: [u16; 1186],
    pub labels: [u8; 1186],
    pub w: u16,
    pub h: u16,
    pub xs: [u16; 200],
    pub ys: [u16; 200],
}

// A sheet that keeps what an opened file must keep: 4 to 9, with labels 10, with a chart 11 and 12.
#[derive(Clone, Copy)]
pub struct Judged {
    pub sheet: Sheet,
    pub ghost kept: { judge (reads sheet) ≡ passed },
}

// A fresh sheet.
#[tactic(auto, unfolding(crate::specs::Sheets::packed, crate::specs::Sheets::pack, crate::specs::Sheets::no_chart, lists::specs::Spans::zero_padded, lists::specs::Spans::zeros))]
pub fn fresh_sheet() -> Sheet
    ensures { result ≡ packed fresh }
{
    Sheet {
        stage: Stage::Empty,
        n: 0,
        sizes: [0u8; 200],
        entries: [0u16; 1186],
        labels: [0u8; 1186],
        w: 0,
        h: 0,
        xs: [0u16; 200],
        ys: [0u16; 200],
    }
}

// The sheet's plan, whether it fits or not.
#[tactic(auto, unfolding(crate::specs::Sheets::held_plan))]
pub fn table_of(sheet: &Sheet) -> Table
    ensures sizes { result.sizes.now ≡ sheet.now.sizes }
    ensures entries { result.entries.now ≡ sheet.now.entries }
    ensures n { result.n ≡ sheet.now.n }
    ensures plan { table_of result ≡ held_plan sheet.now }
{
    Table {
        sizes: &sheet.sizes,
        entries: &sheet.entries,
        n: usize::from(sheet.n),
    }
}

// The chart in the sheet's arrays, whether one stands or not.
#[tactic(auto, unfolding(crate::specs::Sheets::held_chart, chart_points::specs::Charts::chart_on))]
pub fn points_of(sheet: &Sheet) -> Points
    ensures w { result.w ≡ sheet.now.w }
    ensures h { result.h ≡ sheet.now.h }
    ensures xs { result.xs.now ≡ sheet.now.xs }
    ensures ys { result.ys.now ≡ sheet.now.ys }
    ensures chart { chart_of_points sheet.now.n result ≡ held_chart sheet.now }
{
    Points {
        w: sheet.w,
        h: sheet.h,
        xs: &sheet.xs,
        ys: &sheet.ys,
    }
}

// The labels of the sheet, one for each entry of its plan, as far as the array reaches.
#[tactic(auto, using(crate::proofs::Reading::labels_lent))]
pub fn labels_of(sheet: &Sheet) -> &[u8]
    ensures front { result.now ≡ take (start_of sheet.now.sizes (min sheet.now.n 200)) sheet.now.labels }
    ensures held { fits sheet.now ≡ true → result.now ≡ held_labels sheet.now }
{
    let total = plan_bounds::total_of(&sheet.sizes, usize::from(sheet.n));
    &sheet.labels[..total.min(1186)]
}

// A sheet whose plan fits.
#[derive(Clone, Copy)]
pub struct Fitting<'a> {
    pub sheet: &'a Sheet,
    pub ghost fits: { fits sheet.now ≡ true },
}

impl<'a> Fitting<'a> {
    // The sheet's plan.
    pub fn plan(&self) -> Table<'a>
        ensures sizes { result.sizes.now ≡ self.now.sheet.now.sizes }
        ensures entries { result.entries.now ≡ self.now.sheet.now.entries }
        ensures n { result.n ≡ self.now.sheet.now.n }
        ensures plan { table_of result ≡ held_plan self.now.sheet.now }
    {
        table_of(self.sheet)
    }

    // The sheet's plan, as one that fits.
    #[tactic(auto, unfolding(crate::specs::Sheets::fits))]
    pub fn fit(&self) -> Fit<'a>
        ensures sizes { result.plan.sizes.now ≡ self.now.sheet.now.sizes }
        ensures entries { result.plan.entries.now ≡ self.now.sheet.now.entries }
        ensures n { result.plan.n ≡ self.now.sheet.now.n }
        ensures plan { table_of result.plan ≡ held_plan self.now.sheet.now }
    {
        Fit { plan: self.plan() }
    }

    // The sheet's labels, one for each entry of its plan.
    pub fn labels(&self) -> &'a [u8]
        ensures { result.now ≡ held_labels self.now.sheet.now }
    {
        labels_of(self.sheet)
    }

    // The chart in the sheet's arrays, whether one stands or not.
    pub fn points(&self) -> Points<'a>
        ensures w { result.w ≡ self.now.sheet.now.w }
        ensures h { result.h ≡ self.now.sheet.now.h }
        ensures xs { result.xs.now ≡ self.now.sheet.now.xs }
        ensures ys { result.ys.now ≡ self.now.sheet.now.ys }
        ensures chart { chart_of_points self.now.sheet.now.n result ≡ held_chart self.now.sheet.now }
    {
        points_of(self.sheet)
    }

    // The sheet's plan, whose rings fit the arrays of the sheets that are made of it.
    fn bounded(&self) -> BoundedTable<'a>
        ensures n { result.table.n ≡ self.now.sheet.now.n }
        ensures plan { table_of result.table ≡ held_plan self.now.sheet.now }
    {
        BoundedTable { table: self.plan() }
    }

    // The sheet of the plan with these labels, of which there is room for 1186.
    pub fn relabelled(&self, labels: &[u8]) -> Sheet
        ensures { result ≡ packed (labelled (held_plan self.now.sheet.now) (take 1186 labels.now)) }
    {
        self.bounded().labelled(labels)
    }

    // The sheet of the plan with the first of these labels, as many as it has entries.
    pub fn with_labels(&self, labels: &[u8]) -> Sheet
        ensures { result ≡ packed (labelled (held_plan self.now.sheet.now) (stretch labels.now 0 (held_count self.now.sheet.now))) }
    {
        let total = plan_bounds::total_of(&self.sheet.sizes, usize::from(self.sheet.n));
        self.bounded().labelled(&labels[..total.min(labels.len())])
    }

    // The sheet of the plan and the labels with this chart.
    pub fn charted(&self, chart: &Points) -> Sheet
        ensures { result ≡ packed (charted (held_plan self.now.sheet.now) (held_labels self.now.sheet.now) (chart_of_points self.now.sheet.now.n chart.now)) }
    {
        self.bounded().charted(self.labels(), chart)
    }
}

// The stage that counts: Empty where the plan does not fit.
#[tactic(auto, unfolding(crate::specs::Sheets::stage_read, crate::specs::Sheets::fits))]
pub fn stage_of(sheet: &Sheet) -> Stage
    ensures { result ≡ stage_read sheet.now }
{
    if plan_bounds::is_fit(&table_of(sheet)) {
        sheet.stage
    } else {
        Stage::Empty
    }
}

// The number of a stage.
#[tactic(auto, unfolding(crate::specs::Sheets::rank))]
pub fn rank_of(stage: Stage) -> usize
    ensures { result ≡ rank stage }
{
    stage as usize
}

// Nothing where the sheet has come as far as this stage; else the refusal of a stage too early.
#[tactic(auto, using(crate::proofs::Reading::stage_order))]
pub fn require_stage(sheet: &Sheet, stage: Stage) -> Result<(), Refusal>
    ensures { outcome_of result ≡ require (leb (rank stage) (rank (stage_read sheet.now))) 13 0 }
{
    if stage_of(sheet) < stage {
        Err(Refusal::TooEarly)
    } else {
        Ok(())
    }
}

// A sheet whose plan fits, where it has come as far as this stage and past Empty; else the refusal of a stage too early.
#[tactic(auto, using(crate::proofs::Reading::fitting_steps), unfolding(crate::specs::Answers::answer_of))]
pub fn require_fitting(sheet: &Sheet, stage: Stage) -> Result<Fitting, Refusal>
    ensures answer { answer_of (outcome_of result) ≡ require (leb (max (rank stage) 1) (rank (stage_read sheet.now))) 13 0 }
    ensures lent { IfOk result (λ f. f.sheet.now ≡ sheet.now) }
{
    require_stage(sheet, stage.max(Stage::Open))?;
    Ok(Fitting { sheet })
}
