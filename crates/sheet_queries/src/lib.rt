// The calls that tell of a sheet and leave it as it is: write, scan and same. Each takes every value of the struct: one whose plan does not fit counts as a fresh sheet.
#![tactic(auto)]

ghost use Rattle.std.specs.Prelude.{◌≡◌, ◌≤◌, ◌&&◌, eqb, length};
ghost use Rattle.model.specs.Chart.{same_chart};
ghost use Rattle.model.specs.Calls.{write_call, scan_call, same_call};
ghost use Rattle.refusal.specs.Refusals.{outcome_of};
ghost use Rattle.file_writing.specs.WrittenFiles.{labels_in, sheet_with, sheet_held, buffer_after};
ghost use Rattle.sheet.specs.Sheets.{held_plan, held_chart, held_sheet, reads, rank};
ghost use Rattle.sheet.specs.Answers.{length_of};

use file_writing::{Held, Parts};
use plan_bounds::Fit;
use refusal::Refusal;
use rings::Table;
use sheet::{Fitting, Sheet, Stage};

// What follows the plan in a file of the sheet, by the stage.
#[tactic(auto, using(crate::proofs::Writes::parts), unfolding(sheet::specs::Sheets::held_sheet, sheet::specs::Sheets::rank))]
fn parts_of<'a>(fitting: &Fitting<'a>) -> Parts<'a>
    ensures few { length (labels_in result) ≤ 1186 }
    ensures written { 1 ≤ rank fitting.now.sheet.now.stage → sheet_with (held_plan fitting.now.sheet.now) fitting.now.sheet.now.n result ≡ held_sheet fitting.now.sheet.now.stage fitting.now.sheet.now }
{
    match fitting.sheet.stage {
        Stage::Empty | Stage::Open => Parts::Plan,
        Stage::Labelled => Parts::Labels {
            labels: fitting.labels(),
        },
        Stage::Charted => Parts::Chart {
            labels: fitting.labels(),
            drawn: fitting.points(),
        },
    }
}

// What a file of the sheet holds. At EMPTY there is no file, and this is not used.
#[tactic(auto, using(crate::proofs::Writes::parts), unfolding(sheet::specs::Sheets::fits, sheet::specs::Sheets::held_plan))]
fn held_of<'a>(fitting: &Fitting<'a>) -> Held<'a>
    ensures { 1 ≤ rank fitting.now.sheet.now.stage → sheet_held result.fit.plan result.parts ≡ held_sheet fitting.now.sheet.now.stage fitting.now.sheet.now }
{
    let sheet = fitting.sheet;
    let plan = Table {
        sizes: &sheet.sizes,
        entries: &sheet.entries,
        n: usize::from(sheet.n),
    };
    Held {
        fit: Fit { plan },
        parts: parts_of(fitting),
    }
}

// Write (OPEN up): the file into the buffer, whose later bytes stay; its length.
#[tactic(auto, using(crate::proofs::Writes::steps), unfolding(sheet::specs::Sheets::rank, sheet::specs::Answers::answer_of))]
pub fn write(sheet: &Sheet, out: &mut [u8]) -> Result<usize, Refusal>
    ensures result_value { outcome_of result ≡ length_of (write_call (reads sheet.now) out.old) }
    ensures out_after { out.new ≡ buffer_after (write_call (reads sheet.now) out.old) out.old }
{
    let fitting = sheet::require_fitting(sheet, Stage::Open)?;
    file_writing::write_file(out, &held_of(&fitting))
}

// Scan (OPEN up): the smallest triple of mutual neighbours that are no inner face, or that there is none.
#[tactic(auto, using(crate::proofs::Scans::steps), unfolding(sheet::specs::Sheets::rank, sheet::specs::Answers::answer_of))]
pub fn scan(sheet: &Sheet) -> Result<Option<(usize, usize, usize)>, Refusal>
    ensures { outcome_of result ≡ scan_call (reads sheet.now) }
{
    let fitting = sheet::require_fitting(sheet, Stage::Open)?;
    Ok(scan::scan(&fitting.fit()))
}

// Have two sheets the same n, w, h and points?
fn is_same(a: &Sheet, b: &Sheet) -> bool
    ensures { result ≡ (eqb a.now.n b.now.n && same_chart (held_chart a.now) (held_chart b.now)) }
{
    a.n == b.n
        && chart_points::same_chart(usize::from(a.n), &sheet::points_of(a), &sheet::points_of(b))
}

// Same (both CHARTED): whether n, w, h and all points are equal.
#[tactic(auto, using(crate::proofs::Comparisons::steps), unfolding(sheet::specs::Sheets::rank))]
pub fn same(a: &Sheet, b: &Sheet) -> Result<bool, Refusal>
    ensures { outcome_of result ≡ same_call (reads a.now) (reads b.now) }
{
    sheet::require_stage(a, Stage::Charted)?;
    sheet::require_stage(b, Stage::Charted)?;
    Ok(is_same(a, b))
}
