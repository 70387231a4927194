// What is right in the checklist: tests of what the engine answers, and how checks are counted. `checklist_lines` writes the lines.
#![tactic(auto)]

ghost use Rattle.std.specs.Prelude.{◌≡◌};
ghost use Rattle.refusal.specs.Refusals.{outcome_of};
ghost use Rattle.comparison.specs.Bytes as bytes;
ghost use Rattle.checklist_rules.specs.Audit.{tallied, is_early, undrawn, same_triple, scanned_as_due, same_sheets, answered_as_due, fills_rectangle, afresh, file_length, same_files};

use chart_audit::Areas;
use refusal::Refusal;
use sheet::Sheet;

// How many checks there were, and how many of them were wrong.
#[derive(Clone, Copy)]
pub struct Tally {
    pub checks: usize,
    pub wrong: usize,
}

// A sheet written as a file: the buffer, and what write answers.
#[derive(Clone, Copy)]
pub struct Filed<'a> {
    pub buffer: &'a [u8],
    pub answer: Result<usize, Refusal>,
}

impl Tally {
    // The tally with one more check.
    pub fn with(self, right: bool) -> Tally
        ensures { result ≡ tallied self right }
    {
        Tally {
            checks: self.checks.wrapping_add(1),
            wrong: self.wrong.wrapping_add(usize::from(!right)),
        }
    }
}

// Is an answer the refusal of a stage too early?
fn is_early<A: Copy>(answer: &Result<A, Refusal>) -> bool
    ensures { result ≡ is_early answer.now }
{
    answer.err() == Some(Refusal::TooEarly)
}

// Is a sheet there that has no chart? It is not EMPTY, it has no width and no height, and same is refused 13 at 0.
pub fn is_undrawn(sheet: &Sheet, same: Result<bool, Refusal>) -> bool
    ensures { result ≡ undrawn sheet.now same }
{
    sheet.w == 0 && sheet.h == 0 && is_early(&same) && 1 <= sheet::rank_of(sheet::stage_of(sheet))
}

// Are two answers of a scan the same three contexts, or none and none?
fn is_same_triple(one: Option<(usize, usize, usize)>, other: Option<(usize, usize, usize)>) -> bool
    ensures { result ≡ same_triple one other }
{
    match (one, other) {
        (Some((a, b, c)), Some((d, e, f))) => a == d && b == e && c == f,
        (None, None) => true,
        (Some(_), None) | (None, Some(_)) => false,
    }
}

// Has scan answered what is due: this very triple, or none; or the refusal of this number at this place?
pub fn is_scan_due(
    answer: Result<Option<(usize, usize, usize)>, Refusal>,
    due: Result<Option<(usize, usize, usize)>, Refusal>,
) -> bool
    ensures { result ≡ scanned_as_due answer (outcome_of due) }
{
    match (answer, due) {
        (Ok(triple), Ok(triple_due)) => is_same_triple(triple, triple_due),
        (Err(refusal), Err(refusal_due)) => {
            refusal.number() == refusal_due.number() && refusal.place() == refusal_due.place()
        }
        (Ok(_), Err(_)) | (Err(_), Ok(_)) => false,
    }
}

// Are two sheets equal, field by field?
fn is_same_sheet(one: &Sheet, other: &Sheet) -> bool
    ensures { result ≡ same_sheets one.now other.now }
{
    sheet::rank_of(one.stage) == sheet::rank_of(other.stage)
        && one.n == other.n
        && one.sizes == other.sizes
        && one.entries == other.entries
        && one.labels == other.labels
        && one.w == other.w
        && one.h == other.h
        && one.xs == other.xs
        && one.ys == other.ys
}

// Has a call answered what is due: this very sheet, or the refusal of this number at this place?
pub fn is_due(answer: &Result<Sheet, Refusal>, due: &Result<Sheet, Refusal>) -> bool
    ensures { result ≡ answered_as_due answer.now (outcome_of due.now) }
{
    match (answer, due) {
        (Ok(sheet), Ok(sheet_due)) => is_same_sheet(sheet, sheet_due),
        (Err(refusal), Err(refusal_due)) => {
            refusal.number() == refusal_due.number() && refusal.place() == refusal_due.place()
        }
        _ => false,
    }
}

// Are all inner faces positive, and do their signed areas sum to the whole?
pub fn is_filled(areas: &Areas, whole: i64) -> bool
    ensures { result ≡ fills_rectangle areas.now whole }
{
    areas.positive == areas.faces && areas.sum == whole
}

// Is a chart the same as the one drawn anew, by what same answers of the two?
pub fn is_afresh(same: Result<bool, Refusal>) -> bool
    ensures { result ≡ afresh same }
{
    same == Ok(true)
}

impl Filed<'_> {
    // The file's length; 0 where write is refused.
    pub fn size(&self) -> usize
        ensures { result ≡ file_length self.now.answer }
    {
        self.answer.unwrap_or(0)
    }

    // How many bytes of the file are the same in another, up to the first that differs.
    pub fn agreeing(&self, other: &Filed) -> usize
        ensures { result ≡ bytes.agreeing self.now.buffer.now other.now.buffer.now (file_length self.now.answer) }
    {
        comparison::agreeing(self.buffer, other.buffer, self.size())
    }

    // Are two files accepted, as long as each other, and is every byte equal?
    pub fn is_written_as(&self, other: &Filed) -> bool
        ensures { result ≡ same_files self.now other.now }
    {
        self.answer.is_ok()
            && other.answer.is_ok()
            && self.size() == other.size()
            && self.agreeing(other) == self.size()
    }
}
