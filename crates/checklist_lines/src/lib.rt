// The lines of the checklist: what the engine answers is written down, and told right or wrong as `checklist_rules` finds it. A contract says how the checks are counted; what is written is outside the logic, as in `console`.
//
// An answer is written as the number of a refusal and its place: 0 at 0 is accepted, or yes, and 1 at 0 is no.
#![tactic(auto)]

ghost use Rattle.std.specs.Prelude.{◌≡◌, ◌++◌, codes, decimal, Some};
ghost use Rattle.model.specs.Calls.{scan_call};
ghost use Rattle.sheet.specs.Sheets.{reads};
ghost use Rattle.checklist_rules.specs.Audit.{tallied, undrawn, scanned_as_due, afresh, same_files};
ghost use Rattle.checklist_lines.specs.Tallies.{shown_as, opened_tally, file_tally, left_by, drawn_tally, areas_tally, chart_tally, turned_tally, turn_tally};

use checklist_rules::{Filed, Tally};
use refusal::Refusal;
use sheet::{Sheet, Stage};
use std::fmt;

// A file with its number, and what is seen of it: what open answers, and what same and scan say of the sheet.
#[derive(Clone, Copy)]
pub struct Opened<'a> {
    pub number: usize,
    pub answer: &'a Result<Sheet, Refusal>,
    pub same: Result<bool, Refusal>,
    pub scan: Result<Option<(usize, usize, usize)>, Refusal>,
}

// A sheet, and what same says of it and of another one, or of it alone.
#[derive(Clone, Copy)]
pub struct Compared<'a> {
    pub sheet: &'a Sheet,
    pub same: Result<bool, Refusal>,
}

// A sheet swept and charted, and what is seen of it: the sheet that was opened, what sweep answers of it, the sheet before chart, and what chart answers.
#[derive(Clone, Copy)]
pub struct DrawnSheet<'a> {
    pub opened: &'a Sheet,
    pub swept: &'a Result<Sheet, Refusal>,
    pub before: &'a Sheet,
    pub charted: &'a Result<Sheet, Refusal>,
}

// A turn of the edge from u to v in a direction.
#[derive(Clone, Copy)]
pub struct Turn {
    pub u: u16,
    pub v: u16,
    pub direction: u8,
}

// A turn of one edge, and what is seen of it: the turn, the sheet before it, what turn answers, the sheet that it leaves, and the new chart of that sheet beside the one drawn anew.
#[derive(Clone, Copy)]
pub struct Turned<'a> {
    pub turn: Turn,
    pub old: &'a Sheet,
    pub answer: &'a Result<Sheet, Refusal>,
    pub left: Compared<'a>,
    pub new: Compared<'a>,
}

// The end of a check's line; the tally with it.
fn judge(tally: Tally, right: bool) -> Tally
    ensures { result ≡ tallied tally right }
{
    console::println(if right { ": ok" } else { ": WRONG" });
    tally.with(right)
}

// An answer as it is written: a number and a place.
#[derive(Clone, Copy)]
struct Shown {
    number: u8,
    place: usize,
}

impl fmt::Display for Shown {
    ghost output = { λ s. Some (decimal s.number ++ codes " at " ++ decimal s.place) };

    fn fmt<W: fmt::Write>(&self, f: &mut fmt::Formatter<W>) -> fmt::Result {
        let Shown { number, place } = *self;
        write!(f, "{number} at {place}")
    }
}

// How an answer is written.
fn answer_of<A>(answer: &Result<A, Refusal>) -> Shown
    ensures { result ≡ shown_as answer.now }
{
    match answer {
        Ok(_) => Shown {
            number: 0,
            place: 0,
        },
        Err(refusal) => Shown {
            number: refusal.number(),
            place: refusal.place(),
        },
    }
}

// The name of a stage.
fn name_of(stage: Stage) -> &'static str {
    match stage {
        Stage::Empty => "EMPTY",
        Stage::Open => "OPEN",
        Stage::Labelled => "LABELLED",
        Stage::Charted => "CHARTED",
    }
}

impl Compared<'_> {
    // Writes what same answers.
    fn show_same(&self) {
        let shown = if self.same == Ok(false) {
            Shown {
                number: 1,
                place: 0,
            }
        } else {
            answer_of(&self.same)
        };
        console::print(format_args!(", same {shown}"));
    }

    // Writes the stage, the width and the height of a sheet that is to have no chart, and what same answers.
    fn show_undrawn(&self) {
        let (w, h) = (self.sheet.w, self.sheet.h);
        let stage = name_of(sheet::stage_of(self.sheet));
        console::print(format_args!("{stage} {w}x{h}, not drawn yet"));
        self.show_same();
    }

    // The check of the sheet as a file opens it, where that is not CHARTED: it is not EMPTY, it has no width and no height, and same of it is refused 13 at 0.
    fn check_opened(&self, tally: Tally) -> Tally
        ensures { result ≡ opened_tally tally self.now.sheet.now self.now.same }
    {
        if sheet::stage_of(self.sheet) == Stage::Charted {
            return tally;
        }
        console::print("  opened: ");
        self.show_undrawn();
        judge(tally, checklist_rules::is_undrawn(self.sheet, self.same))
    }
}

// The check of a scan of a sheet, by what is due. It writes the three contexts, or that there are none; of a refused scan it writes nothing.
fn check_scan(
    tally: Tally,
    sheet: &Sheet,
    scan: Result<Option<(usize, usize, usize)>, Refusal>,
) -> Tally
    ensures { result ≡ tallied tally (scanned_as_due scan (scan_call (reads sheet.now))) }
{
    match scan {
        Ok(Some((a, b, c))) => {
            console::print(format_args!("  scan: {a},{b},{c}"));
        }
        Ok(None) => {
            console::print("  scan: none");
        }
        Err(_) => {}
    }
    judge(
        tally,
        checklist_rules::is_scan_due(scan, chart_audit::scan_due(sheet)),
    )
}

// The line of a file: its number, n and what open answers; where it is accepted, the checks of what same and scan say of the sheet.
pub fn tell_file(tally: Tally, opened: &Opened) -> Tally
    ensures { result ≡ file_tally tally opened.now.answer.now opened.now.same opened.now.scan }
{
    let n = match opened.answer {
        Ok(sheet) => sheet.n,
        Err(_) => 0,
    };
    console::println(format_args!(
        "plan {}: n {n}, open {}",
        opened.number,
        answer_of(opened.answer),
    ));
    match opened.answer {
        Ok(sheet) => {
            let compared = Compared {
                sheet,
                same: opened.same,
            };
            check_scan(compared.check_opened(tally), sheet, opened.scan)
        }
        Err(_) => tally,
    }
}

// Writes the stage, width and height of the sheet that chart leaves, and what they mean.
fn show_left(left: &Sheet) {
    let stage = sheet::stage_of(left);
    let name = name_of(stage);
    let meaning = match stage {
        Stage::Charted => "drawn",
        Stage::Labelled => "cannot be drawn",
        Stage::Open => "no labels",
        Stage::Empty => "no plan",
    };
    console::print(format_args!("  drawn: {name} {}x{}, {meaning}", left.w, left.h));
}

// The check of the areas: every inner face is positive, and with their signs they sum to the rectangle. As the least of no faces it writes 2 to the 32, which no area reaches: a coordinate of a chart is at most 200.
fn check_areas(tally: Tally, sheet: &Sheet) -> Tally
    ensures { result ≡ areas_tally tally sheet.now }
{
    let areas = chart_audit::areas_of(sheet);
    let whole = 2 * i64::from(sheet.w) * i64::from(sheet.h);
    console::print(format_args!(
        "  areas: faces {}, positive {}, least {}, sum {}, 2wh {whole}",
        areas.faces,
        areas.positive,
        areas.least.unwrap_or(4294967296),
        areas.sum,
    ));
    judge(tally, checklist_rules::is_filled(&areas, whole))
}

impl<'a> DrawnSheet<'a> {
    // The sheet that chart leaves: the one that it answers, or the one before where it is refused.
    fn left(&self) -> &Sheet
        ensures { result.now ≡ left_by self.now }
    {
        match self.charted {
            Ok(sheet) => sheet,
            Err(_) => self.before,
        }
    }

    // The check of sweep and chart, each by what is due. Where a call has answered otherwise, it writes that too: the number and the place that are due.
    fn check(&self, tally: Tally) -> Tally
        ensures { result ≡ drawn_tally tally self.now }
    {
        show_left(self.left());
        console::print(format_args!(
            ", sweep {}, chart {}",
            answer_of(self.swept),
            answer_of(self.charted),
        ));
        let swept_due = chart_audit::swept_due(self.opened);
        let is_swept = checklist_rules::is_due(self.swept, &swept_due);
        if !is_swept {
            console::print(format_args!(", sweep due {}", answer_of(&swept_due)));
        }
        let charted_due = chart_audit::charted_due(self.before);
        let is_charted = checklist_rules::is_due(self.charted, &charted_due);
        if !is_charted {
            console::print(format_args!(", chart due {}", answer_of(&charted_due)));
        }
        judge(tally, is_swept && is_charted)
    }
}

// The checks of sweep and chart, and of the areas where they leave a chart.
pub fn tell_chart(tally: Tally, drawn: &DrawnSheet) -> Tally
    ensures { result ≡ chart_tally tally drawn.now }
{
    let after = drawn.check(tally);
    let left = drawn.left();
    if sheet::stage_of(left) == Stage::Charted {
        check_areas(after, left)
    } else {
        after
    }
}

impl<'a> Turned<'a> {
    // The check of the turn, by what is due, and that the sheet that it leaves is not EMPTY, has no width and no height, and that same of it is refused 13 at 0. Where turn has answered otherwise, it writes the number and the place that are due too.
    fn check_left(&self, tally: Tally) -> Tally
        ensures { result ≡ turned_tally tally self.now }
    {
        console::print(format_args!(
            "  turned: edge {},{} direction {}, ",
            self.turn.u, self.turn.v, self.turn.direction,
        ));
        self.left.show_undrawn();
        let Turn { u, v, direction } = self.turn;
        let due = chart_audit::turned_due(self.old, u, v, direction);
        let is_turned = checklist_rules::is_due(self.answer, &due);
        if !is_turned {
            console::print(format_args!(", turn due {}", answer_of(&due)));
        }
        judge(
            tally,
            checklist_rules::is_undrawn(self.left.sheet, self.left.same) && is_turned,
        )
    }

    // The check that the chart drawn after the turn, in place of an old one, is the one that is drawn anew.
    fn check_afresh(&self, tally: Tally) -> Tally
        ensures { result ≡ tallied tally (afresh self.now.new.same) }
    {
        console::print(format_args!(
            "  afresh: before {}x{}, after {}x{}",
            self.old.w, self.old.h, self.new.sheet.w, self.new.sheet.h,
        ));
        self.new.show_same();
        judge(tally, checklist_rules::is_afresh(self.new.same))
    }
}

// The checks of a turn of one edge. Where none is handed over it writes that no edge turns alone, and counts a check that is right: that is not judged.
pub fn tell_turn(tally: Tally, turned: Option<Turned>) -> Tally
    ensures { result ≡ turn_tally tally turned.entry }
{
    match turned {
        Some(turned) => turned.check_afresh(turned.check_left(tally)),
        None => {
            console::print("  turned: no edge turns alone");
            judge(tally, true)
        }
    }
}

// The check that two sheets are written as the same file: both are accepted, with the same length and the same bytes. It writes both lengths, 0 for one that is refused, and how many bytes are equal up to the first that differs.
pub fn tell_files(tally: Tally, one: &Filed, other: &Filed) -> Tally
    ensures { result ≡ tallied tally (same_files one.now other.now) }
{
    let size = one.size();
    let size_other = other.size();
    let equal = one.agreeing(other);
    console::print(format_args!("  written: bytes {size} and {size_other}, equal {equal}"));
    judge(tally, one.is_written_as(other))
}
