// Runs calls that change a sheet, from a fresh sheet on. Standard input holds items, one after another, each of them: its kind
// (1 byte), the length of its argument (3 bytes, little-endian), the argument. The kinds:
//
//    0 a fresh sheet takes the place of the sheet
//    1 open     the bytes of a file
//    2 offer    the label bytes
//    3 sweep
//    4 turn     the direction (1 byte), then the numbers of the list, 2 bytes each, little-endian, at most 4,096
//    5 chart
//
// Each item gives a line: the call and its answer, then a semicolon and the sheet afterwards: its stage, n, width x height, the
// length of its file, and the checksum (of comparison) of a buffer of 8,192 bytes, filled with 170, after a write into it. So a
// refused call that changes anything is seen. The run ends where the input does, at an item that is cut, of another kind or with
// an argument over 131,072 bytes, or after 100,000 items; the last line says how many were run.
//
// stdin and stdout beside this crate are made by the reference in rust/, by its examples calls_items and run_calls.
#![tactic(auto)]

ghost use Rattle.std.specs.Prelude.{◌≡◌, Some};
ghost use Rattle.std.specs.Fmt.{padded};
ghost use Rattle.trial_calls.specs.Names.{kind_name};

use refusal::Refusal;
use sheet::{Sheet, Stage};
use std::fmt;

// The kinds of items.
#[derive(Clone, Copy)]
enum Kind {
    Fresh,
    Open,
    Offer,
    Sweep,
    Turn,
    Chart,
}

impl Kind {
    // The kind with this number, if there is one.
    fn of(number: u8) -> Option<Kind> {
        match number {
            0 => Some(Kind::Fresh),
            1 => Some(Kind::Open),
            2 => Some(Kind::Offer),
            3 => Some(Kind::Sweep),
            4 => Some(Kind::Turn),
            5 => Some(Kind::Chart),
            _ => None,
        }
    }

    // The name that its line begins with.
    fn name(self) -> &'static str
        ensures { result.now ≡ kind_name self }
    {
        match self {
            Kind::Fresh => "fresh",
            Kind::Open => "open",
            Kind::Offer => "offer",
            Kind::Sweep => "sweep",
            Kind::Turn => "turn",
            Kind::Chart => "chart",
        }
    }
}

// A kind as it is written: its name.
impl fmt::Display for Kind {
    ghost output = { λ kind. Some (kind_name kind) };

    ghost styled_output = { λ kind spec. Some (padded spec (kind_name kind)) };

    fn fmt<W: fmt::Write>(&self, f: &mut fmt::Formatter<W>) -> fmt::Result {
        f.pad(self.name())
    }
}

// Turn: the direction, and the numbers of the list behind it.
fn run_turn(sheet: Sheet, argument: &[u8]) -> Result<Sheet, Refusal> {
    let count = (argument.len().saturating_sub(1) / 2).min(4096);
    let numbers = arrays::words::<4096>(argument, 1, 2, count);
    sheet_updates::turn(sheet, &numbers[..count], arrays::at(argument, 0))
}

// The call of an item.
fn run_call(sheet: Sheet, kind: Kind, argument: &[u8]) -> Result<Sheet, Refusal> {
    match kind {
        Kind::Fresh => Ok(sheet::fresh_sheet()),
        Kind::Open => sheet_open::open_file(argument),
        Kind::Offer => sheet_updates::offer(sheet, argument),
        Kind::Sweep => sheet_updates::sweep(sheet),
        Kind::Turn => run_turn(sheet, argument),
        Kind::Chart => sheet_updates::chart(sheet),
    }
}

// Writes the answer of a call.
fn show_answer(answer: &Result<Sheet, Refusal>) {
    match answer {
        Ok(_) => console::print("accepted; "),
        Err(refusal) => console::print(format_args!("{refusal}; ")),
    };
}

// The name of a stage.
fn name_of(stage: Stage) -> &'static str {
    match stage {
        Stage::Empty => "EMPTY",
        Stage::Open => "OPEN",
        Stage::Labelled => "LABELLED",
        Stage::Charted => "CHARTED",
    }
}

// Writes the sheet after a call, and the end of the line.
fn show_sheet(sheet: &Sheet) {
    let mut space = [170u8; 8192];
    let size = sheet_queries::write(sheet, &mut space).unwrap_or(0);
    console::println(format_args!(
        "{:<9}n {}, {}x{}, length {size}, checksum {}",
        name_of(sheet.stage),
        sheet.n,
        sheet.w,
        sheet.h,
        comparison::checksum(&space),
    ));
}

// The line of an item; the sheet after its call.
fn run_item(sheet: Sheet, kind: Kind, argument: &[u8]) -> Sheet {
    let answer = run_call(sheet, kind, argument);
    console::print(format_args!("{kind:<6}"));
    show_answer(&answer);
    let after = answer.unwrap_or(sheet);
    show_sheet(&after);
    after
}

// Runs the items of standard input, one after another, and says how many there were. A file of 200 rings of 199 entries has 80,406 bytes.
fn main() {
    let mut space = [0u8; 131072];
    let mut sheet = sheet::fresh_sheet();
    let done = console::run_items(&mut space, |kind, argument| match Kind::of(kind) {
        None => false,
        Some(kind) => {
            sheet = run_item(sheet, kind, argument);
            true
        }
    });
    console::println(format_args!("{done} items"));
}
