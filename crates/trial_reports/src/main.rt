// Runs calls that tell of a sheet or of a file. Standard input holds items, one after another, each of them: its kind (1 byte),
// the length of its argument (3 bytes, little-endian), the argument: a number (2 bytes, little-endian), then the bytes of a file.
// The kinds:
//
//    0 write        into a buffer of that length, filled with 170 before
//    1 open_write   into a buffer of that length, filled with 170 before
//    2 ring         of that context
//    3 scan
//    4 same         compares two sheets: the number is the length of the first one's file, the second one's stands behind it
//
// Write, scan and same are asked of the sheet that a fresh one becomes when the file is opened; it stays fresh where the file is
// refused. Each item gives a line: the call and its answer, and where bytes were written or handed back, a semicolon, their
// number and their checksum (of comparison). The run ends where the input does, at an item that is cut, of another kind or with an
// argument over 131,072 bytes, or after 100,000 items; the last line says how many were run.
//
// stdin and stdout beside this crate are made by the reference in rust/, by its examples calls_items and run_calls.
#![tactic(auto)]

ghost use Rattle.std.specs.Prelude.{◌≡◌, Some};
ghost use Rattle.std.specs.Fmt.{padded};
ghost use Rattle.trial_reports.specs.Names.{kind_name};

use refusal::Refusal;
use sheet::Sheet;
use std::fmt;

// The kinds of items.
#[derive(Clone, Copy)]
enum Kind {
    Write,
    OpenWrite,
    Ring,
    Scan,
    Same,
}

impl Kind {
    // The kind with this number, if there is one.
    fn of(number: u8) -> Option<Kind> {
        match number {
            0 => Some(Kind::Write),
            1 => Some(Kind::OpenWrite),
            2 => Some(Kind::Ring),
            3 => Some(Kind::Scan),
            4 => Some(Kind::Same),
            _ => None,
        }
    }

    // The name that its line begins with.
    fn name(self) -> &'static str
        ensures { result.now ≡ kind_name self }
    {
        match self {
            Kind::Write => "write",
            Kind::OpenWrite => "open_write",
            Kind::Ring => "ring",
            Kind::Scan => "scan",
            Kind::Same => "same",
        }
    }
}

// A kind as it is written: its name.
impl fmt::Display for Kind {
    ghost output = { λ kind. Some (kind_name kind) };

    ghost styled_output = { λ kind spec. Some (padded spec (kind_name kind)) };

    fn fmt<W: fmt::Write>(&self, f: &mut fmt::Formatter<W>) -> fmt::Result {
        f.pad(self.name())
    }
}

// Writes how many bytes there are, and their checksum.
fn show_bytes(bytes: &[u8]) {
    console::print(format_args!(
        "; {} bytes, checksum {}",
        bytes.len(),
        comparison::checksum(bytes),
    ));
}

// The sheet that a fresh one becomes when a file is opened.
fn opened(file: &[u8]) -> Sheet {
    sheet_open::open_file(file).unwrap_or(sheet::fresh_sheet())
}

// Same.
fn run_same(one: &Sheet, other: &Sheet) {
    match sheet_queries::same(one, other) {
        Ok(true) => console::print("yes"),
        Ok(false) => console::print("no"),
        Err(refusal) => console::print(refusal),
    };
}

// Scan.
fn run_scan(sheet: &Sheet) {
    match sheet_queries::scan(sheet) {
        Ok(Some((a, b, c))) => console::print(format_args!("{a},{b},{c}")),
        Ok(None) => console::print("none"),
        Err(refusal) => console::print(refusal),
    };
}

// Ring: the answer, and the part that is handed back.
fn run_ring(file: &[u8], context: usize) {
    match file_queries::ring_answer(file, context) {
        Ok(part) => console::print(format_args!("at {}, length {}", part.at, part.size)),
        Err(refusal) => console::print(refusal),
    };
    show_bytes(file_queries::ring(file, context));
}

// A call that writes into a buffer of a length: the answer, and the whole buffer afterwards.
fn run_write<F: FnOnce(&mut [u8]) -> Result<usize, Refusal>>(size: usize, write: F)
    requires { F.IsAlwaysCallable write }
{
    let mut space = [170u8; 65536];
    let out = &mut space[..size % 65536];
    match write(out) {
        Ok(k) => console::print(format_args!("length {k}")),
        Err(refusal) => console::print(refusal),
    };
    show_bytes(out);
}

// Bytes from an index on.
fn behind(bytes: &[u8], at: usize) -> &[u8] {
    &bytes[bytes.len().min(at)..]
}

// The call of an item.
fn run_call(kind: Kind, number: usize, file: &[u8]) {
    match kind {
        Kind::Write => run_write(number, |out| sheet_queries::write(&opened(file), out)),
        Kind::OpenWrite => run_write(number, |out| file_queries::open_write(file, out)),
        Kind::Ring => run_ring(file, number),
        Kind::Scan => run_scan(&opened(file)),
        Kind::Same => run_same(
            &opened(arrays::part(file, 0, number)),
            &opened(behind(file, number)),
        ),
    }
}

// The line of an item.
fn run_item(kind: Kind, argument: &[u8]) {
    console::print(format_args!("{kind:<11}"));
    let number = usize::from(arrays::word_at(argument, 0));
    run_call(kind, number, behind(argument, 2));
    console::print("\n");
}

// Runs the items of standard input, one after another, and says how many there were.
fn main() {
    let mut space = [0u8; 131072];
    let done = console::run_items(&mut space, |kind, argument| match Kind::of(kind) {
        None => false,
        Some(kind) => {
            run_item(kind, argument);
            true
        }
    });
    console::println(format_args!("{done} items"));
}
