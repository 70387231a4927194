// Runs scripts: lists of calls as the crate script has them, each from a fresh sheet on. Standard input holds items, one after
// another, each of them: its kind (1 byte), which is 0, the length of a script (3 bytes, little-endian), the script. Each gives a
// line: its length and where it ends; how many of its calls were accepted, and what the last one answered, if there was one; and
// the sheet that it leaves: the number of its stage, n, and the checksum (of comparison) of a buffer of 65,536 zeros after a write
// into it. The run ends where the input does, at an item that is cut, of another kind or with a script over 65,536 bytes, or after
// 100,000 items; the last line says how many were run.
//
// stdin and stdout beside this crate are made by the reference in rust/, by its examples calls_items and run_calls.
#![tactic(auto)]

use refusal::Refusal;

// Writes what the last call of a script answered, if there was one.
fn show_last(last: &Option<Result<(), Refusal>>) {
    match last {
        Some(Ok(())) => console::print("accepted; "),
        Some(Err(refusal)) => console::print(format_args!("{refusal}; ")),
        None => console::print("none; "),
    };
}

// The line of a script: where it ends, what its calls answered, and the sheet that it leaves.
fn run_script(script: &[u8]) {
    let ran = script::run_script(script);
    console::print(format_args!(
        "script of {} ends at {}; accepted {}, last ",
        script.len(),
        ran.at,
        ran.accepted,
    ));
    show_last(&ran.last);
    let sheet = ran.sheet;
    let mut space = io::large_buffer();
    let _ = sheet_queries::write(&sheet, &mut space);
    console::println(format_args!(
        "stage {}, n {}, checksum {}",
        sheet::rank_of(sheet.stage),
        sheet.n,
        comparison::checksum(&space),
    ));
}

// Runs the items of standard input, one after another, and says how many there were.
fn main() {
    let mut space = io::large_buffer();
    let done = console::run_items(&mut space, |kind, script| {
        if kind != 0 {
            return false;
        }
        run_script(script);
        true
    });
    console::println(format_args!("{done} items"));
}
