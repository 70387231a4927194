// The checklist of an installation. Standard input holds plan files, each behind its length in two bytes, little-endian. For each
// the program prints a line with its number, its n and what open answers, then a line for each check that applies, with the
// numbers found, which ends in `ok` or `WRONG`. The last line says how many checks there were and how many were wrong. The checks:
//
//    opened   a file without a chart is not drawn yet: it is not EMPTY, its width and height are 0, and same is refused 13 at 0
//    scan     the lowest three contexts that are neighbours of each other and no face, or none, as going through all triples finds
//    drawn    sweep, then chart: CHARTED where it is drawn; LABELLED where it cannot be drawn, 11; OPEN where there are no labels, 13.
//             Sweep leaves the very sheet that its definition, gone through step by step, gives for the sheet that was opened, or
//             is refused as that is; and so does chart by its definition for the sheet before it
//    areas    every inner face of the chart has a positive doubled area, and with their signs they sum to 2wh
//    turned   the first edge that turns alone, 0 clockwise or 1 counterclockwise: turn leaves the very sheet that its definition
//             gives for the sheet before it, and that is not drawn yet, nothing of the chart stands
//    afresh   drawn again it is the chart of the new labels: the same as when they are offered to the sheet that was opened
//    written  and the two are accepted by write, as the same file, byte for byte
//
// A file that open refuses is not judged, and neither is that no edge turns alone: that line says ok of every engine that says so.
//
// An answer is the number of a refusal and its place: 0 at 0 is accepted, or yes, and 1 at 0 is no. stdin beside this crate is
// made by tools/checklist_plans.py.
#![tactic(auto)]

use checklist_lines::{Compared, DrawnSheet, Opened, Turn, Turned};
use checklist_rules::{Filed, Tally};
use refusal::Refusal;
use sheet::Sheet;

// The first turn of one edge that is accepted, if there is one, and what it answers.
fn first_turn(sheet: &Sheet) -> Option<(Turn, Result<Sheet, Refusal>)> {
    for u in 0..200u16 {
        for v in 0..256u16 {
            for direction in 0..2u8 {
                let answer = sheet_updates::turn(*sheet, &[u, v], direction);
                if answer.is_ok() {
                    return Some((Turn { u, v, direction }, answer));
                }
            }
        }
    }
    None
}

// The sheet that chart leaves.
fn charted(sheet: &Sheet) -> Sheet {
    sheet_updates::chart(*sheet).unwrap_or(*sheet)
}

// The labels of a sheet offered to another one, and charted.
fn drawn_anew(opened: &Sheet, sheet: &Sheet) -> Sheet {
    let offered = sheet_updates::offer(*opened, sheet::labels_of(sheet));
    charted(&offered.unwrap_or(*opened))
}

// A sheet written into a buffer.
fn filed<'a>(sheet: &Sheet, buffer: &'a mut [u8]) -> Filed<'a> {
    let answer = sheet_queries::write(sheet, buffer);
    Filed { buffer, answer }
}

// The check that two sheets are written as the same file.
fn check_written(tally: Tally, a: &Sheet, b: &Sheet) -> Tally {
    let mut one = io::large_buffer();
    let mut other = io::large_buffer();
    checklist_lines::tell_files(tally, &filed(a, &mut one), &filed(b, &mut other))
}

// The checks of a turn of a chart, and of the sheet that it leaves.
fn check_turn<'a>(
    tally: Tally,
    opened: &Sheet,
    sheet: &'a Sheet,
    turn: Turn,
    answer: &'a Result<Sheet, Refusal>,
    left: &'a Sheet,
) -> Tally {
    let new = charted(left);
    let anew = drawn_anew(opened, left);
    let turned = Turned {
        turn,
        old: sheet,
        answer,
        left: Compared {
            sheet: left,
            same: sheet_queries::same(left, left),
        },
        new: Compared {
            sheet: &new,
            same: sheet_queries::same(&new, &anew),
        },
    };
    check_written(checklist_lines::tell_turn(tally, Some(turned)), &new, &anew)
}

// The checks of the turn of a chart's first edge that turns alone.
fn check_turns(tally: Tally, opened: &Sheet, sheet: &Sheet) -> Tally {
    match first_turn(sheet) {
        Some((turn, answer)) => {
            let left = answer.unwrap_or(*sheet);
            check_turn(tally, opened, sheet, turn, &answer, &left)
        }
        None => checklist_lines::tell_turn(tally, None),
    }
}

// The checks of sweep and chart, and of a turn where there is a chart.
fn check_chart(tally: Tally, sheet: &Sheet) -> Tally {
    let swept = sheet_updates::sweep(*sheet);
    let before = swept.unwrap_or(*sheet);
    let charted = sheet_updates::chart(before);
    let drawn = DrawnSheet {
        opened: sheet,
        swept: &swept,
        before: &before,
        charted: &charted,
    };
    let after = checklist_lines::tell_chart(tally, &drawn);
    match charted {
        Ok(chart) => check_turns(after, sheet, &chart),
        Err(_) => after,
    }
}

// The checks of a file, where it is accepted.
fn check_file(tally: Tally, number: usize, file: &[u8]) -> Tally {
    let answer = sheet_open::open_file(file);
    let sheet = answer.unwrap_or(sheet::fresh_sheet());
    let opened = Opened {
        number,
        answer: &answer,
        same: sheet_queries::same(&sheet, &sheet),
        scan: sheet_queries::scan(&sheet),
    };
    let after = checklist_lines::tell_file(tally, &opened);
    if answer.is_ok() {
        check_chart(after, &sheet)
    } else {
        after
    }
}

// Runs the files of standard input, one after another, and says how many checks there were.
fn main() {
    let mut tally = Tally {
        checks: 0,
        wrong: 0,
    };
    console::run_files(&mut io::large_buffer(), |number, file| {
        tally = check_file(tally, number, file);
    });
    console::println(format_args!("{} checks, {} wrong", tally.checks, tally.wrong,));
}
