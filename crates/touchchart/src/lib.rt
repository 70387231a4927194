// The interface for a host. A sheet is handed over as bytes, those that the function which left it has written, none for a fresh sheet, so that a host needs no struct layout.
// Each function answers number × 2^48 + value: number 0 is acceptance, 1 to 17 a refusal whose value is its place. touchchart_c exports the
// functions to C under the same names, and include/touchchart.h documents them.
#![tactic(auto)]

ghost use Rattle.std.specs.Prelude.{◌≡◌, ◌+◌, ◌*◌, ◌<◌};
ghost use Rattle.refusal.specs.Refusals.{outcome_of};
ghost use Rattle.file_writing.specs.WrittenFiles.{buffer_after};
ghost use Rattle.sheet.specs.Answers.{length_of};
ghost use Rattle.sheet_bytes.specs.Codes.{answer_code};
ghost use Rattle.touchchart.specs.Interface.{opens_to, sweeps_to, offers_to, turns_to, charts_to, scans_to, compares_to, rings_to};

use refusal::Refusal;

// Opens a file: the number of its sheet's bytes, which are written to out.
#[tactic(auto, using(sheet_bytes::proofs::Handing::opens), unfolding(crate::specs::Interface::opens_to))]
pub fn touchchart_open(file: &[u8], out: &mut [u8]) -> u64
    ensures value { result ≡ answer_code (length_of (opens_to file.now out.old)) }
    ensures out_after { out.new ≡ buffer_after (opens_to file.now out.old) out.old }
{
    sheet_bytes::hand_back(sheet_open::open_file(file), out)
}

// Sweeps a sheet (OPEN up): the number of the new sheet's bytes, which are written to out.
#[tactic(auto, unfolding(model::specs::CallLists::call, crate::specs::Interface::sweeps_to))]
pub fn touchchart_sweep(sheet: &[u8], out: &mut [u8]) -> u64
    ensures value { result ≡ answer_code (length_of (sweeps_to sheet.now out.old)) }
    ensures out_after { out.new ≡ buffer_after (sweeps_to sheet.now out.old) out.old }
{
    sheet_bytes::change(sheet, sheet_updates::sweep_judged, out)
}

// Offers labels to a sheet (OPEN up): the number of the new sheet's bytes, which are written to out.
#[tactic(auto, unfolding(model::specs::CallLists::call, crate::specs::Interface::offers_to))]
pub fn touchchart_offer(sheet: &[u8], labels: &[u8], out: &mut [u8]) -> u64
    ensures value { result ≡ answer_code (length_of (offers_to sheet.now labels.now out.old)) }
    ensures out_after { out.new ≡ buffer_after (offers_to sheet.now labels.now out.old) out.old }
{
    sheet_bytes::change(sheet, |held| sheet_updates::offer(held.sheet, labels), out)
}

// Turns labels of a sheet (LABELLED up): the number of the new sheet's bytes, which are written to out.
#[tactic(auto, unfolding(model::specs::CallLists::call, crate::specs::Interface::turns_to))]
pub fn touchchart_turn(sheet: &[u8], pairs: &[u16], direction: u8, out: &mut [u8]) -> u64
    ensures value { result ≡ answer_code (length_of (turns_to sheet.now pairs.now direction out.old)) }
    ensures out_after { out.new ≡ buffer_after (turns_to sheet.now pairs.now direction out.old) out.old }
{
    sheet_bytes::change(
        sheet,
        |held| sheet_updates::turn(held.sheet, pairs, direction),
        out,
    )
}

// Charts a sheet (LABELLED up): the number of the new sheet's bytes, which are written to out.
#[tactic(auto, unfolding(model::specs::CallLists::call, crate::specs::Interface::charts_to))]
pub fn touchchart_chart(sheet: &[u8], out: &mut [u8]) -> u64
    ensures value { result ≡ answer_code (length_of (charts_to sheet.now out.old)) }
    ensures out_after { out.new ≡ buffer_after (charts_to sheet.now out.old) out.old }
{
    sheet_bytes::change(sheet, |held| sheet_updates::chart(held.sheet), out)
}

// Three contexts as one number.
fn triple_value(a: usize, b: usize, c: usize) -> u64
    requires a_bound { a < 200 }
    requires b_bound { b < 200 }
    requires c_bound { c < 200 }
    ensures { result ≡ a * 65536 + b * 256 + c }
{
    (a * 65536 + b * 256 + c) as u64
}

// The scan of the sheet that is handed over, as a number.
#[tactic(auto, using(crate::proofs::Answers::scanned_inside, sheet_bytes::proofs::Handing::read_handed), unfolding(sheet_bytes::specs::Exchange::handed, crate::specs::Interface::triple_value, crate::specs::Interface::scans_to))]
fn scanned(sheet: &[u8]) -> Result<u64, Refusal>
    ensures { outcome_of result ≡ scans_to sheet.now }
{
    let held = sheet_bytes::hand_over(sheet)?;
    match sheet_queries::scan(&held.sheet)? {
        None => Ok(0),
        Some((a, b, c)) => Ok(triple_value(a, b, c)),
    }
}

// Scans a sheet (OPEN up): 0 for none, else a × 65536 + b × 256 + c.
#[tactic(auto, using(crate::proofs::Answers::numbers))]
pub fn touchchart_scan(sheet: &[u8]) -> u64
    ensures { result ≡ answer_code (scans_to sheet.now) }
{
    sheet_bytes::code_of(scanned(sheet))
}

// The comparison of two sheets that are handed over, as a number.
#[tactic(auto, using(sheet_bytes::proofs::Handing::read_handed), unfolding(sheet_bytes::specs::Exchange::handed, crate::specs::Interface::same_value, crate::specs::Interface::compares_to))]
fn compared(a: &[u8], b: &[u8]) -> Result<u64, Refusal>
    ensures { outcome_of result ≡ compares_to a.now b.now }
{
    let first = sheet_bytes::hand_over(a)?;
    let second = sheet_bytes::hand_over(b)?;
    let same = sheet_queries::same(&first.sheet, &second.sheet)?;
    Ok(u64::from(same))
}

// Compares two sheets (both CHARTED): 1 where n, w, h and all points are equal, else 0.
#[tactic(auto, using(crate::proofs::Answers::numbers))]
pub fn touchchart_same(a: &[u8], b: &[u8]) -> u64
    ensures { result ≡ answer_code (compares_to a.now b.now) }
{
    sheet_bytes::code_of(compared(a, b))
}

// The offset and the length of a part of a file as one number.
fn part_value(part: file_queries::ByteRange) -> u64
    requires at_bound { part.at < 4096 }
    requires size_bound { part.size < 4096 }
    ensures { result ≡ part.at * 65536 + part.size }
{
    (part.at * 65536 + part.size) as u64
}

// Where a context's ring stands in a file, as a number.
#[tactic(auto, using(crate::proofs::Answers::part_inside), unfolding(crate::specs::Interface::part_value, crate::specs::Interface::rings_to))]
fn part_of(file: &[u8], context: u16) -> Result<u64, Refusal>
    ensures { outcome_of result ≡ rings_to file.now context }
{
    let part = file_queries::ring_answer(file, usize::from(context))?;
    Ok(part_value(part))
}

// Finds a context's ring in a file: offset × 65536 + length of the part.
#[tactic(auto, using(crate::proofs::Answers::numbers))]
pub fn touchchart_ring(file: &[u8], context: u16) -> u64
    ensures { result ≡ answer_code (rings_to file.now context) }
{
    sheet_bytes::code_of(part_of(file, context))
}
