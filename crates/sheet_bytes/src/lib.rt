// Sheets handed over as bytes and handed back as bytes, and answers as one number.
#![tactic(auto)]

ghost use Rattle.std.specs.Prelude.{◌≡◌};
ghost use Rattle.model.specs.Outcome.{refused};
ghost use Rattle.model.specs.CallLists.{Call};
ghost use Rattle.refusal.specs.Refusals.{number_of, place_of, outcome_of};
ghost use Rattle.file_writing.specs.WrittenFiles.{buffer_after};
ghost use Rattle.sheet.specs.Answers.{packed_as, length_of};
ghost use Rattle.sheet_bytes.specs.Codes.{answer_code, wrapped};
ghost use Rattle.sheet_bytes.specs.Exchange.{sheet_of_bytes, bytes_back, handed, given, Makes, changed_by};

use refusal::Refusal;
use sheet::{Judged, Sheet};

// A refusal as one number: number × 2^48 + place.
#[tactic(auto, unfolding(crate::specs::Codes::answer_code, crate::specs::Codes::wrapped))]
fn refusal_code(refusal: Refusal) -> u64
    ensures { result ≡ wrapped (refused (number_of refusal) (place_of refusal)) }
{
    (u64::from(refusal.number()) * 281474976710656).wrapping_add(refusal.place() as u64)
}

// An answer as one number: what is accepted, or the refusal's number and place.
#[tactic(auto, using(crate::proofs::Codes::wrapped_at))]
pub fn code_of(answer: Result<u64, Refusal>) -> u64
    ensures { result ≡ wrapped (outcome_of answer) }
{
    answer.unwrap_or_else(refusal_code)
}

// The sheet that bytes hand over: a fresh one for no bytes, else the file is opened.
#[tactic(auto, using(crate::proofs::Handing::hand_steps))]
pub fn hand_over(bytes: &[u8]) -> Result<Judged, Refusal>
    ensures { handed result ≡ packed_as (sheet_of_bytes bytes.now) }
{
    if bytes.is_empty() {
        return Ok(Judged {
            sheet: sheet::fresh_sheet(),
        });
    }
    let sheet = sheet_open::open_file(bytes)?;
    Ok(Judged { sheet })
}

// The bytes of the sheet that a call leaves, written into the buffer; how many there are.
#[tactic(auto, using(crate::proofs::Steps::back))]
fn write_back(outcome: &Result<Sheet, Refusal>, out: &mut [u8]) -> Result<u64, Refusal>
    ensures value { outcome_of result ≡ length_of (bytes_back (given outcome.now) out.old) }
    ensures out_after { out.new ≡ buffer_after (bytes_back (given outcome.now) out.old) out.old }
{
    match outcome {
        Ok(sheet) => Ok(sheet_queries::write(sheet, out)? as u64),
        Err(refusal) => Err(*refusal),
    }
}

// The sheet that a call leaves, handed back: its bytes in the buffer and their number, or the refusal and the buffer as it was.
pub fn hand_back(outcome: Result<Sheet, Refusal>, out: &mut [u8]) -> u64
    ensures value { result ≡ wrapped (length_of (bytes_back (given outcome) out.old)) }
    ensures out_after { out.new ≡ buffer_after (bytes_back (given outcome) out.old) out.old }
{
    code_of(write_back(&outcome, out))
}

// A call on the sheet that bytes hand over, and the sheet that it leaves handed back. The refusals of what is handed over come first, then those of the call, then 16.
pub fn change<F: FnOnce(Judged) -> Result<Sheet, Refusal>>(
    sheet: &[u8],
    call: F,
    out: &mut [u8],
) -> u64
    requires { F.IsAlwaysCallable call }
    ensures value { (c : Call) → Makes (F.post call) c → result ≡ answer_code (length_of (changed_by c sheet.now out.old)) }
    ensures out_after { (c : Call) → Makes (F.post call) c → out.new ≡ buffer_after (changed_by c sheet.now out.old) out.old }
{
    match hand_over(sheet) {
        Ok(held) => hand_back(call(held), out),
        Err(refusal) => refusal_code(refusal),
    }
}
