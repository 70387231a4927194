// Scripts: a list of calls handed in as bytes, run from a fresh sheet.
//
// A script is items one after the other. An item is a kind (1 byte), the size of its argument (3 bytes, little-endian), and the argument:
//   1 open: the bytes of the file
//   2 offer: the label bytes
//   3 sweep: no argument
//   4 turn: the direction (1 byte), then numbers of 2 bytes, little-endian, at most 1200 (a good list has at most 3 * 200 - 11 pairs)
//   5 chart: no argument
// An item is malformed where fewer than 4 bytes are left, where its argument reaches past the end, and where its kind is none of these or its argument not one of its kind.
// A script ends at its first malformed item, or else at its end. A call that is refused is run like any other: the script goes on.
#![tactic(auto)]

ghost use Rattle.std.specs.Prelude.{◌≡◌, ◌+◌, ◌*◌, IfSome, None};
ghost use Rattle.std.specs.List.{last_or};
ghost use Rattle.lists.specs.Tests.{tally};
ghost use Rattle.guarantee.specs.Engine.{fresh_sheet, sheet_after, answers_of};
ghost use Rattle.guarantee.specs.Guarantee.{Guarantee};
ghost use Rattle.script.specs.Scripts.{argument_size, turn_item, call_of, call_at, calls_of, end_of};
ghost use Rattle.script.specs.ScriptAnswers.{ran, is_accepted};
ghost use Rattle.script.specs.Items.{item_number, IsKind, item_answer, step_ran};

use refusal::Refusal;
use sheet::Sheet;

// What a script leaves: the sheet; where the script ended: its length, or the offset of its first malformed item; how many of its calls were accepted; and what the last call answered, if there was one.
#[derive(Drop)]
pub struct Ran {
    pub sheet: Sheet,
    pub at: usize,
    pub accepted: usize,
    pub last: Option<Result<(), Refusal>>,
}

// The kinds of calls.
#[derive(Clone, Copy)]
enum Kind {
    Open,
    Offer,
    Sweep,
    Turn,
    Chart,
}

// One item that was run: what its call answered, and the item's size.
#[derive(Clone, Copy)]
struct Step {
    answer: Result<Sheet, Refusal>,
    size: usize,
}

// The kind that a number stands for.
fn kind_of(number: u8) -> Option<Kind>
    ensures { IsKind number result }
{
    match number {
        1 => Some(Kind::Open),
        2 => Some(Kind::Offer),
        3 => Some(Kind::Sweep),
        4 => Some(Kind::Turn),
        5 => Some(Kind::Chart),
        _ => None,
    }
}

// An item of the kind turn: malformed without a direction, with an odd byte over, or with more than 1200 numbers.
#[tactic(auto, using(crate::proofs::Turns::numbers_front), unfolding(model::specs::CallLists::call, crate::specs::Scripts::turn_item, crate::specs::Items::item_answer))]
fn run_turn(sheet: Sheet, argument: &[u8]) -> Option<Result<Sheet, Refusal>>
    ensures { ran result ≡ item_answer sheet (turn_item argument.now) }
{
    let long = argument.len();
    if long % 2 != 1 || 2401 < long {
        return None;
    }
    let k = long / 2;
    let numbers = arrays::words::<1200>(argument, 1, 2, k);
    Some(sheet_updates::turn(sheet, &numbers[..k], argument[0]))
}

// An item of a kind with its argument: what its call answers; nothing where it is malformed.
#[tactic(auto, unfolding(model::specs::CallLists::call, crate::specs::Scripts::call_of, crate::specs::Items::item_answer))]
fn run_call(sheet: Sheet, kind: Kind, argument: &[u8]) -> Option<Result<Sheet, Refusal>>
    ensures { ran result ≡ item_answer sheet (call_of (item_number kind) argument.now) }
{
    match kind {
        Kind::Open => Some(sheet_open::open_file(argument)),
        Kind::Offer => Some(sheet_updates::offer(sheet, argument)),
        Kind::Sweep if argument.is_empty() => Some(sheet_updates::sweep(sheet)),
        Kind::Turn => run_turn(sheet, argument),
        Kind::Chart if argument.is_empty() => Some(sheet_updates::chart(sheet)),
        _ => None,
    }
}

// The size of an argument by its three bytes.
fn size_of(low: u8, middle: u8, high: u8) -> usize
    ensures { result ≡ low + 256 * middle + 65536 * high }
{
    usize::from_le_bytes([low, middle, high, 0, 0, 0, 0, 0])
}

// Runs the item that the bytes begin with; nothing where it is malformed.
#[tactic(auto, using(crate::proofs::Items::kind_other), unfolding(crate::specs::Scripts::call_at, crate::specs::Items::item_answer))]
fn run_item(sheet: Sheet, rest: &[u8]) -> Option<Step>
    ensures answer { step_ran result ≡ item_answer sheet (call_at rest.now) }
    ensures size { IfSome result (λ t. t.size ≡ 4 + argument_size rest.now) }
{
    let [kind, low, middle, high, ..] = *rest else {
        return None;
    };
    let end = 4 + size_of(low, middle, high);
    let argument = rest.get(4..end)?;
    let answer = run_call(sheet, kind_of(kind)?, argument)?;
    Some(Step { answer, size: end })
}

// Runs the calls of a script from a fresh sheet, refused ones included. What stands on the sheet then is what demand 3 says of this very list of calls, and the answers that are counted, and the last of them, are those that it speaks of.
#[tactic(auto, using(crate::proofs::Walk::steps))]
pub fn run_script(script: &[u8]) -> Ran
    ensures sheet_value { result.sheet ≡ sheet_after fresh_sheet (calls_of script.now) }
    ensures at_value { result.at ≡ end_of script.now }
    ensures accepted_value { result.accepted ≡ tally is_accepted (answers_of fresh_sheet (calls_of script.now)) }
    ensures last_value { ran result.last ≡ last_or None (answers_of fresh_sheet (calls_of script.now)) }
    ensures guarantee { Guarantee (calls_of script.now) }
{
    let mut sheet = sheet::fresh_sheet();
    let mut at = 0;
    let mut accepted = 0;
    let mut last = None;
    while let Some(step) = run_item(sheet, &script[at..]) {
        sheet = step.answer.unwrap_or(sheet);
        at += step.size;
        accepted += usize::from(step.answer.is_ok());
        last = Some(step.answer.and(Ok(())));
    }
    Ran {
        sheet,
        at,
        accepted,
        last,
    }
}
