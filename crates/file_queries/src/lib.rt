// What is asked of a file and of no sheet. Ring: the part of the file that is one ring's body. Open and write: the same file again.
#![tactic(auto)]

ghost use Rattle.std.specs.Prelude.{◌≡◌};
ghost use Rattle.model.specs.Calls.{ring_call, ring_part};
ghost use Rattle.refusal.specs.Refusals.{outcome_of};
ghost use Rattle.file_writing.specs.WrittenFiles.{buffer_after};
ghost use Rattle.sheet.specs.Answers.{length_of};
ghost use Rattle.file_queries.specs.FileQueries.{part_of, copied_back};

use refusal::Refusal;

// A part of a file: the offset where it begins, and how many bytes it has.
#[derive(Clone, Copy)]
pub struct ByteRange {
    pub at: usize,
    pub size: usize,
}

// Ring: where the body of a context's ring stands in a file; 17 where there is no such context.
#[tactic(auto, using(crate::proofs::RingParts::steps))]
pub fn ring_answer(file: &[u8], context: usize) -> Result<ByteRange, Refusal>
    ensures { part_of result ≡ ring_call file.now context }
{
    let opened = sheet_open::open_file(file)?;
    let n = usize::from(opened.n);
    if n <= context {
        return Err(Refusal::NoSuchContext(n));
    }
    Ok(ByteRange {
        at: rings::entry_offset(context, plan_bounds::total_of(&opened.sizes, context)),
        size: 2 * arrays::number_at(&opened.sizes, context),
    })
}

// Ring: the part of a file that is a context's ring; an empty part on a refusal.
#[tactic(auto, using(crate::proofs::RingParts::parts))]
pub fn ring(file: &[u8], context: usize) -> &[u8]
    ensures { result.now ≡ ring_part file.now (ring_call file.now context) }
{
    match ring_answer(file, context) {
        Ok(part) => arrays::part(file, part.at, part.size),
        Err(_) => &file[..0],
    }
}

// Opens a file and writes it again: the buffer then begins with the file's bytes, and its later bytes stay. A refusal leaves the buffer as it is.
#[tactic(auto, using(crate::proofs::Rewritten::steps))]
pub fn open_write(file: &[u8], out: &mut [u8]) -> Result<usize, Refusal>
    ensures result_value { outcome_of result ≡ length_of (copied_back file.now out.old) }
    ensures out_after { out.new ≡ buffer_after (copied_back file.now out.old) out.old }
{
    let sheet = sheet_open::open_file(file)?;
    sheet_queries::write(&sheet, out)
}
