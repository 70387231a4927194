// Framing: the records of a lent file, the refusals 1, 2 and 3 with their places, and where everything stands in the file.
#![tactic(auto)]

mod layout;

ghost use Rattle.std.specs.Prelude.{◌≡◌, List, [], ◌∷◌, Bool, ℕ, ◌<◌, ◌≤◌, eqb};
ghost use Rattle.lists.specs.Tests.{is_empty};
ghost use Rattle.model.specs.Plan.{Plan, context_count};
ghost use Rattle.model.specs.File.{frame, fits_ring, frame_rings, Due, frame_rest, optional, decode};
ghost use Rattle.file_records.specs.Records.{kind_number};
ghost use Rattle.arrays.specs.ArrayParts.{word_of};
ghost use Rattle.file_framing.specs.Offsets.{cursor, here, frame_at, record_of, due_of, file_end, ring_of, RingBelow, walk_of, WalkBounds};
ghost use Rattle.file_framing.specs.Layouts.{due_row, rest_of, parts_of, NearParts, StandBehind, plan_from, sheet_in, PartsBehind};

use file_records::Record;
pub use layout::{Layout, PartOffsets};
use refusal::Refusal;

// A record in a file: the number that says its kind, and the size of its body.
#[derive(Clone, Copy)]
struct Frame {
    kind: u16,
    size: usize,
}

// All ring records: the number of entries of each, and the offset behind them.
#[derive(Clone, Copy)]
struct Walk {
    sizes: [u8; 200],
    at: usize,
}

// A file, and an offset in it.
#[derive(Clone, Copy)]
struct Cursor<'a> {
    file: &'a [u8],
    at: usize,
}

impl<'a> Cursor<'a> {
    // Is nothing left of the file from here on?
    #[tactic(auto, using(crate::proofs::Offsets::is_empty_from))]
    fn is_end(&self) -> bool
        ensures { result ≡ is_empty (here self.now).rest }
    {
        self.file.len() <= self.at
    }

    // The record here; none where its length is missing, under 2 or past the end.
    #[tactic(auto, using(std::proofs::lemmas::Bool::Decides::nat_tests), unfolding(crate::specs::Offsets::frame_at))]
    fn framed(&self) -> Option<Frame>
        ensures { result ≡ frame_at self.now.file.now self.now.at }
    {
        let left = self.file.len().saturating_sub(self.at);
        let long = usize::from(arrays::word_at(self.file, self.at));
        if left < 2 || long < 2 || left - 2 < long {
            return None;
        }
        Some(Frame {
            kind: arrays::word_at(self.file, self.at + 2),
            size: long - 2,
        })
    }

    // A record of one kind is due here: the size of its body. Whatever size is due, the answer says what the model frames.
    fn record(&self, kind: Record) -> Result<usize, Refusal>
        ensures { (fits : ℕ → Bool) → record_of self.now fits result ≡ frame (here self.now) (kind_number kind) fits }
    {
        let found = self.framed().ok_or(Refusal::BrokenRecord(self.at))?;
        if found.kind != kind.number() {
            return Err(Refusal::OtherRecord(self.at));
        }
        Ok(found.size)
    }

    // A record of one kind and one body size is due here.
    fn due(&self, kind: Record, size: usize) -> Result<(), Refusal>
        ensures { due_of self.now size result ≡ frame (here self.now) (kind_number kind) (eqb size) }
    {
        if self.record(kind)? != size {
            return Err(Refusal::OtherRecord(self.at));
        }
        Ok(())
    }

    // A ring record is due here: entries of 2 bytes, at most n - 1. Gives how many.
    fn ring(&self, n: usize) -> Result<usize, Refusal>
        requires { 0 < n }
        ensures result_value { ring_of self.now result ≡ frame (here self.now) 2 (fits_ring n) }
        ensures ring_below { RingBelow n result }
    {
        let size = self.record(Record::Ring)?;
        if size % 2 != 0 || n <= size / 2 {
            return Err(Refusal::OtherRecord(self.at));
        }
        Ok(size / 2)
    }

    // The end is due here: a whole record is 2.
    fn end(&self) -> Result<(), Refusal>
        ensures { file_end result ≡ frame_rest [] (here self.now) }
    {
        if self.is_end() {
            return Ok(());
        }
        match self.framed() {
            None => Err(Refusal::BrokenRecord(self.at)),
            Some(_) => Err(Refusal::OtherRecord(self.at)),
        }
    }

    // A record of one kind and one body size is due here, if any: is it there? No at the end of the file.
    fn has(&self, kind: Record, size: usize) -> Result<bool, Refusal>
        ensures { (due : List Due) → rest_of self.now (due_row (kind_number kind) size) due result ≡ frame_rest (due_row (kind_number kind) size ∷ due) (here self.now) }
    {
        if self.is_end() {
            return Ok(false);
        }
        self.due(kind, size)?;
        Ok(true)
    }

    // What stands behind the rings of a plan of n contexts, which end here: labels, if any; behind labels a chart, if any; behind a chart the end.
    fn parts(&self, n: usize) -> Result<PartOffsets, Refusal>
        requires n_bound { n ≤ 200 }
        requires at_bound { self.now.at ≤ 80406 }
        ensures value { (p : Plan) → context_count p ≡ n → parts_of self.now.file.now p result ≡ frame_rest (optional p) (here self.now) }
        ensures near { NearParts result }
        ensures stand { StandBehind self.now.at n result }
    {
        let due = rings::labels_due(n as u16);
        if !self.has(Record::Labels, due)? {
            return Ok(PartOffsets::Plan);
        }
        let labels = self.at + 4;
        let behind = Cursor {
            at: labels + due,
            ..*self
        };
        let numbers = 4 + 4 * n;
        if !behind.has(Record::Chart, numbers)? {
            return Ok(PartOffsets::Labels { labels });
        }
        let chart = behind.at + 4;
        let last = Cursor {
            at: chart + numbers,
            ..*self
        };
        last.end()?;
        Ok(PartOffsets::Chart { labels, chart })
    }
}

// The n ring records behind the kind 1 record, in file order.
fn walk_rings(file: &[u8], n: usize) -> Result<Walk, Refusal>
    requires { n ≤ 200 }
    ensures result_value { walk_of file.now n result ≡ frame_rings n n (cursor file.now 6) }
    ensures walk_bounds { WalkBounds n result }
{
    let mut sizes = [0u8; 200];
    let mut at = 6;
    for i in 0..n {
        let size = Cursor { file, at }.ring(n)?;
        sizes[i] = size as u8;
        at += 4 + 2 * size;
    }
    Ok(Walk { sizes, at })
}

// Behind the kind 1 record, which says n: 3, then the rings and what follows them.
fn frame_plan(file: &[u8]) -> Result<Layout, Refusal>
    ensures value { sheet_in file.now result ≡ plan_from file.now (word_of file.now 4) }
    ensures offsets { PartsBehind result }
{
    let n = usize::from(arrays::word_at(file, 4));
    if !(5..=200).contains(&n) {
        return Err(Refusal::ContextCount);
    }
    let Walk { sizes, at } = walk_rings(file, n)?;
    let parts = Cursor { file, at }.parts(n)?;
    Ok(Layout { n, sizes, parts })
}

// The layout of a file: all records framed in file order, or the refusal.
pub fn frame_file(file: &[u8]) -> Result<Layout, Refusal>
    ensures value { sheet_in file.now result ≡ decode file.now }
    ensures offsets { PartsBehind result }
{
    Cursor { file, at: 0 }.due(Record::Contexts, 2)?;
    frame_plan(file)
}
