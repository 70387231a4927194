// Rings in flat arrays: where they begin, their sizes and their neighbours by position, each equal to a definition of the model on the plan that the arrays hold. The cell of a pair in a table of 200 rows of 200 is here too.
#![tactic(auto)]

ghost use Rattle.std.specs.Prelude.{◌≡◌, ◌+◌, ◌-◌, min, ◌<◌, ◌^◌, get_or};
ghost use Rattle.model.specs.Plan.{Plan, context_count, dart_count, labels_due, neighbour, ring};
ghost use Rattle.model.specs.File.{entry_offset};
ghost use Rattle.rings.specs.Tables.{size_of, starts_of, plan_of, cell};

use std::ops::Range;

// The border contexts.
pub const NORTH: u16 = 0;

pub const EAST: u16 = 1;

pub const SOUTH: u16 = 2;

pub const WEST: u16 = 3;

// The most contexts for which a small table, of 20 rows of 200, has a row each.
pub const FEW_CONTEXTS: usize = 20;

// The most contexts for which a table of 60 rows has.
pub const SOME_CONTEXTS: usize = 60;

// A plan in flat arrays: the number of its contexts, the size of each ring, and the entries of all rings in context order.
#[derive(Clone, Copy)]
pub struct Table<'a> {
    pub sizes: &'a [u8],
    pub entries: &'a [u16],
    pub n: usize,
}

// The same, with where each ring begins among the entries.
#[derive(Clone, Copy)]
pub struct Rings<'a> {
    pub starts: &'a [u16],
    pub sizes: &'a [u8],
    pub entries: &'a [u16],
    pub n: usize,
}

impl Table<'_> {
    // The plan's rings, which begin at these starts.
    pub fn rings<'b>(&'b self, starts: &'b [u16]) -> Rings<'b>
        ensures starts { result.starts.now ≡ starts.now }
        ensures sizes { result.sizes.now ≡ self.now.sizes.now }
        ensures entries { result.entries.now ≡ self.now.entries.now }
        ensures n { result.n ≡ self.now.n }
    {
        Rings {
            starts,
            sizes: self.sizes,
            entries: self.entries,
            n: self.n,
        }
    }
}

// The neighbour that a ring entry names.
#[tactic(auto, unfolding(model::specs::Plan::neighbour))]
pub fn neighbour_of(entry: usize) -> usize
    ensures { result ≡ neighbour entry }
{
    entry
}

// How many darts a plan of n contexts has.
pub fn dart_count(n: u16) -> usize
    ensures { result ≡ dart_count n }
{
    (6 * usize::from(n)).saturating_sub(14)
}

// How many labels a plan of n contexts takes.
pub fn labels_due(n: u16) -> usize
    ensures { (p : Plan) → context_count p ≡ n → result ≡ labels_due p }
{
    dart_count(n)
}

// Where an entry of u's ring stands in a file, the k-th of all; where that is past every file, the highest number.
pub fn entry_offset(u: usize, k: usize) -> usize
    ensures { result ≡ min (entry_offset u k) (2 ^ 64 - 1) }
{
    let heads = u.saturating_mul(4).saturating_add(10);
    heads.saturating_add(k.saturating_mul(2))
}

// The size of u's ring, in a plan of n contexts.
pub fn size_of(sizes: &[u8], n: usize, u: usize) -> usize
    ensures value { result ≡ size_of sizes.now n u }
    ensures upper_bound { result < 2 ^ 8 }
{
    if u < n {
        arrays::number_at(sizes, u)
    } else {
        0
    }
}

// Where each ring begins among the entries.
pub fn starts_of(sizes: &[u8]) -> [u16; 200]
    ensures { result ≡ starts_of sizes.now }
{
    let mut starts = [0u16; 200];
    let mut sum: u16 = 0;
    for u in 0..200 {
        starts[u] = sum;
        sum += u16::from(arrays::at(sizes, u));
    }
    starts
}

// The cell of the pair u, v in a table of 200 rows of 200; none where there is no room for it.
#[tactic(auto, using(crate::proofs::Rows::cell_in, crate::proofs::Rows::cell_past, crate::proofs::Rows::cell_beyond))]
pub fn cell(u: usize, v: usize) -> Option<usize>
    ensures { result ≡ cell u v }
{
    if u >= 200 {
        return None;
    }
    if v >= 200 {
        return None;
    }
    Some(200 * u + v)
}

impl Rings<'_> {
    // The size of u's ring.
    pub fn size_of(&self, u: usize) -> usize
        ensures value { result ≡ size_of self.now.sizes.now self.now.n u }
        ensures upper_bound { result < 2 ^ 8 }
    {
        size_of(self.sizes, self.n, u)
    }

    // Where the entries of u's ring stand among those of all rings.
    pub fn span(&self, u: usize) -> Range<usize>
        ensures start { result.start ≡ get_or self.now.starts.now u 0 }
        ensures end { result.end ≡ get_or self.now.starts.now u 0 + size_of self.now.sizes.now self.now.n u }
    {
        let start = arrays::number_at(self.starts, u);
        start..start + self.size_of(u)
    }

    // The i-th entry of u's ring, as it stands; 0 past its end.
    pub fn entry_at(&self, u: usize, i: usize) -> u16
        ensures { result ≡ get_or (ring (plan_of self.now) u) i 0 }
    {
        if i < self.size_of(u) {
            arrays::at(self.entries, arrays::number_at(self.starts, u) + i)
        } else {
            0
        }
    }

    // The i-th neighbour in u's ring; 0 past its end.
    #[tactic(auto, unfolding(model::specs::Plan::neighbour))]
    pub fn neighbour_at(&self, u: usize, i: usize) -> usize
        ensures { result ≡ get_or (ring (plan_of self.now) u) i 0 }
    {
        neighbour_of(usize::from(self.entry_at(u, i)))
    }
}
