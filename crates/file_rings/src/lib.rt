// Rings in a lent file: look-ups where the rings stand, before anything is copied. The file may hold more entries than the flat arrays.
#![tactic(auto)]

ghost use Rattle.std.specs.Prelude.{◌≡◌, ◌+◌, ◌*◌, ◌<◌, ◌^◌, get_or};
ghost use Rattle.lists.specs.Tests.{member};
ghost use Rattle.lists.specs.Spans.{span};
ghost use Rattle.model.specs.Plan.{ring};
ghost use Rattle.rings.specs.Tables.{size_of};
ghost use Rattle.rings.specs.FilePlans.{body_at};
ghost use Rattle.file_rings.specs.Plans.{plan_of_file};

// Rings in a lent file: the file, where each ring begins among the entries of all, the size of each, and how many contexts there are.
#[derive(Clone, Copy)]
pub struct FileRings<'a> {
    pub file: &'a [u8],
    pub starts: &'a [u16],
    pub sizes: &'a [u8],
    pub n: usize,
}

impl FileRings<'_> {
    // The size of u's ring.
    pub fn size_of(&self, u: usize) -> usize
        ensures value { result ≡ size_of self.now.sizes.now self.now.n u }
        ensures upper_bound { result < 2 ^ 8 }
    {
        rings::size_of(self.sizes, self.n, u)
    }

    // The number of two bytes that is entry i of u's ring; 0 past the file's end.
    fn entry_at(&self, u: usize, i: usize) -> u16
        requires { i < 2 ^ 8 }
        ensures { result ≡ get_or self.now.file.now (body_at self.now.starts.now u + 2 * i) 0 + 256 * get_or self.now.file.now (body_at self.now.starts.now u + 2 * i + 1) 0 }
    {
        let at = rings::entry_offset(u, arrays::number_at(self.starts, u) + i);
        arrays::word_at(self.file, at)
    }

    // The i-th neighbour in u's ring; 0 past its end.
    #[tactic(auto, using(crate::proofs::Rings::look_ups))]
    pub fn neighbour_at(&self, u: usize, i: usize) -> usize
        ensures { result ≡ get_or (ring (plan_of_file self.now) u) i 0 }
    {
        if i < self.size_of(u) {
            rings::neighbour_of(usize::from(self.entry_at(u, i)))
        } else {
            0
        }
    }

    // Is v in u's ring, at a or later?
    pub fn is_from(&self, u: usize, v: usize, a: usize) -> bool
        ensures { result ≡ member v (span (ring (plan_of_file self.now) u) a (size_of self.now.sizes.now self.now.n u)) }
    {
        (a..self.size_of(u)).any(|i| v == self.neighbour_at(u, i))
    }
}
