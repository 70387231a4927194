// What is below a frontier context: the ring entries between its right and its left frontier neighbour.
ghost use Rattle.std.specs.Prelude.{◌≡◌, suc, ◌-◌, ◌<◌, ◌^◌, ◌++◌, get_or, length, take, drop, reverse, eqb};
ghost use Rattle.rings.specs.Tables.{size_of};
ghost use Rattle.sweep_frontier.specs.Frontiers as run;

use ring_positions::Located;
use rings::Rings;

// A frontier on rings with their table of positions.
#[derive(Clone, Copy)]
pub struct FrontierView<'a> {
    pub located: Located<'a>,
    pub f: &'a [u16],
}

// What is below a position of a frontier: u's ring, from the entry after position x round to the left frontier neighbour, which is the first that is not below.
#[derive(Clone, Copy)]
pub struct Below<'a> {
    pub rings: Rings<'a>,
    pub u: usize,
    pub x: usize,
    pub left: u16,
}

impl<'a> FrontierView<'a> {
    // The frontier context before position k.
    fn prior(&self, k: usize) -> u16
        ensures { result ≡ get_or self.now.f.now (k - 1) 0 }
    {
        arrays::at(self.f, k.saturating_sub(1))
    }

    // The frontier context after position k.
    fn after(&self, k: usize) -> u16
        ensures { result ≡ get_or self.now.f.now (suc k) 0 }
    {
        arrays::at(self.f, k.saturating_add(1))
    }

    // What is below position k.
    pub fn below(&self, k: usize) -> Below<'a>
        ensures value { result ≡ run.below_of self.now.located.rings self.now.f.now k }
        ensures x_bound { result.x < 2 ^ 8 }
    {
        let u = arrays::number_at(self.f, k);
        Below {
            rings: self.located.rings,
            u,
            x: self.located.index_of(u, usize::from(self.after(k))),
            left: self.prior(k),
        }
    }
}

impl<'a> Below<'a> {
    // How many entries u's ring has.
    fn size(&self) -> usize
        ensures value { result ≡ size_of self.now.rings.sizes.now self.now.rings.n self.now.u }
        ensures upper_bound { result < 2 ^ 8 }
    {
        self.rings.size_of(self.u)
    }

    // Where u's ring begins among the entries.
    fn start(&self) -> u16
        ensures { result ≡ get_or self.now.rings.starts.now self.now.u 0 }
    {
        arrays::at(self.rings.starts, self.u)
    }

    // Entry t of the ring of q entries from this start on, read from the entry after position x round to the entry before it; 0 past the end.
    #[tactic(auto, using(crate::proofs::Moves::read_first, crate::proofs::Moves::read_later, crate::proofs::Moves::read_past))]
    fn read(&self, start: u16, q: usize, t: usize) -> u16
        requires start { start ≡ get_or self.now.rings.starts.now self.now.u 0 }
        requires size { q ≡ size_of self.now.rings.sizes.now self.now.rings.n self.now.u }
        requires short { q < 2 ^ 8 }
        ensures { result ≡ get_or (run.entries_read self.now) t 0 }
    {
        let d = q.saturating_sub(1).saturating_sub(self.x);
        if t < d {
            return arrays::at(self.rings.entries, usize::from(start) + (self.x + 1 + t));
        }
        if t - d < self.x.min(q) {
            return arrays::at(self.rings.entries, usize::from(start) + (t - d));
        }
        0
    }

    // Entry t of the ring, read from the entry after position x round to the entry before it; 0 past the end.
    pub fn at(&self, t: usize) -> u16
        ensures { result ≡ get_or (run.entries_read self.now) t 0 }
    {
        self.read(self.start(), self.size(), t)
    }

    // How many entries of a ring of q are read, the left frontier neighbour and those after it among them.
    #[tactic(auto, using(crate::proofs::Moves::read_all))]
    fn reach(&self, q: usize) -> usize
        requires size { q ≡ size_of self.now.rings.sizes.now self.now.rings.n self.now.u }
        requires short { q < 2 ^ 8 }
        ensures value { result ≡ length (run.entries_read self.now) }
        ensures upper_bound { result < 2 ^ 8 }
    {
        q.saturating_sub(1).saturating_sub(self.x) + self.x.min(q)
    }

    // How many entries are below: those before the left frontier neighbour.
    pub fn len(&self) -> usize
        ensures value { result ≡ run.depth_of self.now }
        ensures upper_bound { result < 2 ^ 8 }
    {
        let q = self.size();
        let start = self.start();
        let e = self.reach(q);
        (0..e)
            .find(|t| self.left == self.read(start, q, *t))
            .unwrap_or(e)
    }

    // Is exactly one entry below? The first is not the left frontier neighbour, and the second is it, or there is none.
    #[tactic(auto, using(crate::proofs::Ones::one_bare, crate::proofs::Ones::one_left, crate::proofs::Ones::one_alone, crate::proofs::Ones::one_next))]
    pub fn is_one(&self) -> bool
        ensures { result ≡ eqb (run.depth_of self.now) 1 }
    {
        let q = self.size();
        let start = self.start();
        let e = self.reach(q);
        e > 0
            && self.left != self.read(start, q, 0)
            && (e == 1 || self.left == self.read(start, q, 1))
    }

    // Puts what is below on the front of a list, the last of the ring first: how many entries that are. What stands behind them is as it was.
    pub fn put_on(&self, list: &mut [u16; 256]) -> usize
        ensures value { result ≡ run.depth_of self.now }
        ensures list { list.new ≡ reverse (take (run.depth_of self.now) (run.entries_read self.now)) ++ drop (run.depth_of self.now) list.old }
        ensures upper_bound { result < 2 ^ 8 }
    {
        let size = self.size();
        let start = self.start();
        let q = self.len();
        for t in 0..q {
            arrays::put(list, q - 1 - t, self.read(start, size, t));
        }
        q
    }
}
