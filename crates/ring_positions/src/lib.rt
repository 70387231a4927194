// The positions of a plan's ring entries in one table, so that an entry is found at once: the table, and look-ups by it.
#![tactic(auto)]

ghost use Rattle.std.specs.Prelude.{◌≡◌, ◌<◌, ◌^◌};
ghost use Rattle.lists.specs.Parts.{index_of};
ghost use Rattle.model.specs.Plan.{ring, adjacent};
ghost use Rattle.rings.specs.Tables.{plan_of};
ghost use Rattle.ring_positions.specs.Positions.{noted, positions_filled, Finds};

use rings::Rings;

// Rings with a table in which the position of each of their entries stands.
#[derive(Clone, Copy)]
pub struct Located<'a> {
    pub rings: Rings<'a>,
    pub positions: &'a [u8],
    pub ghost own: { Finds positions.now (plan_of rings) },
}

// A number noted for the entry v of u's ring, where none is noted yet; rings and entries from 200 on are passed over.
pub fn note(table: &mut [u8], u: usize, v: usize, x: u8)
    ensures { table.new ≡ noted table.old u v x }
{
    if let Some(at) = rings::cell(u, v) {
        if arrays::number_at(table, at) == 0 {
            arrays::put(table, at, x);
        }
    }
}

// The positions of the rings' entries, in the cells of a table that are 0.
pub fn fill(table: &mut [u8], rings: &Rings)
    ensures { table.new ≡ positions_filled (plan_of rings.now) table.old }
{
    let m = rings.n.min(200);
    for u in 0..m {
        let start = arrays::number_at(rings.starts, u);
        let k = rings.size_of(u);
        match rings.entries.get(start..start + k) {
            Some(entries) => {
                for i in 0..k {
                    let v = rings::neighbour_of(usize::from(entries[i]));
                    note(table, u, v, i as u8 + 1);
                }
            }
            None => {
                for i in 0..k {
                    note(table, u, rings.neighbour_at(u, i), i as u8 + 1);
                }
            }
        }
    }
}

impl Located<'_> {
    // Where v stands in u's ring; the ring's size if it does not.
    pub fn index_of(&self, u: usize, v: usize) -> usize
        ensures value { result ≡ index_of v (ring (plan_of self.now.rings) u) }
        ensures upper_bound { result < 2 ^ 8 }
    {
        let Some(cell) = rings::cell(u, v) else {
            return ring_search::index_of(&self.rings, u, v);
        };
        let Some(i) = arrays::number_at(self.positions, cell).checked_sub(1) else {
            return self.rings.size_of(u);
        };
        i
    }

    // Is v in u's ring?
    pub fn is_adjacent(&self, u: usize, v: usize) -> bool
        ensures { result ≡ adjacent (plan_of self.now.rings) u v }
    {
        match rings::cell(u, v) {
            Some(at) => arrays::number_at(self.positions, at) != 0,
            None => ring_search::is_adjacent(&self.rings, u, v),
        }
    }
}
