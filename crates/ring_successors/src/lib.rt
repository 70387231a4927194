// The successors of a plan's ring entries in one table, so that a face step is one look-up: the table, noted ring by ring.
#![tactic(auto)]

ghost use Rattle.std.specs.Prelude.{◌≡◌, true, get_or, map};
ghost use Rattle.model.specs.Plan.{neighbour, ring};
ghost use Rattle.rings.specs.Tables.{plan_of};
ghost use Rattle.ring_successors.specs.Successors.{successor_mark, note_at, note_ring, note_rings};

use rings::Rings;
use std::ops::Range;

// One more than a context, in a byte; 255 for every context from 254 on.
fn mark_of(v: usize) -> u8
    ensures { result ≡ successor_mark v }
{
    v.min(254) as u8 + 1
}

// A number noted for the entry v of u's ring. Is it clear still: the entry has a cell, which was 0?
#[tactic(auto, unfolding(rings::specs::Tables::cell, crate::specs::Successors::note_at))]
fn note(table: &mut [u8], u: usize, v: usize, x: u8, clear: bool) -> bool
    ensures table_after { table.new ≡ (note_at u v x (table.old, clear)).0 }
    ensures value { result ≡ (note_at u v x (table.old, clear)).1 }
{
    let Some(cell) = rings::cell(u, v) else {
        return false;
    };
    let old = arrays::number_at(table, cell);
    arrays::put(table, cell, x);
    clear & (old == 0)
}

// The successors in u's ring, which has these entries: from the last to the first.
fn note_entries(table: &mut [u8], entries: &[u16], u: usize, clear: bool) -> bool
    ensures table_after { table.new ≡ (note_ring u (get_or (map neighbour entries.now) 0 0) (map neighbour entries.now) (table.old, clear)).0 }
    ensures value { result ≡ (note_ring u (get_or (map neighbour entries.now) 0 0) (map neighbour entries.now) (table.old, clear)).1 }
{
    let mut still = clear;
    let mut after = rings::neighbour_of(arrays::number_at(entries, 0));
    for i in (0..entries.len()).rev() {
        let v = rings::neighbour_of(usize::from(entries[i]));
        still = note(table, u, v, mark_of(after), still);
        after = v;
    }
    still
}

// The successors in u's ring, some of whose entries are missing.
fn note_missing(table: &mut [u8], rings: &Rings, u: usize, clear: bool) -> bool
    ensures table_after { table.new ≡ (note_ring u (get_or (ring (plan_of rings.now) u) 0 0) (ring (plan_of rings.now) u) (table.old, clear)).0 }
    ensures value { result ≡ (note_ring u (get_or (ring (plan_of rings.now) u) 0 0) (ring (plan_of rings.now) u) (table.old, clear)).1 }
{
    let Range { start, end } = rings.span(u);
    let mut still = clear;
    let mut after = rings::neighbour_of(arrays::number_at(rings.entries, start));
    for i in (start..end).rev() {
        let v = rings::neighbour_of(arrays::number_at(rings.entries, i));
        still = note(table, u, v, mark_of(after), still);
        after = v;
    }
    still
}

// The successors in u's ring.
fn note_ring(table: &mut [u8], rings: &Rings, u: usize, clear: bool) -> bool
    ensures table_after { table.new ≡ (note_ring u (get_or (ring (plan_of rings.now) u) 0 0) (ring (plan_of rings.now) u) (table.old, clear)).0 }
    ensures value { result ≡ (note_ring u (get_or (ring (plan_of rings.now) u) 0 0) (ring (plan_of rings.now) u) (table.old, clear)).1 }
{
    let Range { start, end } = rings.span(u);
    match rings.entries.get(start..end) {
        Some(entries) => note_entries(table, entries, u, clear),
        None => note_missing(table, rings, u, clear),
    }
}

// The successors of the plan that the rings hold. Has every entry a cell, which was 0?
pub fn fill(table: &mut [u8], rings: &Rings) -> bool
    ensures table_after { table.new ≡ (note_rings (plan_of rings.now) (table.old, true)).0 }
    ensures value { result ≡ (note_rings (plan_of rings.now) (table.old, true)).1 }
{
    let m = rings.n.min(200);
    let mut clear = true;
    for u in 0..m {
        clear = note_ring(table, rings, u, clear);
    }
    clear
}
