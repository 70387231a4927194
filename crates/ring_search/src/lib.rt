// Entries searched in rings: where one stands, whether it does, and the one after it.
#![tactic(auto)]

ghost use Rattle.std.specs.Prelude.{◌≡◌, ◌<◌, ◌^◌};
ghost use Rattle.lists.specs.Parts.{index_of};
ghost use Rattle.model.specs.Plan.{next, ring, adjacent};
ghost use Rattle.rings.specs.Tables.{plan_of};

use rings::Rings;

// Where v stands in u's ring; the ring's size if it does not.
pub fn index_of(rings: &Rings, u: usize, v: usize) -> usize
    ensures value { result ≡ index_of v (ring (plan_of rings.now) u) }
    ensures upper_bound { result < 2 ^ 8 }
{
    rings
        .span(u)
        .position(|i| v == rings::neighbour_of(arrays::number_at(rings.entries, i)))
        .unwrap_or(rings.size_of(u))
}

// Is v in u's ring?
pub fn is_adjacent(rings: &Rings, u: usize, v: usize) -> bool
    ensures { result ≡ adjacent (plan_of rings.now) u v }
{
    index_of(rings, u, v) < rings.size_of(u)
}

// The neighbour after a in u's ring, the ring closing on itself.
pub fn next_of(rings: &Rings, u: usize, a: usize) -> usize
    ensures { result ≡ next a (ring (plan_of rings.now) u) }
{
    let i = index_of(rings, u, a);
    if i + 1 < rings.size_of(u) {
        return rings.neighbour_at(u, i + 1);
    }
    if 0 < i {
        return rings.neighbour_at(u, 0);
    }
    a
}
