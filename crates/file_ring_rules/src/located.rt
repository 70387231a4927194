// The rings of a lent file against each other, by a table of the positions of their entries.
ghost use Rattle.std.specs.Prelude.{◌≡◌, ◌≤◌, ◌*◌, min};
ghost use Rattle.model.specs.Outcome.{rule};
ghost use Rattle.model.specs.Plan.{adjacent, unreturned};
ghost use Rattle.refusal.specs.Refusals.{outcome_of};
ghost use Rattle.file_rings.specs.Plans.{plan_of_file};
ghost use Rattle.ring_positions.specs.Positions.{positions_filled, Finds};

use file_rings::FileRings;
use refusal::Refusal;

// Rings in a lent file, with a table in which the position of each of their entries stands.
#[derive(Clone, Copy)]
struct Located<'a> {
    rings: FileRings<'a>,
    positions: &'a [u8],
    ghost own: { Finds positions.now (plan_of_file rings) },
}

impl Located<'_> {
    // Is v in u's ring? What the table has no room for is looked for in the ring.
    fn is_listed(&self, u: usize, v: usize) -> bool
        ensures { result ≡ adjacent (plan_of_file self.now.rings) u v }
    {
        match rings::cell(u, v) {
            Some(at) => arrays::number_at(self.positions, at) != 0,
            None => self.rings.is_from(u, v, 0),
        }
    }

    // 6: does u list some context that does not list u?
    fn unreturned(&self, u: usize) -> bool
        ensures { result ≡ unreturned (plan_of_file self.now.rings) u }
    {
        (0..self.rings.size_of(u)).any(|i| !self.is_listed(self.rings.neighbour_at(u, i), u))
    }
}

// The positions of the rings' entries, in the cells of a table that are 0.
fn fill(table: &mut [u8], rings: &FileRings)
    ensures { table.new ≡ positions_filled (plan_of_file rings.now) table.old }
{
    let m = rings.n.min(200);
    for u in 0..m {
        for i in 0..rings.size_of(u) {
            ring_positions::note(table, u, rings.neighbour_at(u, i), i as u8 + 1);
        }
    }
}

// 6, by a table of N cells, which has a row for each context, or 200 rows.
pub(crate) fn each_returned<const N: usize>(rings: &FileRings) -> Result<(), Refusal>
    requires { (200 * min rings.now.n 200 ≤ N) × (N ≤ 40000) }
    ensures { outcome_of result ≡ rule 6 rings.now.n (unreturned (plan_of_file rings.now)) }
{
    let mut positions = [0u8; N];
    fill(&mut positions, rings);
    let located = Located {
        rings: *rings,
        positions: &positions,
    };
    refusal::none_of(rings.n, |u| located.unreturned(u), Refusal::OneSidedEntry)
}
