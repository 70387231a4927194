// Scan over flat arrays: the smallest triple of mutual neighbours that are no inner face, by the table of successors of a plan that fits.
#![tactic(auto)]

ghost use Rattle.std.specs.Prelude.{◌≡◌, ◌≤◌, ◌*◌, true};
ghost use Rattle.model.specs.Plan.{adjacent, step};
ghost use Rattle.model.specs.Scan.{scan, enclosing};
ghost use Rattle.rings.specs.Tables.{plan_of, table_of};
ghost use Rattle.plan_bounds.specs.Fits.{fit};
ghost use Rattle.ring_successors.specs.Successors.{successor, successors_of};
ghost use Rattle.lists.specs.Spans.{zero_padded};
ghost use Rattle.scan.specs.Scanned.{has_third, has_second};

use faces::FaceSteps;
use plan_bounds::Fit;
use rings::Rings;

// The rings of a plan that fits, with a table that reads as the plan's own table of successors.
#[derive(Clone, Copy)]
struct WithSuccessors<'a, 'b> {
    rings: Rings<'a>,
    table: &'b [u8],
    ghost fits: { fit (plan_of rings) ≡ true },
    ghost own: { zero_padded 40000 table.now ≡ successors_of (plan_of rings) },
}

// The context after v on the face of the dart from u to v, by a search: for a v that does not list u, which no accepted plan has.
#[cold]
#[inline(never)]
fn third_by_search(rings: &Rings, u: usize, v: usize) -> usize
    ensures { result ≡ (step (plan_of rings.now) (u, v)).1 }
{
    rings.third_of(u, v)
}

impl FaceSteps for WithSuccessors<'_, '_> {
    ghost plan = { λ f. plan_of f.rings };

    // By the table, where v lists u.
    #[inline(always)]
    fn third_of(&self, u: usize, v: usize) -> usize {
        match self.successor(v, u).checked_sub(1) {
            Some(w) => w,
            None => third_by_search(&self.rings, u, v),
        }
    }
}

impl WithSuccessors<'_, '_> {
    // What the table says of v in u's ring: one more than the entry after it; 0 where it is not there.
    #[tactic(auto, unfolding(rings::specs::Tables::cell, ring_successors::specs::Successors::successor))]
    fn successor(&self, u: usize, v: usize) -> usize
        ensures { result ≡ successor self.now.table.now u v }
    {
        match rings::cell(u, v) {
            Some(at) => arrays::number_at(self.table, at),
            None => 0,
        }
    }

    // Does u list v?
    fn is_adjacent(&self, u: usize, v: usize) -> bool
        ensures { result ≡ adjacent (plan_of self.now.rings) u v }
    {
        self.successor(u, v) != 0
    }

    // Do a, b, c enclose: are they mutual neighbours that are no inner face, walked either way?
    #[inline(always)]
    #[tactic(auto, using(faces::proofs::FaceTests::enclosing_tests))]
    fn encloses(&self, a: usize, b: usize, c: usize) -> bool
        ensures { result ≡ enclosing (plan_of self.now.rings) (a, b, c) }
    {
        self.is_adjacent(a, c)
            && self.is_adjacent(b, c)
            && self.is_adjacent(a, b)
            && !faces::is_face(self, a, b, c)
            && !faces::is_face(self, a, c, b)
    }

    // Do a, b and some c above b enclose? Such a c stands in the rings of both, of which the shorter is walked.
    fn has_third(&self, a: usize, b: usize) -> bool
        ensures { result ≡ has_third (plan_of self.now.rings) a b }
    {
        let u = if self.rings.size_of(a) < self.rings.size_of(b) {
            a
        } else {
            b
        };
        self.rings.span(u).any(|i| {
            let c = rings::neighbour_of(arrays::number_at(self.rings.entries, i));
            b < c && self.encloses(a, b, c)
        })
    }

    // Does a enclose with some b above it and some c above b? Such a b stands in a's ring.
    fn has_second(&self, a: usize) -> bool
        ensures { result ≡ has_second (plan_of self.now.rings) a }
    {
        self.rings.span(a).any(|i| {
            let b = rings::neighbour_of(arrays::number_at(self.rings.entries, i));
            a < b && self.has_third(a, b)
        })
    }

    // The triple of the lowest first context, then the lowest second, then the lowest third.
    fn scan(&self) -> Option<(usize, usize, usize)>
        ensures { result ≡ scan (plan_of self.now.rings) }
    {
        let n = self.rings.n;
        let a = (0..n).find(|a| self.has_second(*a))?;
        let b = (a + 1..n).find(|b| self.has_third(a, *b))?;
        let c = (b + 1..n).find(|c| self.encloses(a, b, *c))?;
        Some((a, b, c))
    }
}

// The smallest triple, with a table of N cells, which has a row for each context. It is made first, so that it is cleared once.
fn scan_in<const N: usize>(fit: &Fit) -> Option<(usize, usize, usize)>
    requires { (200 * fit.now.plan.n ≤ N) × (N ≤ 40000) }
    ensures { result ≡ scan (table_of fit.now.plan) }
{
    let mut table = [0u8; N];
    let plan = fit.plan;
    let starts = rings::starts_of(plan.sizes);
    let rings = plan.rings(&starts);
    ring_successors::fill(&mut table, &rings);
    let with_successors = WithSuccessors {
        rings,
        table: &table,
    };
    with_successors.scan()
}

// The smallest triple a < b < c, by a, then b, then c, of mutual neighbours that are no inner face. A small plan has a small table.
pub fn scan(fit: &Fit) -> Option<(usize, usize, usize)>
    ensures { result ≡ scan (table_of fit.now.plan) }
{
    if fit.plan.n <= rings::FEW_CONTEXTS {
        scan_in::<4000>(fit)
    } else if fit.plan.n <= rings::SOME_CONTEXTS {
        scan_in::<12000>(fit)
    } else {
        scan_in::<40000>(fit)
    }
}
