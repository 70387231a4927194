// Faces over flat arrays: the outer darts, the face step, whether a walk is an inner face, and the plan rules 8 and 9.
#![tactic(auto)]

ghost use Rattle.std.specs.Prelude.{◌≡◌, not, ◌||◌, ◌<◌};
ghost use Rattle.model.specs.Outcome.{rule};
ghost use Rattle.model.specs.Plan.{Plan, step, outer, closes, bad_border, bad_face};
ghost use Rattle.model.specs.Scan.{inner_face};
ghost use Rattle.refusal.specs.Refusals.{outcome_of};
ghost use Rattle.rings.specs.Tables.{plan_of};

use refusal::Refusal;
use rings::Rings;

// Is the dart from u to v one of the four outer darts?
pub fn is_outer(u: usize, v: usize) -> bool
    ensures { result ≡ outer (u, v) }
{
    if u < 4 {
        return v == (u + 1) % 4;
    }
    false
}

// Rings whose face steps are found, by whatever means.
pub trait FaceSteps {
    // the plan
    ghost plan: { Self → Plan };

    // The context after v on the face of the dart from u to v.
    fn third_of(&self, u: usize, v: usize) -> usize
        ensures { result ≡ (step (plan self.now) (u, v)).1 };
}

impl FaceSteps for Rings<'_> {
    ghost plan = { plan_of };

    #[tactic(auto, unfolding(model::specs::Plan::step))]
    fn third_of(&self, u: usize, v: usize) -> usize {
        ring_search::next_of(self, v, u)
    }
}

// Is the walk u, v, w an inner face, where u and v are neighbours?
#[tactic(auto, using(crate::proofs::FaceTests::face_tests))]
pub fn is_face<R: FaceSteps>(rings: &R, u: usize, v: usize, w: usize) -> bool
    ensures { result ≡ inner_face (R.plan rings.now) u v w }
{
    rings.third_of(u, v) == w
        && rings.third_of(v, w) == u
        && rings.third_of(w, u) == v
        && !is_outer(u, v)
}

// Does the border context u break rule 8?
fn bad_border(rings: &Rings, u: usize) -> bool
    requires { u < 4 }
    ensures { result ≡ bad_border (plan_of rings.now) u }
{
    let k = rings.size_of(u);
    if k == 0 {
        return true;
    }
    if rings.neighbour_at(u, 0) != (u + 1) % 4 {
        return true;
    }
    if rings.neighbour_at(u, k - 1) != (u + 3) % 4 {
        return true;
    }
    ring_search::is_adjacent(rings, u, (u + 2) % 4)
}

// 8: each border context's ring is as the border asks; refused at the lowest whose ring is not.
pub fn rule8(rings: &Rings) -> Result<(), Refusal>
    ensures { outcome_of result ≡ rule 8 4 (bad_border (plan_of rings.now)) }
{
    match (0..4).find(|u| bad_border(rings, *u)) {
        Some(u) => Err(Refusal::BadBorder(u)),
        None => Ok(()),
    }
}

// Does the dart from u to v break rule 9: it is not outer and does not come back to itself?
#[tactic(auto, using(crate::proofs::FaceTests::bad_tests))]
fn bad_dart(rings: &Rings, u: usize, v: usize) -> bool
    ensures { result ≡ not (outer (u, v) || closes (plan_of rings.now) (u, v)) }
{
    !is_outer(u, v) && !is_face(rings, u, v, rings.third_of(u, v))
}

// Does a dart that leaves u break rule 9?
fn bad_face(rings: &Rings, u: usize) -> bool
    ensures { result ≡ bad_face (plan_of rings.now) u }
{
    (0..rings.size_of(u)).any(|i| bad_dart(rings, u, rings.neighbour_at(u, i)))
}

// 9: each dart lies on a face; refused at the lowest context that another dart leaves.
pub fn rule9(rings: &Rings) -> Result<(), Refusal>
    ensures { outcome_of result ≡ rule 9 rings.now.n (bad_face (plan_of rings.now)) }
{
    refusal::none_of(rings.n, |u| bad_face(rings, u), Refusal::BadFace)
}
