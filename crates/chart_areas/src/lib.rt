// Doubled area of a triangle, signed: positive for a counterclockwise walk.
#![tactic(auto)]

ghost use Rattle.std.specs.Prelude.{◌≡◌, [], ◌∷◌};
ghost use Rattle.std.proofs.Math.IntN.{sub_ℕ};
ghost use Rattle.model.specs.Geometry.{positive, is_zero, area};
ghost use Rattle.chart_areas.specs.Corners.{points_only, negative, counterclockwise, flat, clockwise, at_points};

use chart_points::Points;

// The difference of two coordinates.
fn difference(a: u16, b: u16) -> i64
    ensures { result ≡ sub_ℕ a b }
{
    i64::from(a) - i64::from(b)
}

// Doubled area of the face a, b, c of a chart: positive, zero or negative as its walk is counterclockwise, flat or clockwise.
#[tactic(auto, using(crate::proofs::Areas::steps))]
pub fn area_of(chart: &Points, a: usize, b: usize, c: usize) -> i64
    ensures value { result ≡ area (points_only chart.now.xs.now chart.now.ys.now) (a ∷ b ∷ c ∷ []) }
    ensures result_value { positive result ≡ at_points counterclockwise chart.now.xs.now chart.now.ys.now a b c }
    ensures result_value_2 { is_zero result ≡ at_points flat chart.now.xs.now chart.now.ys.now a b c }
    ensures result_value_3 { negative result ≡ at_points clockwise chart.now.xs.now chart.now.ys.now a b c }
{
    let (ax, ay) = chart.at(a);
    let (bx, by) = chart.at(b);
    let (cx, cy) = chart.at(c);
    difference(bx, ax) * difference(cy, ay) - difference(cx, ax) * difference(by, ay)
}
