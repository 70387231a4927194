// What a look at a sheet finds without the engine's calls: the areas of its chart's inner faces, and what scan, sweep, turn and chart are to answer.
#![tactic(auto)]

ghost use Rattle.std.specs.Prelude.{◌≡◌, true, [], ◌∷◌};
ghost use Rattle.model.specs.Plan.{faces_from};
ghost use Rattle.model.specs.Scan.{enclosing, scan};
ghost use Rattle.model.specs.Calls.{scan_call, sweep_call, turn_call, chart_call};
ghost use Rattle.rings.specs.Tables.{plan_of, table_of};
ghost use Rattle.plan_bounds.specs.Fits.{fit};
ghost use Rattle.scan.specs.Scanned.{has_third, has_second};
ghost use Rattle.chart_areas.specs.Corners.{points_only};
ghost use Rattle.refusal.specs.Refusals.{outcome_of};
ghost use Rattle.sheet.specs.Sheets.{held_plan, reads};
ghost use Rattle.sheet.specs.Answers.{packed_as};
ghost use Rattle.chart_audit.specs.Surveys.{with_area, with_faces, faces_on, surveyed};

use chart_points::Points;
use faces::FaceSteps;
use plan_bounds::Fit;
use refusal::Refusal;
use rings::Rings;
use sheet::{Sheet, Stage};

// The inner faces of a chart: how many there are, how many of them are positive, the least of their doubled areas, if there is one, and the sum, each with its sign.
#[derive(Clone, Copy)]
pub struct Areas {
    pub faces: usize,
    pub positive: usize,
    pub least: Option<i64>,
    pub sum: i64,
}

// A plan's rings, and where the contexts stand.
#[derive(Clone, Copy)]
struct PlacedPlan<'a> {
    rings: Rings<'a>,
    points: Points<'a>,
}

// Are a, b, c neighbours of each other and no inner face, walked either way?
#[tactic(auto, using(faces::proofs::FaceTests::enclosing_tests))]
fn rings_enclose(rings: &Rings, a: usize, b: usize, c: usize) -> bool
    ensures { result ≡ enclosing (plan_of rings.now) (a, b, c) }
{
    ring_search::is_adjacent(rings, a, c)
        && ring_search::is_adjacent(rings, b, c)
        && ring_search::is_adjacent(rings, a, b)
        && !faces::is_face(rings, a, b, c)
        && !faces::is_face(rings, a, c, b)
}

// The rings of a plan that fits.
#[derive(Clone, Copy)]
struct FitRings<'a> {
    rings: Rings<'a>,
    ghost fits: { fit (plan_of rings) ≡ true },
}

impl FitRings<'_> {
    // Do a, b and some c above b enclose? Every context is tried.
    fn tries_thirds(&self, a: usize, b: usize) -> bool
        ensures { result ≡ has_third (plan_of self.now.rings) a b }
    {
        (0..self.rings.n).any(|c| b < c && rings_enclose(&self.rings, a, b, c))
    }

    // The same. Where a and b are no neighbours there is no such c, and none is tried.
    #[tactic(auto, using(crate::proofs::Triples::no_third))]
    fn has_third(&self, a: usize, b: usize) -> bool
        ensures { result ≡ has_third (plan_of self.now.rings) a b }
    {
        if ring_search::is_adjacent(&self.rings, a, b) {
            return self.tries_thirds(a, b);
        }
        false
    }

    // Does a enclose with some b above it and some c above b?
    fn has_second(&self, a: usize) -> bool
        ensures { result ≡ has_second (plan_of self.now.rings) a }
    {
        (0..self.rings.n).any(|b| a < b && self.has_third(a, b))
    }

    // The triple of the lowest first context, then the lowest second, then the lowest third.
    fn first_triple(&self) -> Option<(usize, usize, usize)>
        ensures { result ≡ scan (plan_of self.now.rings) }
    {
        let n = self.rings.n;
        let a = (0..n).find(|a| self.has_second(*a))?;
        let b = (a + 1..n).find(|b| self.has_third(a, *b))?;
        let c = (b + 1..n).find(|c| rings_enclose(&self.rings, a, b, *c))?;
        Some((a, b, c))
    }
}

// The first triple a < b < c, by a, then b, then c, of neighbours of each other that are no inner face.
fn triple_of(fit: &Fit) -> Option<(usize, usize, usize)>
    ensures { result ≡ scan (table_of fit.now.plan) }
{
    let plan = fit.plan;
    let starts = rings::starts_of(plan.sizes);
    let rings = plan.rings(&starts);
    let fit_rings = FitRings { rings };
    fit_rings.first_triple()
}

impl Areas {
    // The areas with one more face.
    #[tactic(auto, unfolding(crate::specs::Surveys::with_area))]
    fn with(self, area: i64) -> Areas
        ensures { result ≡ with_area area self }
    {
        Areas {
            faces: self.faces.wrapping_add(1),
            positive: self.positive.wrapping_add(usize::from(area > 0)),
            least: Some(self.least.unwrap_or(area).min(area)),
            sum: self.sum.wrapping_add(area),
        }
    }
}

impl<'a> PlacedPlan<'a> {
    // The areas with the inner face whose walk begins with the dart from u to v, where u is its lowest context.
    #[tactic(auto, using(crate::proofs::Counts::dart))]
    fn with_dart(&self, areas: Areas, u: usize, v: usize) -> Areas
        ensures { result ≡ with_faces (points_only self.now.points.xs.now self.now.points.ys.now) (faces_on (plan_of self.now.rings) u v) areas }
    {
        if v <= u {
            return areas;
        }
        let w = self.rings.third_of(u, v);
        if w <= u {
            return areas;
        }
        if faces::is_face(&self.rings, u, v, w) {
            return areas.with(chart_areas::area_of(&self.points, u, v, w));
        }
        areas
    }

    // The areas with the inner faces whose lowest context is u.
    fn with_context(&self, areas: Areas, u: usize) -> Areas
        ensures { result ≡ with_faces (points_only self.now.points.xs.now self.now.points.ys.now) (faces_from (plan_of self.now.rings) u) areas }
    {
        (0..self.rings.size_of(u)).fold(areas, |all, i| {
            self.with_dart(all, u, self.rings.neighbour_at(u, i))
        })
    }

    // The areas of all inner faces.
    fn areas(&self) -> Areas
        ensures { result ≡ surveyed (plan_of self.now.rings) (points_only self.now.points.xs.now self.now.points.ys.now) }
    {
        let none = Areas {
            faces: 0,
            positive: 0,
            least: None,
            sum: 0,
        };
        (0..self.rings.n).fold(none, |areas, u| self.with_context(areas, u))
    }
}

// The areas of the inner faces of a sheet's chart.
#[tactic(auto, using(crate::proofs::Counts::rings_of))]
pub fn areas_of(sheet: &Sheet) -> Areas
    ensures { result ≡ surveyed (held_plan sheet.now) (points_only sheet.now.xs sheet.now.ys) }
{
    let plan = sheet::table_of(sheet);
    let starts = rings::starts_of(plan.sizes);
    let drawn = PlacedPlan {
        rings: plan.rings(&starts),
        points: sheet::points_of(sheet),
    };
    drawn.areas()
}

// What scan is to answer of a sheet: the triple that its definition gives, or that there is none; or the refusal that is due. The triples are gone through, without the table of `scan`.
#[tactic(auto, using(sheet_queries::proofs::Scans::steps), unfolding(sheet::specs::Sheets::rank, sheet::specs::Answers::answer_of))]
pub fn scan_due(sheet: &Sheet) -> Result<Option<(usize, usize, usize)>, Refusal>
    ensures { outcome_of result ≡ scan_call (reads sheet.now) }
{
    let fitting = sheet::require_fitting(sheet, Stage::Open)?;
    Ok(triple_of(&fitting.fit()))
}

// What sweep is to answer of a sheet: the sheet with the labels that the sweep's definition, gone through step by step, gives for its plan; or the refusal that is due.
#[tactic(auto, using(sheet::proofs::Sweeps::steps), unfolding(sheet::specs::Sheets::rank, sheet::specs::Answers::answer_of))]
pub fn swept_due(sheet: &Sheet) -> Result<Sheet, Refusal>
    ensures { outcome_of result ≡ packed_as (sweep_call (reads sheet.now)) }
{
    let fitting = sheet::require_fitting(sheet, Stage::Open)?;
    let labels = sweep::sweep_by_definition(&fitting.fit())?;
    Ok(fitting.with_labels(&labels))
}

// What turn of one edge is to answer of a sheet: the sheet with the labels of both darts turned, or the refusal that is due.
#[tactic(auto, using(sheet_updates::proofs::Turns::steps), unfolding(sheet::specs::Sheets::rank, sheet::specs::Answers::answer_of))]
pub fn turned_due(sheet: &Sheet, u: u16, v: u16, direction: u8) -> Result<Sheet, Refusal>
    ensures { outcome_of result ≡ packed_as (turn_call (reads sheet.now) (u ∷ v ∷ []) direction) }
{
    let fitting = sheet::require_fitting(sheet, Stage::Labelled)?;
    let turned = turn::turn_labels(sheet.labels, &fitting.fit(), &[u, v], direction)?;
    Ok(fitting.with_labels(&turned))
}

// What chart is to answer of a sheet: the sheet with the chart of its plan and labels, or the refusal that is due.
#[tactic(auto, using(sheet::proofs::Charts::steps), unfolding(sheet::specs::Sheets::rank, sheet::specs::Answers::answer_of))]
pub fn charted_due(sheet: &Sheet) -> Result<Sheet, Refusal>
    ensures { outcome_of result ≡ packed_as (chart_call (reads sheet.now)) }
{
    let fitting = sheet::require_fitting(sheet, Stage::Labelled)?;
    let drawn = chart_placement::chart_of(&fitting.fit(), fitting.labels())?;
    Ok(fitting.charted(&drawn.points()))
}
