// Charts in flat arrays: where a context stands, and the comparison of two charts.
#![tactic(auto)]

ghost use Rattle.std.specs.Prelude.{◌≡◌, get_or};
ghost use Rattle.lists.specs.Tests.{same_list};
ghost use Rattle.lists.specs.Spans.{stretch};
ghost use Rattle.model.specs.Chart.{same_chart};
ghost use Rattle.chart_points.specs.Charts.{chart_of_points};

// A chart in flat arrays: its width and height, and where each context stands.
#[derive(Clone, Copy)]
pub struct Points<'a> {
    pub w: u16,
    pub h: u16,
    pub xs: &'a [u16],
    pub ys: &'a [u16],
}

impl Points<'_> {
    // The x and y of a context; what lies outside an array reads as 0.
    pub fn at(&self, u: usize) -> (u16, u16)
        ensures { result ≡ (get_or self.now.xs.now u 0, get_or self.now.ys.now u 0) }
    {
        (arrays::at(self.xs, u), arrays::at(self.ys, u))
    }
}

// Are the first n numbers of two arrays equal? What lies outside an array reads as 0.
fn same_numbers(n: usize, a: &[u16], b: &[u16]) -> bool
    ensures { result ≡ same_list (stretch a.now 0 n) (stretch b.now 0 n) }
{
    (0..n).all(|i| arrays::at(a, i) == arrays::at(b, i))
}

// Are two charts of n contexts equal: width, height and all points?
#[tactic(auto, unfolding(model::specs::Chart::same_chart, crate::specs::Charts::chart_on))]
pub fn same_chart(n: usize, a: &Points, b: &Points) -> bool
    ensures { result ≡ same_chart (chart_of_points n a.now) (chart_of_points n b.now) }
{
    a.w == b.w && a.h == b.h && same_numbers(n, a.xs, b.xs) && same_numbers(n, a.ys, b.ys)
}
