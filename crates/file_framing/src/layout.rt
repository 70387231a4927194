// Where everything stands in a file: a plan, and behind it labels and a chart, as far as the file has them.

ghost use Rattle.std.specs.Prelude.{◌≡◌, ◌≤◌};
ghost use Rattle.lists.specs.Spans.{stretch, zero_padded};
ghost use Rattle.model.specs.Plan.{Plan, context_count, labels_due};
ghost use Rattle.file_framing.specs.LayoutParts.{Near, Near-prop};

// What follows the plan: nothing, labels, or labels and a chart. Each number is an offset: of the label bytes, and of the chart's numbers.
#[derive(Clone, Copy)]
pub enum PartOffsets {
    Plan,
    Labels { labels: usize },
    Chart { labels: usize, chart: usize },
}

// The layout of a file that is not refused: the number of contexts, the number of entries of each ring, with 0 past the last context, and what follows the plan.
#[derive(Clone, Copy)]
pub struct Layout {
    pub n: usize,
    pub sizes: [u8; 200],
    pub parts: PartOffsets,
    pub ghost enough: { 5 ≤ n },
    pub ghost few: { n ≤ 200 },
    pub ghost tidy: { sizes ≡ zero_padded 200 (stretch sizes 0 n) },
    pub ghost near: { Near parts } by { Near-prop parts },
}

impl Layout {
    // How many labels the plan takes.
    pub fn labels_due(&self) -> usize
        ensures value { (p : Plan) → context_count p ≡ self.now.n → result ≡ labels_due p }
        ensures upper_bound { result ≤ 1186 }
    {
        rings::labels_due(self.n as u16)
    }
}
