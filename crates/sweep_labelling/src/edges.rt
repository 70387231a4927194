// Labels put on edges.
ghost use Rattle.std.specs.Prelude.{◌≡◌};
ghost use Rattle.lists.specs.Parts.{steps};
ghost use Rattle.lists.specs.Spans.{span};
ghost use Rattle.model.specs.Labels.{up, right, turned, put_label};
ghost use Rattle.model.specs.Sweep.{all_pairs, label_edges};
ghost use Rattle.rings.specs.Tables.{plan_of};
ghost use Rattle.sweep_labelling.specs.Edges.{darts_to};

use crate::Guided;
use std::ops::Range;

impl Guided<'_> {
    // Puts l on the dart from u to v, if there is one.
    fn put_on(&self, labels: &mut [u8], l: u8, u: usize, v: usize)
        ensures { labels.new ≡ put_label (plan_of self.now.located.rings) u v l labels.old }
    {
        let Some(cell) = rings::cell(u, v) else {
            return;
        };
        if let Some(i) = arrays::number_at(self.located.positions, cell).checked_sub(1) {
            arrays::put(
                labels,
                arrays::number_at(self.located.rings.starts, u) + i,
                l,
            );
        }
    }

    // Puts l on the dart from u to v, and its opposite on the reverse.
    fn edge(&self, labels: &mut [u8], l: u8, u: usize, v: usize)
        ensures { labels.new ≡ put_label (plan_of self.now.located.rings) u v l (put_label (plan_of self.now.located.rings) v u (turned l 2) labels.old) }
    {
        self.put_on(labels, labels::turned(l, 2), v, u);
        self.put_on(labels, l, u, v);
    }

    // Puts up on the darts from u to these positions of f.
    #[tactic(auto, using(crate::proofs::Draws::fan_on, crate::proofs::Draws::fan_end, crate::proofs::Draws::draws_end))]
    fn up_from(&self, labels: &mut [u8], u: usize, f: &[u16], to: Range<usize>)
        ensures { labels.new ≡ label_edges (plan_of self.now.located.rings) up (darts_to u (span f.now to.start to.end)) labels.old }
    {
        for k in to {
            self.edge(labels, labels::UP, u, arrays::number_at(f, k));
        }
    }

    // Puts up on the darts from these positions of g to these of f.
    #[tactic(auto, using(crate::proofs::Draws::product_on, crate::proofs::Draws::product_end, crate::proofs::Draws::draws_end))]
    pub(crate) fn up_between(
        &self,
        labels: &mut [u8],
        g: &[u16],
        from: Range<usize>,
        f: &[u16],
        to: Range<usize>,
    )
        ensures { labels.new ≡ label_edges (plan_of self.now.located.rings) up (all_pairs (span g.now from.start from.end) (span f.now to.start to.end)) labels.old }
    {
        for k in from {
            self.up_from(labels, arrays::number_at(g, k), f, to.start..to.end);
        }
    }

    // Puts right on the edges along these positions of f.
    #[tactic(auto, using(crate::proofs::Draws::steps_on, crate::proofs::Draws::steps_end, crate::proofs::Draws::draws_end))]
    pub(crate) fn right_along(&self, labels: &mut [u8], f: &[u16], along: Range<usize>)
        ensures { labels.new ≡ label_edges (plan_of self.now.located.rings) right (steps (span f.now along.start along.end)) labels.old }
    {
        let last = along.end.saturating_sub(1);
        for k in along.start..last {
            let u = arrays::number_at(f, k);
            let v = arrays::number_at(f, k + 1);
            self.edge(labels, labels::RIGHT, u, v);
        }
    }
}
