// The labels that the sweep puts: before its first step, at each step and at its end.
#![tactic(auto)]

ghost use Rattle.std.specs.Prelude.{◌≡◌, ◌≤◌, ◌<◌};
ghost use Rattle.model.specs.Plan.{entry_count};
ghost use Rattle.rings.specs.Tables.{plan_of};
ghost use Rattle.sweep_labelling.specs.Edges.{Guide};
ghost use Rattle.sweep_labelling.specs.Labelling as labelling;

use ring_positions::Located;

mod bare;
mod edges;

// Rings of a plan of at most 200 contexts and 1186 entries, each entry below 200, with where each ring begins and a table that finds their entries: by them each label is put where the model has it.
#[derive(Clone, Copy)]
pub struct Guided<'a> {
    pub located: Located<'a>,
    pub ghost guide: { Guide (plan_of located.rings) located.rings.starts.now },
    pub ghost room: { entry_count (plan_of located.rings) ≤ 1186 },
}

impl Guided<'_> {
    // The labels that the sweep begins with, where its first frontier is f of m contexts: none but the border's, and up on the darts from the frontier to North.
    #[tactic(auto, unfolding(crate::specs::Labelling::first_labels, lists::specs::Spans::stretch))]
    pub fn first_labels(&self, f: &[u16], m: usize) -> [u8; 1186]
        ensures { result ≡ labelling.first_labels (plan_of self.now.located.rings) f.now m }
    {
        let mut labels = bare::bare_labels(&self.located.rings);
        let north = [rings::NORTH];
        self.up_between(&mut labels, f, 1..m.saturating_sub(1), &north, 0..1);
        labels
    }

    // Puts the labels of a step that puts a list of q contexts in place of positions i + 1 to j - 1 of the frontier f: up from the list to what it replaces, right along i to j.
    #[tactic(auto, unfolding(crate::specs::Labelling::step_labels))]
    pub fn step_labels(
        &self,
        labels: &mut [u8],
        f: &[u16],
        list: &[u16],
        q: usize,
        i: usize,
        j: usize,
    )
        requires i_bound { i < 512 }
        requires j_bound { j < 512 }
        ensures { labels.new ≡ labelling.step_labels (plan_of self.now.located.rings) f.now list.now q i j labels.old }
    {
        self.up_between(labels, list, 0..q, f, i + 1..j);
        self.right_along(labels, f, i..j + 1);
    }

    // Puts the labels of a sweep finished with the frontier f of m contexts: up from South, right along the frontier.
    #[tactic(auto, unfolding(crate::specs::Labelling::finish_labels, lists::specs::Spans::stretch))]
    pub fn finish_labels(&self, labels: &mut [u8], f: &[u16], m: usize)
        ensures { labels.new ≡ labelling.finish_labels (plan_of self.now.located.rings) f.now m labels.old }
    {
        let south = [rings::SOUTH];
        self.up_between(labels, &south, 0..1, f, 1..m.saturating_sub(1));
        self.right_along(labels, f, 0..m);
    }
}
