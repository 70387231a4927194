// Writing: the file of a plan and of what follows it, into a lent buffer. The length is known before the buffer is touched.
#![tactic(auto)]

ghost use Rattle.std.specs.Prelude.{◌≡◌, [], ◌∷◌, ◌+◌, ◌<◌, ◌≤◌, ◌^◌, length};
ghost use Rattle.lists.specs.Spans.{stretch};
ghost use Rattle.lists.specs.Words.{bytes};
ghost use Rattle.model.specs.File.{entry, points, chart_out, rings_out, plan_out, encode};
ghost use Rattle.model.specs.Calls.{write_call};
ghost use Rattle.refusal.specs.Refusals.{outcome_of};
ghost use Rattle.file_records.specs.Records.{kind_number};
ghost use Rattle.buffer.specs.Puts.{put};
ghost use Rattle.rings.specs.Tables.{start_of, table_of};
ghost use Rattle.chart_points.specs.Charts.{chart_of_points};
ghost use Rattle.file_writing.specs.WrittenFiles.{labels_in, sheet_held, answered};

use buffer::Buffer;
use chart_points::Points;
use file_records::Record;
use plan_bounds::Fit;
use refusal::Refusal;
use rings::Table;

// What follows the plan in a file: nothing, labels, or labels and a chart.
#[derive(Clone, Copy)]
pub enum Parts<'a> {
    Plan,
    Labels { labels: &'a [u8] },
    Chart { labels: &'a [u8], drawn: Points<'a> },
}

// What is written: a plan that fits, whose entries are all there, and what follows it, with at most 1186 labels.
#[derive(Clone, Copy)]
pub struct Held<'a> {
    pub fit: Fit<'a>,
    pub parts: Parts<'a>,
    pub ghost whole: { start_of fit.plan.sizes.now fit.plan.n ≤ length fit.plan.entries.now },
    pub ghost few: { length (labels_in parts) ≤ 1186 },
}

// The length of the plan's records.
fn plan_length(fit: &Fit) -> usize
    ensures value { result ≡ length (plan_out (table_of fit.now.plan)) }
    ensures upper_bound { result < 2 ^ 12 }
{
    6 + 4 * fit.plan.n + 2 * plan_bounds::total_of(fit.plan.sizes, fit.plan.n)
}

// The length of the record of the labels.
#[tactic(auto, using(crate::proofs::Lengths::part_lengths))]
fn labels_length(labels: &[u8]) -> usize
    requires { length labels.now ≤ 1186 }
    ensures value { result ≡ length (entry 3 labels.now) }
    ensures upper_bound { result < 2 ^ 11 }
{
    4 + labels.len()
}

// The length of the record of the chart of n contexts.
#[tactic(auto, using(crate::proofs::Lengths::part_lengths))]
fn chart_length(drawn: &Points, n: usize) -> usize
    requires { n ≤ 200 }
    ensures value { result ≡ length (entry 4 (bytes (chart_out (chart_of_points n drawn.now)))) }
    ensures upper_bound { result < 2 ^ 10 }
{
    8 + 4 * n
}

// Puts the first k points, x before y, two bytes each.
#[tactic(auto, using(crate::proofs::Texts::parts))]
fn put_points(to: &mut Buffer, drawn: &Points, k: usize)
    ensures { to.new ≡ put to.old (bytes (points (stretch drawn.now.xs.now 0 k) (stretch drawn.now.ys.now 0 k))) }
{
    for j in 0..k {
        to.put_words(&[arrays::at(drawn.xs, j), arrays::at(drawn.ys, j)]);
    }
}

// Puts a record's head: its length, counting the kind and a body of k bytes, and its kind.
#[tactic(auto, using(crate::proofs::Texts::records))]
fn put_head(to: &mut Buffer, kind: Record, k: u16)
    requires { 2 + k < 2 ^ 16 }
    ensures { to.new ≡ put to.old (bytes ((2 + k) ∷ kind_number kind ∷ [])) }
{
    to.put_words(&[2 + k, kind.number()]);
}

// Puts the record of a ring.
#[tactic(auto, using(crate::proofs::Texts::records))]
fn put_ring(to: &mut Buffer, ring: &[u16])
    requires { length ring.now < 2 ^ 8 }
    ensures { to.new ≡ put to.old (entry 2 (bytes ring.now)) }
{
    put_head(to, Record::Ring, 2 * ring.len() as u16);
    to.put_words(ring);
}

// Puts the records of the rings.
fn put_rings(to: &mut Buffer, plan: &Table)
    requires few { plan.now.n ≤ 200 }
    requires whole { start_of plan.now.sizes.now plan.now.n ≤ length plan.now.entries.now }
    ensures { to.new ≡ put to.old (rings_out (table_of plan.now).rings) }
{
    let mut i = 0;
    for u in 0..plan.n {
        let k = arrays::number_at(plan.sizes, u);
        put_ring(to, &plan.entries[i..i + k]);
        i += k;
    }
}

// Puts the plan's records.
#[tactic(auto, using(crate::proofs::Texts::records))]
fn put_plan(to: &mut Buffer, plan: &Table)
    requires few { plan.now.n ≤ 200 }
    requires whole { start_of plan.now.sizes.now plan.now.n ≤ length plan.now.entries.now }
    ensures { to.new ≡ put to.old (plan_out (table_of plan.now)) }
{
    put_head(to, Record::Contexts, 2);
    to.put_word(plan.n as u16);
    put_rings(to, plan);
}

// Puts the record of the labels.
#[tactic(auto, using(crate::proofs::Texts::records))]
fn put_labels(to: &mut Buffer, labels: &[u8])
    requires { length labels.now ≤ 1186 }
    ensures { to.new ≡ put to.old (entry 3 labels.now) }
{
    put_head(to, Record::Labels, labels.len() as u16);
    to.put_bytes(labels);
}

// Puts the record of the chart of n contexts.
#[tactic(auto, using(crate::proofs::Texts::records))]
fn put_chart(to: &mut Buffer, drawn: &Points, n: usize)
    requires { n ≤ 200 }
    ensures { to.new ≡ put to.old (entry 4 (bytes (chart_out (chart_of_points n drawn.now)))) }
{
    put_head(to, Record::Chart, 4 + 4 * n as u16);
    to.put_word(drawn.w);
    to.put_word(drawn.h);
    put_points(to, drawn, n);
}

impl<'a> Held<'a> {
    // The length of the file.
    #[tactic(auto, using(crate::proofs::Lengths::file_lengths))]
    fn length(&self) -> usize
        ensures { result ≡ length (encode (sheet_held self.now.fit.plan self.now.parts)) }
    {
        let plan = plan_length(&self.fit);
        match self.parts {
            Parts::Plan => plan,
            Parts::Labels { labels } => plan + labels_length(labels),
            Parts::Chart { labels, drawn } => {
                plan + labels_length(labels) + chart_length(&drawn, self.fit.plan.n)
            }
        }
    }

    // Puts the whole file, part after part.
    #[tactic(auto, using(crate::proofs::Texts::files))]
    fn put(&self, to: &mut Buffer)
        ensures { to.new ≡ put to.old (encode (sheet_held self.now.fit.plan self.now.parts)) }
    {
        put_plan(to, &self.fit.plan);
        match self.parts {
            Parts::Plan => {}
            Parts::Labels { labels } => put_labels(to, labels),
            Parts::Chart { labels, drawn } => {
                put_labels(to, labels);
                put_chart(to, &drawn, self.fit.plan.n);
            }
        }
    }
}

// The file of what is held, into the buffer: its length. A buffer that is short stays as it is, and so do the bytes after the file.
#[tactic(auto, using(crate::proofs::Texts::written_file), unfolding(buffer::specs::Puts::put))]
pub fn write_file(out: &mut [u8], held: &Held) -> Result<usize, Refusal>
    ensures { answered (write_call (sheet_held held.now.fit.plan held.now.parts) out.old) out.old ≡ (outcome_of result, out.new) }
{
    let need = held.length();
    if out.len() < need {
        return Err(Refusal::ShortBuffer(need));
    }
    held.put(&mut Buffer { out, at: 0 });
    Ok(need)
}
