// What is copied from a file into a sheet.
ghost use Rattle.std.specs.Prelude.{◌≡◌, ◌<◌, ◌≤◌, ◌^◌, length};
ghost use Rattle.lists.specs.Parts.{flatten};
ghost use Rattle.lists.specs.Spans.{zero_padded};
ghost use Rattle.model.specs.File.{charted};
ghost use Rattle.rings.specs.Tables.{start_of, table_of};
ghost use Rattle.rings.specs.FilePlans.{words_at};
ghost use Rattle.file_framing.specs.Layouts.{plan_in, label_bytes_at, chart_from, laid};
ghost use Rattle.sheet.specs.Sheets.{packed};

use chart_points::Points;
use file_framing::{Layout, PartOffsets};
use rings::Table;
use sheet::{BoundedTable, Sheet};

// A file with its layout, where all rings have no more entries than a sheet has room for.
#[derive(Clone, Copy)]
pub struct Bounded<'a> {
    pub file: &'a [u8],
    pub layout: &'a Layout,
    pub ghost room: { start_of layout.now.sizes layout.now.n ≤ 1186 },
}

// Copies the numbers of two bytes that stand in a file from an offset on, one for each position; what lies past the file's end reads as 0.
fn copy_words(to: &mut [u16], file: &[u8], from: usize)
    requires { from < 2 ^ 16 }
    ensures { to.new ≡ words_at file.now from (length to.old) }
{
    let rest = &file[from.min(file.len())..];
    let whole = to.len().min(rest.len() / 2);
    for i in 0..whole {
        to[i] = u16::from_le_bytes([rest[2 * i], rest[2 * i + 1]]);
    }
    for i in whole..to.len() {
        to[i] = arrays::word_at(rest, 2 * i);
    }
}

impl<'a> Bounded<'a> {
    // The entries of all rings, in context order.
    fn entries(&self) -> [u16; 1186]
        ensures { result ≡ zero_padded 1186 (flatten (plan_in self.now.file.now self.now.layout.now.sizes self.now.layout.now.n).rings) }
    {
        let mut entries = [0u16; 1186];
        let mut at = 0;
        for u in 0..self.layout.n {
            let k = arrays::number_at(&self.layout.sizes, u);
            copy_words(
                &mut entries[at..at + k],
                self.file,
                rings::entry_offset(u, at),
            );
            at += k;
        }
        entries
    }

    // The label bytes, which stand at an offset, as far as the file reaches.
    fn labels(&self, at: usize) -> &'a [u8]
        ensures fits { length result.now ≤ 1186 }
        ensures there { zero_padded 1186 result.now ≡ zero_padded 1186 (label_bytes_at self.now.file.now (plan_in self.now.file.now self.now.layout.now.sizes self.now.layout.now.n) at) }
    {
        let rest = &self.file[at.min(self.file.len())..];
        &rest[..self.layout.labels_due().min(rest.len())]
    }

    // The sheet of the plan at stage CHARTED, with its labels, which stand at an offset, and its chart's numbers: the width, the height, then x and y of each context in turn.
    fn charted(&self, plan: &BoundedTable, labels: usize, chart: usize) -> Sheet
        requires near { chart < 2 ^ 17 }
        requires same { plan.now.table.n ≡ self.now.layout.now.n }
        ensures { result ≡ packed (charted (table_of plan.now.table) (label_bytes_at self.now.file.now (plan_in self.now.file.now self.now.layout.now.sizes self.now.layout.now.n) labels) (chart_from self.now.file.now self.now.layout.now.n chart)) }
    {
        let n = self.layout.n;
        let xs: [u16; 200] = arrays::words(self.file, chart + 4, 4, n);
        let ys: [u16; 200] = arrays::words(self.file, chart + 6, 4, n);
        let points = Points {
            w: arrays::word_at(self.file, chart),
            h: arrays::word_at(self.file, chart + 2),
            xs: &xs,
            ys: &ys,
        };
        plan.charted(self.labels(labels), &points)
    }

    // The sheet that the file holds.
    #[tactic(auto, using(crate::proofs::Opened::laid_steps), unfolding(file_framing::specs::Layouts::laid))]
    pub fn sheet(&self) -> Sheet
        ensures { result ≡ packed (laid self.now.file.now self.now.layout.now) }
    {
        let entries = self.entries();
        let plan = BoundedTable {
            table: Table {
                sizes: &self.layout.sizes,
                entries: &entries,
                n: self.layout.n,
            },
        };
        match self.layout.parts {
            PartOffsets::Plan => plan.opened(),
            PartOffsets::Labels { labels } => plan.labelled(self.labels(labels)),
            PartOffsets::Chart { labels, chart } => self.charted(&plan, labels, chart),
        }
    }
}
