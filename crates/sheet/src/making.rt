// Makes sheets of a plan, labels and a chart that are lent: each is copied once, into the sheet that is handed out.
ghost use Rattle.std.specs.Prelude.{◌≡◌, ◌≤◌, ◌++◌, length, min, take, drop};
ghost use Rattle.model.specs.File.{fresh, opened, labelled, charted};
ghost use Rattle.rings.specs.Tables.{start_of, table_of};
ghost use Rattle.chart_points.specs.Charts.{chart_of_points};
ghost use Rattle.sheet.specs.Sheets.{pack, packed, no_chart};

use crate::{Sheet, Stage, fresh_sheet};
use chart_points::Points;
use rings::Table;

// Copies the first k elements of an array, or all where it has fewer, to the front of another.
fn copy_first<T: Copy>(to: &mut [T], from: &[T], k: usize)
    requires { k ≤ length to.old }
    ensures { to.new ≡ take (min k (length from.now)) from.now ++ drop (min k (length from.now)) to.old }
{
    let count = k.min(from.len());
    to[..count].copy_from_slice(&from[..count]);
}

// A plan whose rings fit the arrays of a sheet.
#[derive(Clone, Copy)]
pub struct BoundedTable<'a> {
    pub table: Table<'a>,
    pub ghost few: { table.n ≤ 200 },
    pub ghost room: { start_of table.sizes.now table.n ≤ 1186 },
}

impl BoundedTable<'_> {
    // Fills a fresh sheet with the plan and these labels, of which there is room for 1186, at a stage.
    fn fill(&self, stage: Stage, labels: &[u8], sheet: &mut Sheet)
        requires { sheet.old ≡ packed fresh }
        ensures { sheet.new ≡ pack stage (table_of self.now.table).rings (take 1186 labels.now) no_chart }
    {
        let plan = self.table;
        sheet.stage = stage;
        sheet.n = plan.n as u16;
        copy_first(&mut sheet.sizes, plan.sizes, plan.n);
        copy_first(
            &mut sheet.entries,
            plan.entries,
            plan_bounds::total_of(plan.sizes, plan.n),
        );
        copy_first(&mut sheet.labels, labels, labels.len().min(1186));
    }

    // The sheet of the plan.
    #[tactic(auto, unfolding(crate::specs::Sheets::packed))]
    pub fn opened(&self) -> Sheet
        ensures { result ≡ packed (opened (table_of self.now.table)) }
    {
        let mut sheet = fresh_sheet();
        self.fill(Stage::Open, &[], &mut sheet);
        sheet
    }

    // The sheet of the plan with these labels, of which there is room for 1186.
    #[tactic(auto, unfolding(crate::specs::Sheets::packed))]
    pub fn labelled(&self, labels: &[u8]) -> Sheet
        ensures { result ≡ packed (labelled (table_of self.now.table) (take 1186 labels.now)) }
    {
        let mut sheet = fresh_sheet();
        self.fill(Stage::Labelled, labels, &mut sheet);
        sheet
    }

    // The sheet of the plan with these labels and this chart; there is room for 1186 labels.
    pub fn charted(&self, labels: &[u8], chart: &Points) -> Sheet
        ensures { result ≡ packed (charted (table_of self.now.table) (take 1186 labels.now) (chart_of_points self.now.table.n chart.now)) }
    {
        let n = self.table.n;
        let mut sheet = fresh_sheet();
        self.fill(Stage::Charted, labels, &mut sheet);
        sheet.w = chart.w;
        sheet.h = chart.h;
        copy_first(&mut sheet.xs, chart.xs, n);
        copy_first(&mut sheet.ys, chart.ys, n);
        sheet
    }
}
