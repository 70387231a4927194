// Runs vectors over the leaves. Standard input holds plan files, each behind its length in two bytes, little-endian; the
// program prints a line for each: the refusal of framing, or n and the offsets of labels and chart, 0 where there are none; the
// place that each plan rule gives (where it is kept n, for rule 8 the number 4), how many entries there are, the scan, how many bytes of the plan that is
// written are the file's, what a buffer that just fits and one that is a byte short give (16), the place of the label rules, the
// chart, and for a chart record 0 if it is that chart, else 12. A leaf that the ones before it rule out is not asked.
#![tactic(auto)]

use chart_points::Points;
use file_framing::{Layout, PartOffsets};
use file_rings::FileRings;
use file_writing::Held;
use plan_bounds::Fit;
use refusal::Refusal;
use rings::{Rings, Table};

// The place that a rule refuses; this number where it is kept.
fn place_of(rule: Result<(), Refusal>, kept: usize) -> usize {
    rule.err().map_or(kept, Refusal::place)
}

// The places that rules 4, 5 and 6 give; whether all are kept.
fn print_lent_rules(rings: &FileRings) -> bool {
    let n = rings.n;
    let four = file_ring_rules::rule4(rings);
    let five = file_ring_rules::rule5(rings);
    let six = file_ring_rules::rule6(rings);
    console::print(format_args!(
        " 4:{} 5:{} 6:{} entries {}",
        place_of(four, n),
        place_of(five, n),
        place_of(six, n),
        arrays::number_at(rings.starts, n),
    ));
    four.is_ok() && five.is_ok() && six.is_ok()
}

// The places that rules 8 and 9 give; whether both are kept.
fn print_flat_rules(rings: &Rings) -> bool {
    let eight = faces::rule8(rings);
    let nine = faces::rule9(rings);
    console::print(format_args!(" 8:{} 9:{}", place_of(eight, 4), place_of(nine, rings.n),));
    eight.is_ok() && nine.is_ok()
}

// The smallest triple of mutual neighbours that are no inner face.
fn print_scan(fit: &Fit) {
    match scan::scan(fit) {
        None => console::print(" triangle none"),
        Some((a, b, c)) => console::print(format_args!(" triangle {a},{b},{c}")),
    };
}

// The plan alone, to be written; none where its entries are not all there.
#[tactic(auto, using(plan_bounds::proofs::Bounds::fit_counted))]
fn plan_alone<'a>(fit: &Fit<'a>) -> Option<Held<'a>> {
    let plan = fit.plan;
    if plan.entries.len() < plan_bounds::total_of(plan.sizes, plan.n) {
        return None;
    }
    Some(Held {
        fit: *fit,
        parts: file_writing::Parts::Plan,
    })
}

// The plan written into a buffer: how many bytes it takes, and how many of them are the file's; or how many it needs. Either number.
fn print_whole(file: &[u8], held: &Held) -> usize {
    let mut space = io::buffer();
    match file_writing::write_file(&mut space, held) {
        Ok(size) => {
            let same = comparison::agreeing(file, &space, size);
            console::print(format_args!(" bytes {size} same {same}"));
            size
        }
        Err(refusal) => print_short(refusal),
    }
}

// How many bytes a buffer that is too short would need.
fn print_short(refusal: Refusal) -> usize {
    let size = refusal.place();
    console::print(format_args!(" short {size}"));
    size
}

// The plan written into so many bytes: how many it takes, or how many it needs.
fn print_part(size: usize, held: &Held) {
    match file_writing::write_file(&mut io::buffer()[..size.min(4096)], held) {
        Ok(k) => {
            console::print(format_args!(" length {k}"));
        }
        Err(refusal) => {
            print_short(refusal);
        }
    }
}

// The plan written into a buffer, into one that just fits, and into one that is a byte short.
fn print_written(file: &[u8], fit: &Fit) {
    if let Some(held) = plan_alone(fit) {
        let size = print_whole(file, &held);
        print_part(size, &held);
        print_part(size.saturating_sub(1), &held);
    }
}

// A chart: its size and the point of each of n contexts.
fn print_points(drawn: &Points, n: usize) {
    console::print(format_args!(" chart {}x{}", drawn.w, drawn.h));
    for u in 0..n {
        let x = arrays::number_at(drawn.xs, u);
        let y = arrays::number_at(drawn.ys, u);
        console::print(format_args!(" {x},{y}"));
    }
}

// Is the chart in the body of a chart record the one that is drawn?
fn judge_record(record: &[u8], n: usize, drawn: &Points) -> Result<(), Refusal> {
    let found = Points {
        w: arrays::word_at(record, 0),
        h: arrays::word_at(record, 2),
        xs: &arrays::words::<200>(record, 4, 4, 200),
        ys: &arrays::words::<200>(record, 6, 4, 200),
    };
    if chart_points::same_chart(n, &found, drawn) {
        Ok(())
    } else {
        Err(Refusal::OtherChart)
    }
}

// What the body of a chart record is refused by where a chart is drawn: 0 if it is the same, else 12.
fn print_record(record: &[u8], n: usize, drawn: &Points) {
    let number = match judge_record(record, n, drawn) {
        Ok(()) => 0,
        Err(refusal) => refusal.number(),
    };
    console::print(format_args!(" record {number}"));
}

// The chart of the labels, and whether the body of a chart record, if the file has one, is the same.
fn print_chart(fit: &Fit, labels: &[u8], record: Option<&[u8]>) {
    match chart_placement::chart_of(fit, labels) {
        Err(_) => {
            console::print(" chart none");
        }
        Ok(drawn) => {
            print_points(&drawn.points(), fit.plan.n);
            if let Some(record) = record {
                print_record(record, fit.plan.n, &drawn.points());
            }
        }
    }
}

// The place of the label rules, and the chart where they are kept.
fn print_labels(fit: &Fit, labels: &[u8], record: Option<&[u8]>) {
    let ten = label_rules::check(fit, labels);
    console::print(format_args!(" 10:{}", place_of(ten, fit.plan.n)));
    if ten.is_ok() {
        print_chart(fit, labels, record);
    }
}

// The entries of all rings, in context order, and zeros behind them; of more than 1,186, the first 1,186.
fn entries_of(rings: &FileRings) -> [u16; 1186] {
    let mut entries = [0u16; 1186];
    let mut at = 0;
    for u in 0..rings.n {
        for _ in 0..rings.size_of(u) {
            if at < 1186 {
                entries[at] = arrays::word_at(rings.file, rings::entry_offset(u, at));
                at += 1;
            }
        }
    }
    entries
}

// A file with its layout.
#[derive(Clone, Copy)]
struct Framed<'a> {
    file: &'a [u8],
    layout: &'a Layout,
}

impl<'a> Framed<'a> {
    // The label bytes, from an offset on.
    fn labels(&self, at: usize) -> &'a [u8] {
        arrays::part(self.file, at, self.layout.labels_due())
    }

    // The body of the chart record, from an offset on.
    fn record(&self, at: usize) -> &'a [u8] {
        arrays::part(self.file, at, 4 + 4 * self.layout.n)
    }

    // The rules 8 and 9, and on a plan that keeps them the scan, the plan written and the labels, if the file has any.
    fn print_flat(&self, plan: &Table, rings: &Rings) {
        if !print_flat_rules(rings) {
            return;
        }
        let Some(fit) = plan_bounds::of(plan) else {
            return;
        };
        print_scan(&fit);
        print_written(self.file, &fit);
        match self.layout.parts {
            PartOffsets::Plan => {}
            PartOffsets::Labels { labels } => print_labels(&fit, self.labels(labels), None),
            PartOffsets::Chart { labels, chart } => {
                print_labels(&fit, self.labels(labels), Some(self.record(chart)));
            }
        }
    }

    // What the leaves find in the plan.
    fn print_plan(&self) {
        let layout = self.layout;
        let starts = rings::starts_of(&layout.sizes);
        let lent = FileRings {
            file: self.file,
            starts: &starts,
            sizes: &layout.sizes,
            n: layout.n,
        };
        if print_lent_rules(&lent) {
            let plan = Table {
                sizes: &layout.sizes,
                entries: &entries_of(&lent),
                n: layout.n,
            };
            self.print_flat(&plan, &plan.rings(&starts));
        }
    }
}

// The number of contexts, and the offsets of labels and chart.
fn print_layout(layout: &Layout) {
    let (labels, chart) = match layout.parts {
        PartOffsets::Plan => (0, 0),
        PartOffsets::Labels { labels } => (labels, 0),
        PartOffsets::Chart { labels, chart } => (labels, chart),
    };
    console::print(format_args!("n {} labels {labels} chart {chart}", layout.n,));
}

// A file: the refusal, or what stands in it.
fn print_file(file: &[u8]) {
    match file_framing::frame_file(file) {
        Err(refusal) => {
            console::print(refusal);
        }
        Ok(layout) => {
            print_layout(&layout);
            let framed = Framed {
                file,
                layout: &layout,
            };
            framed.print_plan();
        }
    }
    console::print("\n");
}

// Runs the files of standard input, one after another.
fn main() {
    console::run_files(&mut io::large_buffer(), |_, file| print_file(file));
}
