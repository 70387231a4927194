// Does a plan in flat arrays fit: at most 200 contexts, at most 1186 entries, and each entry a context? And plans that do (Fit).
#![tactic(auto)]

ghost use Rattle.std.specs.Prelude.{◌≡◌, min, max, ◌<◌, ◌^◌, ◌&&◌, leb, true, cond, Some, None};
ghost use Rattle.std.specs.Option.{option_map};
ghost use Rattle.std.specs.List.{fold, list_any};
ghost use Rattle.lists.specs.Spans.{span};
ghost use Rattle.rings.specs.Tables.{start_of, table_of};
ghost use Rattle.plan_bounds.specs.Fits.{out_of_range, fit};

use rings::Table;

// A plan that fits.
#[derive(Clone, Copy)]
pub struct Fit<'a> {
    pub plan: Table<'a>,
    pub ghost fits: { fit (table_of plan) ≡ true },
}

// How many entries the first n rings have; of more than 200 rings, the first 200.
pub fn total_of(sizes: &[u8], n: usize) -> usize
    ensures value { result ≡ start_of sizes.now (min n 200) }
    ensures upper_bound { result < 2 ^ 16 }
{
    let counted = n.min(200).min(sizes.len());
    sizes[..counted].iter().map(|size| usize::from(*size)).sum()
}

// Is there room in the arrays for n rings that have so many entries in all: for at most 200 rings, and at most 1186 entries?
fn has_room(n: usize, total: usize) -> bool
    ensures { result ≡ (leb n 200 && leb total 1186) }
{
    n <= 200 && total <= 1186
}

// The highest of the first k entries, or 0. The loop has no early end, so that the machine runs it over several entries at once.
#[tactic(auto, using(crate::proofs::Settles::highest_is))]
fn highest(entries: &[u16], k: usize) -> u16
    ensures { result ≡ fold max 0 (span entries.now 0 k) }
{
    entries[..k.min(entries.len())]
        .iter()
        .fold(0, |top, entry| top.max(*entry))
}

// Does one of the first k entries name no context below n? Where there are entries, the highest of them settles it.
#[tactic(auto, using(crate::proofs::Settles::highest_settles, crate::proofs::Settles::none_out_of_range))]
fn any_out_of_range(entries: &[u16], k: usize, n: usize) -> bool
    ensures { result ≡ list_any (out_of_range n) (span entries.now 0 k) }
{
    0 < k && n <= rings::neighbour_of(usize::from(highest(entries, k)))
}

// Does the plan fit?
#[tactic(auto, using(crate::proofs::Fits::fit_out, crate::proofs::Fits::fit_in))]
pub fn is_fit(plan: &Table) -> bool
    ensures { result ≡ fit (table_of plan.now) }
{
    let total = total_of(plan.sizes, plan.n);
    has_room(plan.n, total) && !any_out_of_range(plan.entries, total, plan.n)
}

// The plan, where it fits.
pub fn of<'a>(plan: &Table<'a>) -> Option<Fit<'a>>
    ensures { option_map (λ f. f.plan) result ≡ cond (fit (table_of plan.now)) (Some plan.now) None }
{
    if is_fit(plan) {
        Some(Fit { plan: *plan })
    } else {
        None
    }
}
