// The sweep: labels worked out from North down to South, the model's for every plan that fits; with few tests where the plan keeps the rules 4 to 9, else by the definition.
#![tactic(auto)]

ghost use Rattle.std.specs.Prelude.{◌≡◌, ◌≤◌, ◌*◌, true};
ghost use Rattle.lists.specs.Spans.{zero_padded};
ghost use Rattle.model.specs.Outcome.{mapped, passed};
ghost use Rattle.model.specs.Plan.{plan_rules};
ghost use Rattle.model.specs.Sound.{Sound};
ghost use Rattle.model.specs.Sweep.{sweep};
ghost use Rattle.rings.specs.Tables.{table_of};
ghost use Rattle.refusal.specs.Refusals.{outcome_of};
ghost use Rattle.sweep_labelling.specs.Labelling.{swept};

use plan_bounds::Fit;
use refusal::Refusal;
use ring_positions::Located;
use sweep_by_counts::CountingSweep;
use sweep_labelling::Guided;

// A plan that fits and keeps the rules 4 to 9.
#[derive(Clone, Copy)]
pub struct RuledFit<'a> {
    pub fit: Fit<'a>,
    pub ghost kept: { plan_rules (table_of fit.plan) ≡ passed },
}

// Does a plan that fits keep the rules 4 to 9? A quick test, whose no says nothing.
fn is_ruled(fit: &Fit) -> bool
    ensures { result ≡ true → Sound (table_of fit.now.plan) }
{
    let plan = fit.plan;
    plan_bounds::total_of(plan.sizes, plan.n) == rings::dart_count(plan.n as u16)
        && plan_check::is_sound(&plan)
}

// The labels of the sweep before the label rules are tested, by a table of positions of N cells, which has a row for each context: with few tests where the plan is known to keep the rules.
// The table is made first, so that it is cleared once.
fn swept_in<const N: usize>(fit: &Fit, ruled: bool) -> Result<[u8; 1186], Refusal>
    requires sound { ruled ≡ true → Sound (table_of fit.now.plan) }
    requires room { (200 * fit.now.plan.n ≤ N) × (N ≤ 40000) }
    ensures { outcome_of result ≡ mapped (zero_padded 1186) (swept (table_of fit.now.plan)) }
{
    let mut positions = [0u8; N];
    let plan = fit.plan;
    let starts = rings::starts_of(plan.sizes);
    let rings = plan.rings(&starts);
    ring_positions::fill(&mut positions, &rings);
    let located = Located {
        rings,
        positions: &positions,
    };
    let guided = Guided { located };
    if ruled {
        let counting = CountingSweep { guided };
        return counting.run();
    }
    sweep_by_definition::run(&guided)
}

// The same; the table is small for few contexts.
fn swept(fit: &Fit, ruled: bool) -> Result<[u8; 1186], Refusal>
    requires { ruled ≡ true → Sound (table_of fit.now.plan) }
    ensures { outcome_of result ≡ mapped (zero_padded 1186) (swept (table_of fit.now.plan)) }
{
    if fit.plan.n <= rings::FEW_CONTEXTS {
        swept_in::<4000>(fit, ruled)
    } else if fit.plan.n <= rings::SOME_CONTEXTS {
        swept_in::<12000>(fit, ruled)
    } else {
        swept_in::<40000>(fit, ruled)
    }
}

// The labels of the sweep, with zeros after them, once the label rules are tested: with few tests where the plan is known to keep the rules 4 to 9.
fn tested(fit: &Fit, ruled: bool) -> Result<[u8; 1186], Refusal>
    requires { ruled ≡ true → Sound (table_of fit.now.plan) }
    ensures { outcome_of result ≡ mapped (zero_padded 1186) (sweep (table_of fit.now.plan)) }
{
    let labels = swept(fit, ruled)?;
    label_rules::check(fit, &labels)?;
    Ok(labels)
}

// The labels that the sweep gives for the plan, with zeros after them. It is refused where it is stuck, and at the lowest context that breaks the label rules.
pub fn sweep_labels(fit: &Fit) -> Result<[u8; 1186], Refusal>
    ensures { outcome_of result ≡ mapped (zero_padded 1186) (sweep (table_of fit.now.plan)) }
{
    tested(fit, is_ruled(fit))
}

// The same labels of a plan that is known to keep the rules 4 to 9, which are not tested again.
pub fn sweep_ruled(ruled: &RuledFit) -> Result<[u8; 1186], Refusal>
    ensures { outcome_of result ≡ mapped (zero_padded 1186) (sweep (table_of ruled.now.fit.plan)) }
{
    tested(&ruled.fit, true)
}

// The same labels found by the definition of the sweep alone, whatever rules the plan keeps: by them what the calls give is told right or wrong.
pub fn sweep_by_definition(fit: &Fit) -> Result<[u8; 1186], Refusal>
    ensures { outcome_of result ≡ mapped (zero_padded 1186) (sweep (table_of fit.now.plan)) }
{
    tested(fit, false)
}
