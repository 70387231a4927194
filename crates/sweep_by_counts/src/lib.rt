// The sweep of a plan that keeps the rules, with few tests: for each context it counts how many contexts that are or were on the frontier touch it, and by these counts one test at a position says whether a step can be taken there.
#![tactic(auto)]

ghost use Rattle.rings.specs.Tables.{plan_of};
ghost use Rattle.model.specs.Sound.{Sound};

use sweep_labelling::Guided;

mod course;
mod first;
mod moves;
mod pick;
mod run;

// The rings of a plan that keeps the rules, with what its labels are put by.
#[derive(Clone, Copy)]
pub struct CountingSweep<'a> {
    pub guided: Guided<'a>,
    pub ghost sound: { Sound (plan_of guided.located.rings) },
}
