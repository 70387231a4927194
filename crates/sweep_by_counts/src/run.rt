// The steps of the sweep, from the first frontier until none can be taken.
ghost use Rattle.std.specs.Prelude.{◌≡◌, ◌<◌, ◌^◌, suc, ℕ, List};
ghost use Rattle.lists.specs.Spans.{zero_padded};
ghost use Rattle.model.specs.Outcome.{mapped};
ghost use Rattle.model.specs.Sweep.{State};
ghost use Rattle.rings.specs.Tables.{plan_of};
ghost use Rattle.refusal.specs.Refusals.{outcome_of};
ghost use Rattle.sweep_labelling.specs.Labelling.{swept};
ghost use Rattle.sweep_theory.specs.Quick.{reach};
ghost use Rattle.sweep_by_counts.specs.Courses.{HoldsState};
ghost use Rattle.sweep_by_counts.specs.Running.{RunningBelow, TakesFound, Settles};

use crate::CountingSweep;
use crate::course::Course;
use crate::pick::{Found, View};
use refusal::Refusal;
use sweep_frontier::FrontierView;

impl CountingSweep<'_> {
    // The labels where no step can be taken: those of the sweep that is finished, or the refusal of one that is stuck.
    fn settled(&self, last: Course) -> Result<[u8; 1186], Refusal>
        requires { Settles (plan_of self.now.guided.located.rings) last }
        ensures { outcome_of result ≡ mapped (zero_padded 1186) (swept (plan_of self.now.guided.located.rings)) }
    {
        let front = FrontierView {
            located: self.guided.located,
            f: &last.frontier.at,
        };
        if sweep_ends::is_unfinished(&front, last.frontier.len) {
            return Err(Refusal::SweepStuck);
        }
        let mut labels = last.labels;
        self.guided
            .finish_labels(&mut labels, &last.frontier.at, last.frontier.len);
        Ok(labels)
    }

    // The limit of the search for the step after one whose right end stands at position k now.
    fn limit_from(&self, course: &Course, k: usize) -> usize
        requires { k < 2 ^ 16 }
        ensures { (s : State) (cnt : List ℕ) → HoldsState (plan_of self.now.guided.located.rings) s cnt course.now → result ≡ suc (suc (reach (plan_of self.now.guided.located.rings) s.frontier k)) }
    {
        let view = View {
            located: self.guided.located,
            course,
        };
        view.resume(k)
    }

    // Takes the step of a pair that is found, whose list stands in the front of the array; the limit of the search for the next.
    fn step(&self, course: &mut Course, list: &[u16; 256], found: Found) -> usize
        requires { (k : ℕ) × TakesFound (plan_of self.now.guided.located.rings) k course.old list.now found }
        ensures { (k : ℕ) → TakesFound (plan_of self.now.guided.located.rings) k course.old list.now found → RunningBelow (plan_of self.now.guided.located.rings) k result course.new }
    {
        crate::moves::advance(&self.guided, course, &list[..found.q], found.i, found.j);
        self.limit_from(course, found.i + 1 + found.q)
    }

    // The labels of the sweep, before the label rules are tested.
    pub fn run(&self) -> Result<[u8; 1186], Refusal>
        ensures { outcome_of result ≡ mapped (zero_padded 1186) (swept (plan_of self.now.guided.located.rings)) }
    {
        let located = self.guided.located;
        let first = sweep_ends::first_frontier(&located.rings).ok_or(Refusal::SweepStuck)?;
        let (mut course, mut limit) = self.begin(first);
        let mut list = [0u16; 256];
        for _ in 0..located.rings.n {
            let view = View {
                located,
                course: &course,
            };
            let Some(found) = view.pick(limit, &mut list) else {
                return self.settled(course);
            };
            limit = self.step(&mut course, &list, found);
        }
        Err(Refusal::SweepStuck)
    }
}
