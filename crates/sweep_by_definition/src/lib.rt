// The sweep by the definition, of every plan that fits, whatever rules it keeps: at each step the list of each pair of positions is gathered until an eligible pair is found. It runs until it is finished or stuck.
#![tactic(auto)]

ghost use Rattle.std.specs.Prelude.{◌≡◌, ◌<◌};
ghost use Rattle.lists.specs.Spans.{zero_padded};
ghost use Rattle.model.specs.Outcome.{mapped};
ghost use Rattle.rings.specs.Tables.{plan_of};
ghost use Rattle.refusal.specs.Refusals.{outcome_of};
ghost use Rattle.sweep_labelling.specs.Labelling.{swept};
ghost use Rattle.sweep_by_definition.specs.Steps.{Takes, Running};

use refusal::Refusal;
use sweep_frontier::{Frontier, FrontierView};
use sweep_labelling::Guided;

mod choice;
mod list;

pub use choice::is_chorded;

// Takes the step of positions i and j of the frontier: puts its labels, and gives the new frontier, its list marked beside what was marked. There is none where there is no such list, or no room for it.
fn take_step(
    guided: &Guided,
    labels: &mut [u8],
    frontier: &Frontier,
    i: usize,
    j: usize,
) -> Option<Frontier>
    requires i_bound { i < 512 }
    requires j_bound { j < 512 }
    ensures { Takes (plan_of guided.now.located.rings) frontier.now labels.old i j labels.new result }
{
    let front = FrontierView {
        located: guided.located,
        f: &frontier.at,
    };
    let mut list = [0u16; 512];
    let mut marks = frontier.marks;
    let q = list::listed(&mut list, &mut marks, &front, i + 1..j).ok()?;
    guided.step_labels(labels, &frontier.at, &list, q, i, j);
    let mut at = [0u16; 512];
    let len = list::replaced(&mut at, &frontier.at, frontier.len, i + 1, j, &list, q).ok()?;
    Some(Frontier { len, at, marks })
}

// The steps of the sweep from its first frontier and labels, at most n of them: the labels at the end.
fn descend(
    guided: &Guided,
    first_labels: [u8; 1186],
    first: Frontier,
) -> Result<[u8; 1186], Refusal>
    requires { Running (plan_of guided.now.located.rings) guided.now.located.rings.n first first_labels }
    ensures { outcome_of result ≡ mapped (zero_padded 1186) (swept (plan_of guided.now.located.rings)) }
{
    let mut labels = first_labels;
    let mut frontier = first;
    for _ in 0..guided.located.rings.n {
        let front = FrontierView {
            located: guided.located,
            f: &frontier.at,
        };
        if !sweep_ends::is_unfinished(&front, frontier.len) {
            guided.finish_labels(&mut labels, &frontier.at, frontier.len);
            return Ok(labels);
        }
        let (i, j) = choice::choose(&front, frontier.len, &frontier.marks).ok_or(
            Refusal::SweepStuck,
        )?;
        frontier = take_step(guided, &mut labels, &frontier, i, j).ok_or(Refusal::SweepStuck)?;
    }
    Err(Refusal::SweepStuck)
}

// The labels of the sweep, before the label rules are tested.
pub fn run(guided: &Guided) -> Result<[u8; 1186], Refusal>
    ensures { outcome_of result ≡ mapped (zero_padded 1186) (swept (plan_of guided.now.located.rings)) }
{
    let first = sweep_ends::first_frontier(&guided.located.rings).ok_or(Refusal::SweepStuck)?;
    let labels = guided.first_labels(&first.at, first.len);
    descend(guided, labels, first)
}
