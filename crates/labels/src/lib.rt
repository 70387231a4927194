// Labels of darts in a flat array: the label at a position, the label due at a context, and four runs, each equal to a definition of the model.
// A label is a number: files and calls bring any byte, and labels are turned by adding quarters.
#![tactic(auto)]

ghost use Rattle.std.specs.Prelude.{◌≡◌, ◌&&◌, get_or};
ghost use Rattle.model.specs.Plan.{border};
ghost use Rattle.model.specs.Labels.{unlabelled, turned, due};

pub mod runs;

// The label up.
pub const UP: u8 = 0;

// The label right, a quarter clockwise from up.
pub const RIGHT: u8 = 1;

// The label down.
const DOWN: u8 = 2;

// The label left.
const LEFT: u8 = 3;

// The label between border contexts.
pub const BORDER: u8 = 4;

// What stands where there is no label.
pub const NONE: u8 = 5;

// The label at i; past the last there is none.
pub fn label_at(labels: &[u8], i: usize) -> u8
    ensures { result ≡ get_or labels.now i unlabelled }
{
    labels.get(i).copied().unwrap_or(NONE)
}

// The label turned clockwise by some quarters.
pub fn turned(label: u8, quarters: u8) -> u8
    ensures { result ≡ turned label quarters }
{
    (label % 4 + quarters % 4) % 4
}

// The label due on the inner darts that leave a context: North's are down, East's left, South's up, West's right; no one label is due at an inner context.
#[tactic(auto, unfolding(model::specs::Labels::due))]
pub fn due_label(u: usize) -> u8
    ensures { result ≡ due u }
{
    match u {
        0 => DOWN,
        1 => LEFT,
        2 => UP,
        3 => RIGHT,
        4..=199 => NONE,
        _ => NONE,
    }
}

// Are both border contexts?
pub fn both_border(u: usize, v: usize) -> bool
    ensures { result ≡ (border u && border v) }
{
    u < 4 && v < 4
}
