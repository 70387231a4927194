// A sweep on its way.
use sweep_frontier::Frontier;

// The frontier, with a mark for each context that is or was on it; for each context, how many contexts that came to the frontier touch it; and the labels so far.
#[derive(Drop)]
pub(crate) struct Course {
    pub(crate) frontier: Frontier,
    pub(crate) counts: [u16; 256],
    pub(crate) labels: [u8; 1186],
}
