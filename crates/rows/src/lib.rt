// The rows of a round: what the hunting side brings about over the present blocks, the split of the border block, and the
// first round that is lost.
#![tactic(auto)]

pub mod retrace;
pub mod sets;
pub mod splits;
