// One round of 01 over the present blocks of a game: the prey, the border block and its split. All is seen from the side
// that hunts, so that reach and stay go the same way. A row of passes holds 0 for a state outside the set, and otherwise
// the pass in which it entered; pass 1 is the prey itself.
#![tactic(auto)]

pub mod border;
pub mod prey;
pub mod split;

pub use border::{border_block, first_moves};
pub use prey::{PassRow, hunting_side, prey_row};
pub use split::{part_block, split_block};
