// The game of a file, as it was decoded.
ghost use Rattle.std.specs.Prelude.{◌≤◌};

use crate::shape::{Objective, Side};
use decoding::decode;
use game::{BlockNo, Game, StateNo};
use std::array;

// A place for each state, and one for the end of the last state's moves.
const ENDS: usize = Game::MAX_STATES + 1;

// A decoded game, and the number of each state's first move, with one place more for the end of the last state's moves, in a row of
// fixed size, since nothing is allocated.
#[derive(Clone, Copy)]
pub struct Board {
    game: Game,
    first: [usize; ENDS],
}

impl Board {
    // A refused file is taken as the game with no states.
    pub fn of_file(file: &[u8]) -> Board {
        Board::of(decode(file).unwrap_or_else(|_| Game::empty()))
    }

    // The moves come in the order of their states.
    fn of(game: Game) -> Board {
        let from = game.from.get(..game.moves).unwrap_or(&[]);
        let first = array::from_fn(|state| {
            from.partition_point(|number| usize::from(number.0) < state)
        });
        Board { game, first }
    }

    pub fn states(&self) -> usize
        ensures { result ≤ 512 }
    {
        self.game.states.min(Game::MAX_STATES)
    }

    pub fn moves(&self) -> usize {
        self.game.moves
    }

    pub fn objective(&self) -> Objective {
        Objective::from(self.game.objective)
    }

    pub fn turn(&self, state: usize) -> Side {
        let turn = self.game.turn.get(state);
        turn.map_or(Side::Two, |number| Side::from(*number))
    }

    pub fn is_start(&self, state: usize) -> bool {
        matches!(self.game.marks.get(state), Some(1 | 3))
    }

    pub fn is_target(&self, state: usize) -> bool {
        matches!(self.game.marks.get(state), Some(2 | 3))
    }

    // The number of the state's block.
    pub fn block(&self, state: usize) -> Option<BlockNo> {
        self.game.block.get(state).copied()
    }

    // Where the moves of a state lead.
    pub fn moves_from(&self, state: usize) -> &[StateNo] {
        match self.first.get(state..) {
            Some([first, end, ..]) => self.game.to.get(*first..*end).unwrap_or(&[]),
            _ => &[],
        }
    }
}
