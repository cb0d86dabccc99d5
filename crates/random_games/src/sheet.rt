// A sheet holds all that is known of a game: its rows as they were decoded, who wins it by the published definition, what the solver
// said of it, and how long its plan takes.
ghost use Rattle.std.specs.Prelude.{◌≤◌};

use crate::board::Board;
use crate::follow::Plan;
use crate::said::Said;
use crate::{follow, winners};
use game::{BlockNo, Game};

// A row has a place for each state that a game can have, since nothing is allocated.
#[derive(Clone, Copy)]
pub struct Sheet {
    pub board: Board,
    wins: [bool; Game::MAX_STATES],
    pub said: Said,
    times: [Option<u16>; Game::MAX_STATES],
}

impl Sheet {
    // The file is solved with this allowance.
    pub fn of_file(file: &[u8], allowance: u16) -> Sheet {
        let board = Board::of_file(file);
        let wins = winners::find(&board);
        let said = Said::of_file(file, allowance);
        let times = follow::times(&board, &said);
        Sheet {
            board,
            wins,
            said,
            times,
        }
    }

    pub fn states(&self) -> usize
        ensures { result ≤ 512 }
    {
        self.board.states()
    }

    // Whether side 1 wins from the state.
    pub fn wins(&self, state: usize) -> bool {
        winners::is_won(&self.wins, state)
    }

    // The most moves that the plan can take until the winner has come to what it hunts for, where that is known to end.
    pub fn time(&self, state: usize) -> Option<u16> {
        follow::time_of(&self.times, state)
    }

    // The most moves that a hunt can take from a state that is marked for the winner.
    pub fn longest(&self) -> u16 {
        let plan = self.plan();
        let winners = (0..self.states()).filter(|state| plan.is_winners(*state));
        winners
            .filter_map(|state| self.time(state))
            .max()
            .unwrap_or(0)
    }

    pub fn plan(&self) -> Plan<'_> {
        Plan {
            board: &self.board,
            said: &self.said,
        }
    }

    // How many states there are of a kind.
    pub fn count<P: Fn(usize) -> bool>(&self, is_of: P) -> usize
        requires { P.IsAlwaysCallable is_of }
    {
        (0..self.states()).filter(|state| is_of(*state)).count()
    }

    pub fn starts(&self) -> usize {
        self.count(|state| self.board.is_start(state))
    }

    pub fn targets(&self) -> usize {
        self.count(|state| self.board.is_target(state))
    }

    // As many states carry the number of their own block as there are blocks.
    pub fn blocks_before(&self) -> usize {
        self.count(|state| is_number_of(state, self.board.block(state)))
    }

    pub fn blocks_after(&self) -> usize {
        self.count(|state| is_number_of(state, self.said.block(state)))
    }
}

fn is_number_of(state: usize, block: Option<BlockNo>) -> bool {
    block.map(|block| usize::from(block.0)) == Some(state)
}
