// Who wins, by the published definition of the game, which knows no blocks. The forced-step set of side 1 for a set: the states of
// side 1 with some move into it, and the states of side 2 with all moves into it.
use crate::board::Board;
use crate::settle::settle;
use crate::shape::{Objective, Side};
use game::Game;

// Which states side 1 wins from. Reach begins with no state, and adds; stay begins with all states, and takes away.
pub fn find(board: &Board) -> [bool; Game::MAX_STATES] {
    let mut wins = [false; Game::MAX_STATES];
    let row = &mut wins[..board.states()];
    row.fill(board.objective() == Objective::Stay);
    settle(row, |wins, state| renewed(board, wins, state));
    wins
}

// Reach: the state lies in the target, or in the forced-step set of those that win. Stay: in both.
fn renewed(board: &Board, wins: &[bool], state: usize) -> bool {
    match board.objective() {
        Objective::Reach => board.is_target(state) || is_forced(board, wins, state),
        Objective::Stay => board.is_target(state) && is_forced(board, wins, state),
    }
}

fn is_forced(board: &Board, wins: &[bool], state: usize) -> bool {
    let mut moves = board.moves_from(state).iter();
    match board.turn(state) {
        Side::One => moves.any(|to| is_won(wins, usize::from(to.0))),
        Side::Two => moves.all(|to| is_won(wins, usize::from(to.0))),
    }
}

pub fn is_won(wins: &[bool], state: usize) -> bool {
    matches!(wins.get(state), Some(true))
}
