// Follows the plan in the row of moves: the winner makes the moves that the plan advises, and the other side any of its moves. If the
// winner hunts, the play must come to a state that it hunts for; otherwise it must never come to one that the other side hunts for.
use crate::board::Board;
use crate::said::Said;
use crate::settle::settle;
use crate::shape::Objective;
use game::{Game, StateNo};

// The most moves that the plan can take from each state until the winner has come to what it hunts for, where that is known to end.
pub fn times(board: &Board, said: &Said) -> [Option<u16>; Game::MAX_STATES] {
    let plan = Plan { board, said };
    let mut times = [None; Game::MAX_STATES];
    settle(
        &mut times[..board.states()],
        |times, state| plan.renewed(times, state),
    );
    times
}

pub fn time_of(times: &[Option<u16>], state: usize) -> Option<u16> {
    times.get(state).copied().flatten()
}

// A game, and what the solver said of it.
#[derive(Clone, Copy)]
pub struct Plan<'a> {
    pub board: &'a Board,
    pub said: &'a Said,
}

impl Plan<'_> {
    // Whether the state is one that the hunting side wants to come to.
    pub fn is_prey(&self, state: usize) -> bool {
        self.board.is_target(state) == (self.board.objective() == Objective::Reach)
    }

    pub fn winner_hunts(&self) -> bool {
        self.said.winner() == Some(self.board.objective().hunter())
    }

    // Whether the winner has come to what it hunts for.
    pub fn is_met(&self, state: usize) -> bool {
        self.winner_hunts() && self.is_prey(state)
    }

    // Whether it is the winner's turn.
    pub fn is_winners_turn(&self, state: usize) -> bool {
        self.said.winner() == Some(self.board.turn(state))
    }

    // Whether the state is marked for the side that wins by the verdict.
    pub fn is_winners(&self, state: usize) -> bool {
        let winner = self.said.winner();
        winner.is_some() && self.said.marked_for(state) == winner
    }

    // Whether the play goes on from a state, and the plan lets it go to another to which the state has a move.
    fn is_played(&self, state: usize, to: StateNo) -> bool {
        if self.is_met(state) {
            return false;
        }
        !self.is_winners_turn(state) || self.said.advised(state) == Some(to)
    }

    // No move where the hunt has ended, and otherwise one more than after the worst move that is played.
    fn renewed(&self, times: &[Option<u16>], state: usize) -> Option<u16> {
        if self.is_met(state) {
            return Some(0);
        }
        let mut worst = None;
        for to in self.board.moves_from(state) {
            if self.is_played(state, *to) {
                let time = time_of(times, usize::from(to.0))?;
                worst = worst.max(Some(time));
            }
        }
        worst.map(|time| time.saturating_add(1))
    }

    // Whether an advised move, if there is one, is a move of its state.
    pub fn advises_a_move(&self, state: usize) -> bool {
        let advised = self.said.advised(state);
        advised.is_none_or(|to| self.board.moves_from(state).contains(&to))
    }

    // Whether the plan lets the play go from the state to one that is not marked for the winner.
    pub fn is_left(&self, state: usize) -> bool {
        let mut moves = self.board.moves_from(state).iter();
        moves.any(|to| self.is_played(state, *to) && !self.is_winners(usize::from(to.0)))
    }
}
