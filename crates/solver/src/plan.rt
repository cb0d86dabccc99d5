// The winner's plan, by one walk over the moves.
ghost use Rattle.std.specs.Prelude.{◌≡◌, ◌&&◌, get_or, T, ℕ, ◌<◌};
ghost use Rattle.game.specs.Limits.{max_states};
ghost use Rattle.game.specs.Rows.{Cells};
ghost use Rattle.game.specs.Game.{known_turn};
ghost use Rattle.game.specs.Published.{side_of};
ghost use Rattle.game.specs.declared.Game.{Game};
ghost use Rattle.runs.specs.Run.{word};
ghost use Rattle.solver.specs.Rules.{planned};
ghost use Rattle.solver.specs.Solve.{decision_of};
ghost use Rattle.solver.specs.Work.{good_move, lower_of, winner_rule};
ghost use Rattle.solver.specs.Grouped.{WalkOn, good_on, PlanningOn};

use crate::Decision;
use chains::lent::Board;
use game::Game;
use rows::sets::Row;

// No move, as callers read it in the row that is handed back: a row of numbers, for C too.
pub const NONE: u16 = 65535;

// A move that the plan may show: one who hunts goes to an earlier pass, one who flees stays outside.
#[tactic(auto, unfolding(crate::specs::Work::good_move))]
fn is_good(chase: bool, own: u16, next: u16) -> bool
    ensures { result ≡ good_move chase own next }
{
    if chase {
        next != 0 && next < own
    } else {
        own == 0 && next == 0
    }
}

// The lower of the best move so far and this one, where this one is to be taken.
#[tactic(auto, unfolding(crate::specs::Work::lower_of))]
fn better(best: u16, to: u16, mine: bool, good: bool) -> u16
    ensures { result ≡ lower_of best to (mine && good) }
{
    if mine && good { best.min(to) } else { best }
}

// For each state of the winner its lowest-numbered good move by a row of passes, or none. The winner is a turn of the
// file, which the row of turns is held against as it stands. No plainer as a zip of `from` and `to`: both would be cut at
// the number of moves first, and each index would ask which pair of moves it is read from.
fn advice_row(board: &Board<'_>, winner: u8, chase: bool, row: &[u16]) -> Row
    requires { (n : ℕ) × WalkOn n board.now row.now }
    ensures { Cells max_states result (good_on board.now winner chase row.now board.now.moves.moves) }
{
    let mut out = [NONE; Game::MAX_STATES];
    for k in 0..board.moves.moves {
        let f = usize::from(board.moves.from[k]);
        let next = board.moves.to[k];
        let t = usize::from(next);
        out[f] = better(
            out[f],
            next,
            board.turn[f] == winner,
            is_good(chase, row[f], row[t]),
        );
    }
    out
}

// The plan of the side that wins: if it hunts, it chases; otherwise it flees.
fn winner_row(board: &Board<'_>, lower: &[u16], upper: &[u16], winner: u8) -> Row
    requires planning { (g : Game) × PlanningOn g board.now lower.now upper.now }
    requires known { T (known_turn winner) }
    ensures { (g : Game) → PlanningOn g board.now lower.now upper.now → (s : ℕ) → s < g.states → get_or result s 0 ≡ winner_rule g (side_of winner) s }
{
    if board.side == winner {
        advice_row(board, winner, true, lower)
    } else {
        advice_row(board, winner, false, upper)
    }
}

// The moves row of a round: an open one has no plan.
pub fn plan_row(board: &Board<'_>, lower: &[u16], upper: &[u16], decision: Decision) -> Row
    requires { (g : Game) × PlanningOn g board.now lower.now upper.now }
    ensures { (g : Game) → PlanningOn g board.now lower.now upper.now → decision ≡ decision_of (word g) g → (s : ℕ) → s < g.states → get_or result s 0 ≡ planned (word g) g s }
{
    match decision {
        Decision::Yes(_) => winner_row(board, lower, upper, 1),
        Decision::No => winner_row(board, lower, upper, 2),
        Decision::Open => [NONE; Game::MAX_STATES],
    }
}
