// The solver: a run over the game of a file, and what is handed back when it is over.
#![tactic(auto)]

ghost use Rattle.std.specs.Prelude.{◌≡◌, ◌≤◌, length};
ghost use Rattle.game.specs.Limits.{max_states};
ghost use Rattle.game.specs.declared.Game.{Game};
ghost use Rattle.runs.specs.Run.{lowest_first, run};
ghost use Rattle.solver.specs.Solve.{said, run_of, solved};
ghost use Rattle.solver.specs.Work.{decision_by, HandedBack};
ghost use Rattle.solver.specs.Grouped.{FinishedOn, SameRows, rows_of};
ghost use Rattle.rows.specs.Grouped.{PresentOn};
ghost use Rattle.file.specs.Refusals.{refusal};
ghost use Rattle.decoding.specs.Decode.{game_of};

use chains::copy_row;
use chains::lent::{Board, Moves};
use file::{Refusal, first_refusal, number_at};
use game::{Game, StateNo};
use lent::Rows;
use outcome::Ran;

mod lent;
mod plan;
mod written;

// A place for each state, and one for the end of the last state's moves.
const ENDS: usize = Game::MAX_STATES + 1;

// What the solver says of a game: YES with the named start and the splits made, NO or OPEN with the splits. There are three
// words, so that no Option or Result says them.
#[derive(Clone, Copy, Debug, PartialEq, Eq, Hash)]
pub enum Verdict {
    Yes(StateNo, u16),
    No(u16),
    Open(u16),
}

// What a round says of its game: the word alone, before its splits are counted. It is a twin of `Verdict`, which can't be
// a word and its splits: README and docs/DECISIONS.md name `Verdict::Yes(start, splits)`, and `said`, `IsYes` and the table
// of `cases` read it so.
#[derive(Clone, Copy, Debug, PartialEq, Eq, Hash)]
pub enum Decision {
    Yes(StateNo),
    No,
    Open,
}

// No initial state possible, NO; some initial state sure, YES, with the lowest-numbered one; otherwise open as yet.
fn decide(n: usize, starts: &[u8], marks: &[u16]) -> Decision
    requires { (n ≤ max_states) × (n ≤ length starts.now) × (n ≤ length marks.now) }
    ensures { result ≡ decision_by n starts.now marks.now }
{
    if written::lowest_start(n, starts, marks, 1).is_none() {
        return Decision::No;
    }
    match written::lowest_start(n, starts, marks, 2) {
        Some(named) => Decision::Yes(named),
        None => Decision::Open,
    }
}

// The verdict of a decision after so many splits.
fn spoken(decision: Decision, splits: u16) -> Verdict
    ensures { result ≡ said decision splits }
{
    match decision {
        Decision::Yes(named) => Verdict::Yes(named, splits),
        Decision::No => Verdict::No(splits),
        Decision::Open => Verdict::Open(splits),
    }
}

// The verdict of a run that is over, by the rows of its last round; the marks, the blocks and the plan are written into
// the three rows, one place per state. The rest keep their content.
fn hand_back(board: &Board<'_>, ran: &Ran, block: &[u16], rows: &mut Rows<'_>) -> Verdict
    requires { (g : Game) × FinishedOn g board.now block.now ran.now.lower ran.now.upper }
    ensures back { (g : Game) → FinishedOn g board.now block.now ran.now.lower ran.now.upper → HandedBack (record { splits = ran.now.splits; last = g }) (rows_of rows.old) result (rows_of rows.new) }
    ensures same { SameRows rows.old rows.new }
{
    let n = board.moves.states;
    let worked = written::mark_row(n, board.objective, &ran.lower, &ran.upper);
    let decision = decide(n, board.starts, &worked);
    let plan = plan::plan_row(board, &ran.lower, &ran.upper, decision);
    copy_row(n, &worked, rows.marks);
    copy_row(n, block, rows.blocks);
    copy_row(n, &plan, rows.moves);
    spoken(decision, ran.splits)
}

// Plays the run of a game whose rows are lent, and hands back what came of it.
fn run_and_hand_back(
    board: &Board<'_>,
    allowance: u16,
    block: &mut [u16],
    rows: &mut Rows<'_>,
) -> Verdict
    requires { (g : Game) × PresentOn g board.now block.old }
    ensures back { (g : Game) → PresentOn g board.now block.old → HandedBack (run lowest_first allowance g) (rows_of rows.old) result (rows_of rows.new) }
    ensures same { SameRows rows.old rows.new }
{
    let ran = outcome::run_rounds(board, allowance, block);
    hand_back(board, &ran, block, rows)
}

// Solves the game of an accepted file, and writes the three rows. The records are read into rows of plain numbers here,
// once: the moves into each state are linked, and where each state's moves begin and how many it needs is worked out. The
// rows are lent to all that follows.
fn solve_game(file: &[u8], allowance: u16, rows: &mut Rows<'_>) -> Verdict
    requires { refusal file.now ≡ 0 }
    ensures back { HandedBack (run_of file.now allowance) (rows_of rows.old) result (rows_of rows.new) }
    ensures same { SameRows rows.old rows.new }
{
    let n = usize::from(number_at(file, 4));
    let m = usize::from(number_at(file, 6));
    let objective = number_at(file, 8);
    let side = rounds::hunting_side(objective);
    let mut turn = [0u8; Game::MAX_STATES];
    let mut starts = [0u8; Game::MAX_STATES];
    let mut block = [0u16; Game::MAX_STATES];
    let mut from = [0u16; Game::MAX_MOVES];
    let mut to = [0u16; Game::MAX_MOVES];
    let mut last = [0u16; Game::MAX_STATES];
    let mut before = [0u16; Game::MAX_MOVES];
    let mut need = [0u16; Game::MAX_STATES];
    let mut first = [0u16; ENDS];
    decoding::plain::plain_states(file, n, &mut turn, &mut starts, &mut block);
    decoding::plain::plain_moves(file, n, m, &mut from, &mut to);
    let prey = rounds::prey_row(n, objective, starts);
    chains::link(n, m, &to, &mut last, &mut before);
    chains::count_keys(n, m, &from, &mut need);
    chains::need_row(n, &turn, side, &mut need);
    rounds::first_moves(n, m, &from, &mut first);
    let all_moves = Moves {
        states: n,
        moves: m,
        from: &from,
        to: &to,
        last: &last,
        before: &before,
        need: &need,
    };
    let board = Board {
        objective,
        side,
        turn: &turn,
        starts: &starts,
        prey: &prey,
        first: &first,
        moves: all_moves,
    };
    run_and_hand_back(&board, allowance, &mut block, rows)
}

// Solves the game of a file with at most `allowance` splits, and writes the three rows: marks, blocks and moves, one
// place per state; the rest keep their content. A refusal leaves all rows as they were. The rows are lent one by one, as C
// lends them.
pub fn solve(
    file: &[u8],
    allowance: u16,
    marks: &mut [u16],
    blocks: &mut [u16],
    moves: &mut [u16],
) -> Result<Verdict, Refusal>
    ensures { record { answer = result; rows = record { marks = marks.new; blocks = blocks.new; moves = moves.new } } ≡ solved file.now allowance (record { marks = marks.old; blocks = blocks.old; moves = moves.old }) }
{
    if marks.len() < Game::MAX_STATES
        || blocks.len() < Game::MAX_STATES
        || moves.len() < Game::MAX_STATES
    {
        return Err(Refusal::ShortRow);
    }
    first_refusal(file)?;
    let mut rows = Rows {
        marks,
        blocks,
        moves,
    };
    Ok(solve_game(file, allowance, &mut rows))
}
