// How a run comes out: its splits, the blocks of its last round, and the rows of that round.
#![tactic(auto)]

ghost use Rattle.std.specs.Prelude.{◌≤◌, length};
ghost use Rattle.game.specs.declared.Game.{Game};
ghost use Rattle.chains.specs.Grouped.{Roomy, SameMembers};
ghost use Rattle.growth.specs.Grouped.{Spacious, SameGrowth};
ghost use Rattle.runs.specs.Hunting.{upper_states};
ghost use Rattle.rows.specs.RoundRows.{Saying, Numbered};
ghost use Rattle.rows.specs.Grouped.{PresentOn, LoweredOn, FinishingOn, FinalOn};

use chains::copy_row;
use chains::lent::{Board, MembersMut};
use game::Game;
use growth::Growth;
use play::{last_round, play_rounds};
use rows::sets;
use rows::sets::Row;
use runs::log::SplitLogMut;

// How a run came out: the splits, and the rows of its last round: the pass in which each state entered what the hunting
// side surely brings about, and what it may.
#[derive(Clone, Copy)]
pub struct Ran {
    pub splits: u16,
    pub lower: Row,
    pub upper: Row,
}

// The passes of the last round: they are there where no split was made, and are worked out from nothing otherwise.
fn last_lower(
    board: &Board<'_>,
    made: usize,
    block: &[u16],
    members: &mut MembersMut<'_>,
    growth: &mut Growth<'_>,
    lower: &mut [u16],
)
    requires finishing { FinishingOn board.now made block.now members.old growth.old lower.old }
    requires room { Roomy board.now.moves.states members.old × Spacious board.now.moves.states growth.old × (board.now.moves.states ≤ length lower.old) }
    ensures lowered { (f : FinishingOn board.now made block.now members.old growth.old lower.old) → LoweredOn f.game board.now.moves block.now members.new growth.new lower.new × Numbered f.game board.now.moves.states lower.new }
    ensures same { SameMembers members.old members.new × SameGrowth growth.old growth.new }
{
    if made > 0 {
        copy_row(board.moves.states, board.prey, lower);
        sets::grow_anew(&board.moves, true, block, members, growth, lower);
    }
}

// The rows of the last round: leaves the passes in the lower row, and gives what the hunting side may bring about.
fn last_rows(
    board: &Board<'_>,
    made: usize,
    block: &[u16],
    members: &mut MembersMut<'_>,
    growth: &mut Growth<'_>,
    lower: &mut [u16],
) -> Row
    requires finishing { FinishingOn board.now made block.now members.old growth.old lower.old }
    requires room { Roomy board.now.moves.states members.old × Spacious board.now.moves.states growth.old × (board.now.moves.states ≤ length lower.old) }
    ensures last { (f : FinishingOn board.now made block.now members.old growth.old lower.old) → Numbered f.game board.now.moves.states lower.new × Saying board.now.moves.states result (upper_states f.game) }
    ensures same { SameMembers members.old members.new × SameGrowth growth.old growth.new }
{
    last_lower(board, made, block, members, growth, lower);
    let have = &mut *growth.have;
    let hit = &mut *growth.hit;
    let queue = &mut *growth.queue;
    sets::upper_row(
        &board.moves,
        block,
        &members.shared(),
        have,
        hit,
        lower,
        queue,
        growth.tail,
    )
}

// Rounds until one is settled or the splits made equal the allowance. The blocks of the last round take the place of those
// of the first.
pub fn run_rounds(board: &Board<'_>, allowance: u16, block: &mut [u16]) -> Ran
    requires { (g : Game) × PresentOn g board.now block.old }
    ensures { (g : Game) → PresentOn g board.now block.old → FinalOn g board.now allowance block.new result.splits result.lower result.upper }
{
    let mut last = [0u16; Game::MAX_STATES];
    let mut before = [0u16; Game::MAX_STATES];
    let mut size = [0u16; Game::MAX_STATES];
    let mut have = [0u16; Game::MAX_STATES];
    let mut hit = [0u16; Game::MAX_STATES];
    let mut queue = [0u16; Game::MAX_STATES];
    let mut parents = [0u16; Game::MAX_STATES];
    let mut names = [0u16; Game::MAX_STATES];
    let mut lower = [0u16; Game::MAX_STATES];
    let mut members = MembersMut {
        last: &mut last,
        before: &mut before,
        size: &mut size,
    };
    let mut growth = Growth {
        have: &mut have,
        hit: &mut hit,
        queue: &mut queue,
        tail: 0,
    };
    let mut log = SplitLogMut {
        parents: &mut parents,
        names: &mut names,
        made: 0,
    };
    copy_row(board.moves.states, board.prey, &mut lower);
    sets::grow_anew(
        &board.moves,
        true,
        block,
        &mut members,
        &mut growth,
        &mut lower,
    );
    let allowed = allowance as usize;
    let stop = play_rounds(
        board,
        allowed,
        block,
        &mut members,
        &mut growth,
        &mut lower,
        &mut log,
    );
    let splits = last_round(board, allowed, stop, &log.shared(), block);
    let upper = last_rows(
        board,
        log.made,
        block,
        &mut members,
        &mut growth,
        &mut lower,
    );
    Ran {
        splits: splits as u16,
        lower,
        upper,
    }
}
