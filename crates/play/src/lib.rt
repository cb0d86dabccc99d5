// The rounds of a run, played until one is settled or the allowance of splits is used up.
#![tactic(auto)]

ghost use Rattle.std.specs.Prelude.{◌≡◌, ◌||◌, ◌≤◌, length, eqb};
ghost use Rattle.game.specs.Limits.{max_states};
ghost use Rattle.game.specs.Game.{block_at};
ghost use Rattle.chains.specs.Lent.{Holds};
ghost use Rattle.chains.specs.Grouped.{SameMembers};
ghost use Rattle.growth.specs.Grouped.{SameGrowth};
ghost use Rattle.runs.specs.Grouped.{SameLog};
ghost use Rattle.runs.specs.Run.{lowest_first, run, round};
ghost use Rattle.rows.specs.RoundRows.{Saying, Stopped};
ghost use Rattle.rows.specs.Grouped.{BegunOn, PlayedOn, EndingOn, UnderwayOn};
ghost use Rattle.game.specs.declared.Game.{Game};
ghost use Rattle.runs.specs.Hunting.{upper_states};
ghost use Rattle.rounds.specs.Border.{bordering, border_answer};
ghost use Rattle.rounds.specs.Grouped.{SearchIn};
ghost use Rattle.play.specs.Found.{nothing_found, found_block};

use chains::lent::{Board, MembersMut, Moves};
use game::BlockNo;
use growth::Growth;
use rounds::border_block;
use rows::{retrace, sets, splits};
use runs::log::{SplitLog, SplitLogMut};
use runs::starts;

// Whether the round in which the rounds stopped is lost for the hunting side, and how many of the first rounds are known not to be.
// `clear` is no part of `lost`: `play_rounds` promises of it in both cases.
#[derive(Clone, Copy)]
pub struct Stop {
    pub lost: bool,
    pub clear: usize,
}

// No further split is to be made: there is no border block, or the splits made equal the allowance.
fn is_over(found: Option<BlockNo>, made: usize, allowance: usize) -> bool
    ensures { result ≡ (nothing_found found || eqb made allowance) }
{
    found.is_none() || made == allowance
}

// The number of the block that was found, as the rows have it. That and the tests below have names, and `b` a number for every
// outcome: one `match` in the loop would end in two arms, each of which looks at upper.
fn block_number(found: Option<BlockNo>) -> usize
    ensures { result ≡ found_block found }
{
    match found {
        Some(block) => block.0 as usize,
        None => 0,
    }
}

// What the hunting side may bring about is to be worked out in this round: it is the last, or its turn has come.
fn is_due(over: bool, made: usize, due: usize) -> bool
    ensures { result ≡ (over || eqb made due) }
{
    over || made == due
}

// The rounds stop here: no further split is to be made, or the round is lost for the hunting side.
fn is_last(over: bool, lost: bool) -> bool
    ensures { result ≡ (over || lost) }
{
    over || lost
}

// The border block of the round at hand, if there is one.
fn searched(
    board: &Board<'_>,
    block: &[u16],
    members: &MembersMut<'_>,
    growth: &Growth<'_>,
    lower: &[u16],
) -> Option<BlockNo>
    requires { ((g : Game) × SearchIn g board.now block.now members.now growth.now lower.now) × (board.now.moves.states ≤ length lower.now) × (board.now.moves.states ≤ length growth.now.hit.now) }
    ensures { (g : Game) → SearchIn g board.now block.now members.now growth.now lower.now → result ≡ border_answer board.now.moves.states (bordering g board.now.side lower.now) }
{
    border_block(board, block, &members.shared(), growth.hit, lower)
}

// What the hunting side may bring about in the round at hand.
fn grown_on(
    moves: &Moves<'_>,
    block: &[u16],
    members: &MembersMut<'_>,
    growth: &Growth<'_>,
    lower: &[u16],
) -> sets::Row
    requires { UnderwayOn moves.now block.now members.now growth.now lower.now }
    ensures { (u : UnderwayOn moves.now block.now members.now growth.now lower.now) → Saying moves.now.states result (upper_states u.game) }
{
    sets::upper_row(
        moves,
        block,
        &members.shared(),
        growth.have,
        growth.hit,
        lower,
        growth.queue,
        growth.tail,
    )
}

// Rounds from the first one on, which is worked out, until the hunting side surely has its way, or may no longer, or no
// further split is to be made. Whether it may is looked at after 0, 1, 3, 7 splits and so on, and at the end.
pub fn play_rounds(
    board: &Board<'_>,
    allowance: usize,
    block: &mut [u16],
    members: &mut MembersMut<'_>,
    growth: &mut Growth<'_>,
    lower: &mut [u16],
    log: &mut SplitLogMut<'_>,
) -> Stop
    requires begun { BegunOn board.now block.old members.old growth.old lower.old }
    requires room { (max_states ≤ length log.old.parents.now) × (max_states ≤ length log.old.names.now) }
    ensures played { (v : BegunOn board.now block.old members.old growth.old lower.old) → PlayedOn v.game board.now block.new members.new growth.new lower.new log.new result.clear × Stopped v.game allowance lower.old lower.new result.lost log.new.made result.clear }
    ensures same { SameMembers members.old members.new × SameGrowth growth.old growth.new × SameLog log.old log.new }
{
    let n = board.moves.states;
    log.made = 0;
    let mut due: usize = 0;
    let mut clear: usize = 0;
    // Until a round is settled: which one is, is known when it comes. The label names the loop in its proof.
    'rounds: loop {
        if starts::has_way(n, board.objective, board.starts, lower) {
            return Stop { lost: false, clear };
        }
        let found = searched(board, block, members, growth, lower);
        let over = is_over(found, log.made, allowance);
        if is_due(over, log.made, due) {
            let upper = grown_on(&board.moves, block, members, growth, lower);
            let lost = !starts::has_way(n, board.objective, board.starts, &upper);
            if is_last(over, lost) {
                return Stop { lost, clear };
            }
            due = 2 * log.made + 1;
            clear = log.made + 1;
        }
        let b = block_number(found);
        let name = splits::split_round(&board.moves, b, block, members, growth, lower);
        log.note(b as u16, name);
    }
}

// The splits of a run that has stopped, and the blocks of its last round: an earlier one, if that was lost already for the
// hunting side.
pub fn last_round(
    board: &Board<'_>,
    allowance: usize,
    stop: Stop,
    log: &SplitLog<'_>,
    block: &mut [u16],
) -> usize
    requires { EndingOn board.now allowance stop.clear stop.lost log.now block.old }
    ensures { ((e : EndingOn board.now allowance stop.clear stop.lost log.now block.old) → (run lowest_first allowance e.game ≡ record { splits = result; last = round lowest_first result e.game }) × Holds board.now.moves.states block.new (block_at (round lowest_first result e.game))) × (result ≤ log.now.made) × (log.now.made ≡ 0 → block.new ≡ block.old) }
{
    if stop.lost {
        return retrace::first_lost(board, stop.clear, log, block);
    }
    log.made
}
