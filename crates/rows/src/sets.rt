// What the hunting side surely brings about over the present blocks, and what it may.
ghost use Rattle.std.specs.Prelude.{◌≡◌, List, ℕ, ◌≤◌, length, get_or};
ghost use Rattle.game.specs.Limits.{max_states};
ghost use Rattle.game.specs.declared.Game.{Game};
ghost use Rattle.growth.specs.Stamp.{pass_at, stamp_from, joining};
ghost use Rattle.growth.specs.Grouped.{net_in, GrownBy, Spacious, SameGrowth};
ghost use Rattle.chains.specs.Lent.{Holds};
ghost use Rattle.chains.specs.Grouped.{MovesOf, Chained, GatheredIn, Roomy, SameMembers};
ghost use Rattle.runs.specs.Hunting.{upper_states, catchable};
ghost use Rattle.rows.specs.RoundRows.{Saying};
ghost use Rattle.rows.specs.Grouped.{PresentBy, UnderwayBy};

use chains::lent::{Board, Members, MembersMut, Moves};
use chains::{clear, copy_row, gather};
use game::Game;
use growth::{Growth, grow, list_states};
pub use rounds::PassRow as Row;
use runs::starts;

// Links the members of the present blocks, and grows the row's set from nothing. Inlined, as `grow` is.
#[inline(always)]
pub fn grow_anew(
    moves: &Moves<'_>,
    whole: bool,
    block: &[u16],
    members: &mut MembersMut<'_>,
    growth: &mut Growth<'_>,
    row: &mut [u16],
)
    requires lent { (g : Game) × (side : ℕ) × MovesOf g side moves.now block.now }
    requires linked { Chained moves.now × Roomy moves.now.states members.old × Spacious moves.now.states growth.old × (moves.now.states ≤ length row.old) }
    ensures gathered { GatheredIn moves.now.states block.now members.new × GrownBy (net_in moves.now whole block.now members.new) growth.new row.new }
    ensures stamped { (g : Game) (side : ℕ) → MovesOf g side moves.now block.now → Holds moves.now.states row.new (stamp_from (joining g side whole) (pass_at row.old) moves.now.states) }
    ensures same { SameMembers members.old members.new × SameGrowth growth.old growth.new }
{
    gather(moves.states, block, members);
    clear(moves.states, growth.have);
    growth.tail = list_states(moves.states, row, growth.queue);
    grow(moves, whole, 0, block, &members.shared(), growth, row);
}

// What the hunting side may bring about grows on from what it surely does. The rows of the growth are only read here, so that
// they are lent one by one.
pub fn upper_row(
    moves: &Moves<'_>,
    block: &[u16],
    members: &Members<'_>,
    have: &[u16],
    hit: &[u16],
    lower: &[u16],
    queue: &[u16],
    tail: usize,
) -> Row
    requires { UnderwayBy moves.now block.now members.now have.now hit.now lower.now queue.now tail }
    ensures { (u : UnderwayBy moves.now block.now members.now have.now hit.now lower.now queue.now tail) → Saying moves.now.states result (upper_states u.game) }
{
    let mut counts = [0u16; Game::MAX_STATES];
    let mut hits = [0u16; Game::MAX_STATES];
    let mut row = [0u16; Game::MAX_STATES];
    let mut listed = [0u16; Game::MAX_STATES];
    copy_row(moves.states, have, &mut counts);
    copy_row(moves.states, lower, &mut row);
    copy_row(moves.states, queue, &mut listed);
    let mut further = Growth {
        have: &mut counts,
        hit: &mut hits,
        queue: &mut listed,
        tail,
    };
    grow(moves, false, tail, block, members, &mut further, &mut row);
    row
}

// Whether the hunting side may have its way over these blocks, worked out from nothing. Here as in `run_rounds` the rows are
// arrays, lent in structs: nothing is allocated, and a function cannot give back arrays together with what borrows them.
pub fn may_have_way(board: &Board<'_>, block: &[u16]) -> bool
    requires { (g : Game) × (side : ℕ) × (turn : List ℕ) × (first : List ℕ) × PresentBy g side turn first board.now block.now }
    ensures { (g : Game) (side : ℕ) (turn first : List ℕ) → PresentBy g side turn first board.now block.now → result ≡ catchable g }
{
    let mut last = [0u16; Game::MAX_STATES];
    let mut before = [0u16; Game::MAX_STATES];
    let mut size = [0u16; Game::MAX_STATES];
    let mut have = [0u16; Game::MAX_STATES];
    let mut hit = [0u16; Game::MAX_STATES];
    let mut queue = [0u16; Game::MAX_STATES];
    let mut row = [0u16; Game::MAX_STATES];
    let mut members = MembersMut {
        last: &mut last,
        before: &mut before,
        size: &mut size,
    };
    let mut growth = Growth {
        have: &mut have,
        hit: &mut hit,
        queue: &mut queue,
        tail: 0,
    };
    copy_row(board.moves.states, board.prey, &mut row);
    grow_anew(
        &board.moves,
        false,
        block,
        &mut members,
        &mut growth,
        &mut row,
    );
    starts::has_way(board.moves.states, board.objective, board.starts, &row)
}
