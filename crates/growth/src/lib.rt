// Growth of a set of states by a queue: each state that enters is handled once, and handling it looks once at each move
// into it. A set grows by blocks, wholly inside the hunting side's forced-step set of it or meeting that set. All rows are
// lent as plain numbers: state numbers by move, and block numbers by state.
#![tactic(auto)]

mod enter;
mod passes;
mod ripe;

ghost use Rattle.std.specs.Prelude.{◌≡◌, true, ℕ, ◌≤◌, ◌<◌, length, get_or, eqb};
ghost use Rattle.game.specs.declared.Game.{Game};
ghost use Rattle.growth.specs.Stamp.{pass_at, stamp_from, joining};
ghost use Rattle.chains.specs.Lent.{Holds};
ghost use Rattle.chains.specs.Grouped.{MovesOf, Chained, MembersOf};
ghost use Rattle.growth.specs.Grouped.{net_of, CountedIn, GrownBy, RegrowingBy, SameGrowth};

use chains::clear;
use chains::lent::{Members, Moves};
use enter::join_block;
pub use enter::list_states;
use passes::run_passes;
use ripe::{count_hits, join_ripe};

// A set that grows: how many moves into it each state has, how many members of each block have as many as they need, and the
// queue of its states in the order in which they entered, with its end.
#[derive(Drop)]
pub struct Growth<'a> {
    pub have: &'a mut [u16],
    pub hit: &'a mut [u16],
    pub queue: &'a mut [u16],
    pub tail: usize,
}

// Grows the row's set over the present blocks until a pass adds nothing, by whole blocks or by blocks that meet. The queue
// lists the set, and the moves into its first `handled` states are counted. `whole` is a truth value, since the contract's
// `net_of` and `joining` read it so. `grow_on` is no twin: it begins from one block, and counts nothing anew.
#[inline(always)]
pub fn grow(
    moves: &Moves<'_>,
    whole: bool,
    handled: usize,
    block: &[u16],
    members: &Members<'_>,
    growth: &mut Growth<'_>,
    row: &mut [u16],
)
    requires lent { (g : Game) × (side : ℕ) × MovesOf g side moves.now block.now }
    requires linked { Chained moves.now × MembersOf moves.now.states block.now members.now × (moves.now.states ≤ length growth.old.hit.now) × CountedIn moves.now handled growth.old row.old }
    ensures grown { GrownBy (net_of moves.now whole block.now members.now) growth.new row.new }
    ensures stamped { (g : Game) (side : ℕ) → MovesOf g side moves.now block.now → Holds moves.now.states row.new (stamp_from (joining g side whole) (pass_at row.old) moves.now.states) }
    ensures same { SameGrowth growth.old growth.new }
{
    let entered = growth.tail;
    let have = &mut *growth.have;
    let hit = &mut *growth.hit;
    clear(moves.states, hit);
    count_hits(moves.states, block, moves.need, have, hit);
    join_ripe(moves.states, whole, block, members, growth, row);
    run_passes(moves, whole, handled, entered, block, members, growth, row);
}

// Grows a set on that had grown by whole blocks before one of them was split: block b, whose members all have what they
// need, is the only one that is ripe and outside.
pub fn grow_on(
    moves: &Moves<'_>,
    b: usize,
    block: &[u16],
    members: &Members<'_>,
    growth: &mut Growth<'_>,
    row: &mut [u16],
)
    requires lent { (g : Game) × (side : ℕ) × MovesOf g side moves.now block.now }
    requires linked { Chained moves.now × MembersOf moves.now.states block.now members.now × (b < moves.now.states) × RegrowingBy (net_of moves.now true block.now members.now) (λ s. eqb b (get_or block.now s 0)) growth.old row.old }
    ensures grown { GrownBy (net_of moves.now true block.now members.now) growth.new row.new }
    ensures stamped { (g : Game) (side : ℕ) → MovesOf g side moves.now block.now → Holds moves.now.states row.new (stamp_from (joining g side true) (pass_at row.old) moves.now.states) }
    ensures same { SameGrowth growth.old growth.new }
{
    let entered = growth.tail;
    growth.tail = join_block(
        moves.states,
        b,
        2,
        block,
        members,
        row,
        growth.queue,
        entered,
    );
    run_passes(moves, true, entered, entered, block, members, growth, row);
}
