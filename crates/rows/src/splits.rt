// The split of the border block, from one round to the next.
ghost use Rattle.std.specs.Prelude.{◌≡◌, cond};
ghost use Rattle.game.specs.Game.{block_at};
ghost use Rattle.chains.specs.Lent.{Holds};
ghost use Rattle.chains.specs.Grouped.{SameMembers};
ghost use Rattle.growth.specs.Grouped.{SameGrowth};
ghost use Rattle.rounds.specs.Grouped.{parted_off};
ghost use Rattle.runs.specs.Run.{lowest_first, split_game};
ghost use Rattle.rows.specs.RoundRows.{Next};
ghost use Rattle.rows.specs.Grouped.{LoweredOn, UnderwayOn};

use chains::lent::{MembersMut, Moves};
use growth::{Growth, grow_on};
use rounds::part_block;

// The part that has what it needs: the one that keeps the name, or the new one.
fn inner_part(inside: bool, b: usize, name: usize) -> usize
    ensures { result ≡ cond inside b name }
{
    if inside { b } else { name }
}

// Splits the border block b, and lets what the hunting side surely brings about grow on over the new blocks. The name of the new block.
pub fn split_round(
    moves: &Moves<'_>,
    b: usize,
    block: &mut [u16],
    members: &mut MembersMut<'_>,
    growth: &mut Growth<'_>,
    lower: &mut [u16],
) -> u16
    requires { (u : UnderwayOn moves.now block.old members.old growth.old lower.old) × Next u.game moves.now.states block.old b }
    ensures named { result ≡ parted_off moves.now b block.old growth.old.have.now }
    ensures split { (u : UnderwayOn moves.now block.old members.old growth.old lower.old) → Next u.game moves.now.states block.old b → Holds moves.now.states block.new (block_at (split_game lowest_first u.game)) × LoweredOn (split_game lowest_first u.game) moves.now block.new members.new growth.new lower.new }
    ensures same { SameMembers members.old members.new × SameGrowth growth.old growth.new }
{
    let inside = growth.have[b] >= moves.need[b];
    let have = &mut *growth.have;
    let name = part_block(moves, b, have, block, members, growth.hit);
    let inner = inner_part(inside, b, name as usize);
    grow_on(moves, inner, block, &members.shared(), growth, lower);
    name
}
