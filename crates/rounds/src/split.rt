// The split of a block. Counted loops and `as`: see the head of `chains`. Names of blocks are numbers in the rows that are lent,
// and so they are here; `split_block` asks for the rows it reads and no more.
ghost use Rattle.std.specs.Prelude.{◌≡◌, not, ◌&&◌, cond, ◌≤◌, ◌<◌, length, get_or, eqb};
ghost use Rattle.arena.specs.Sets.{least};
ghost use Rattle.game.specs.Limits.{max_states};
ghost use Rattle.chains.specs.Lent.{Holds};
ghost use Rattle.chains.specs.Grouped.{GatheredIn, SameMembers};
ghost use Rattle.growth.specs.Net.{hits_of};
ghost use Rattle.rounds.specs.Renamed.{enough, row_apart, after_split};
ghost use Rattle.rounds.specs.Grouped.{parted_off, Parting};

use chains::lent::{MembersMut, Moves};
use chains::relink;

// The lowest member of block b in the part that state b is not in; the number of states where there is none. It is no Option, since
// `split_block` promises that number by `named`.
fn lowest_apart(n: usize, b: usize, need: &[u16], have: &[u16], block: &[u16]) -> u16
    requires { (n ≤ max_states) × (b < n) × (n ≤ length need.now) × (n ≤ length have.now) × (n ≤ length block.now) }
    ensures { result ≡ least n (row_apart block.now b (enough need.now have.now)) }
{
    let inside = have[b] >= need[b];
    let number = b as u16;
    for s in 0..n {
        if block[s] == number && (have[s] >= need[s]) != inside {
            return s as u16;
        }
    }
    n as u16
}

// The new name for a member of block b that is not in one part together with state b, and its own block for any other state.
fn renamed(own: u16, b: u16, together: bool, name: u16) -> u16
    ensures { result ≡ cond (eqb own b && not together) name own }
{
    if own == b && !together { name } else { own }
}

// Gives this name to the part of block b that state b is not in.
fn rename_apart(n: usize, b: usize, name: u16, need: &[u16], have: &[u16], block: &mut [u16])
    requires { (n ≤ max_states) × (b < n) × (n ≤ length need.now) × (n ≤ length have.now) × (n ≤ length block.old) }
    ensures { Holds n block.new (after_split name block.old b (enough need.now have.now)) }
{
    let inside = have[b] >= need[b];
    let number = b as u16;
    for s in 0..n {
        block[s] = renamed(block[s], number, (have[s] >= need[s]) == inside, name);
    }
}

// Splits block b into the members that have what they need and the others: the part that holds state b keeps the name b,
// the other gets the name that is returned.
pub fn split_block(n: usize, b: usize, need: &[u16], have: &[u16], block: &mut [u16]) -> u16
    requires { (n ≤ max_states) × (b < n) × (n ≤ length need.now) × (n ≤ length have.now) × (n ≤ length block.old) }
    ensures named { result ≡ least n (row_apart block.old b (enough need.now have.now)) }
    ensures parted { Holds n block.new (after_split result block.old b (enough need.now have.now)) }
{
    let name = lowest_apart(n, b, need, have, block);
    rename_apart(n, b, name, need, have, block);
    name
}

// The number where the test holds, and 0 where it does not.
fn only_if(test: bool, number: u16) -> u16
    ensures { result ≡ cond test number 0 }
{
    if test { number } else { 0 }
}

// Splits block b as `split_block` does, and keeps the chains of members, the sizes and the hits of all blocks: all members
// of the one part have what they need, and none of the other.
pub fn part_block(
    moves: &Moves<'_>,
    b: usize,
    have: &[u16],
    block: &mut [u16],
    members: &mut MembersMut<'_>,
    hit: &mut [u16],
) -> u16
    requires { Parting moves.now b have.now block.old members.old hit.old }
    ensures named { result ≡ parted_off moves.now b block.old have.now }
    ensures parted { Holds moves.now.states block.new (after_split result block.old b (enough moves.now.need.now have.now)) }
    ensures gathered { GatheredIn moves.now.states block.new members.new × Holds moves.now.states hit.new (hits_of moves.now.states block.new moves.now.need.now (λ s. get_or have.now s 0)) }
    ensures same { SameMembers members.old members.new }
{
    let n = moves.states;
    let name = split_block(n, b, moves.need, have, block);
    let inside = have[b] >= moves.need[b];
    let other = name as usize;
    let one = relink(n, b, block, members.before);
    let two = relink(n, other, block, members.before);
    members.last[b] = one.last;
    members.last[other] = two.last;
    members.size[b] = one.size;
    members.size[other] = two.size;
    hit[b] = only_if(inside, one.size);
    hit[other] = only_if(!inside, two.size);
    name
}
