// When a block is ripe: all its members have as many moves into the set as they need, or one has. Counted loops and `as`: see
// the head of `chains`.
ghost use Rattle.std.specs.Prelude.{◌≡◌, cond, ◌&&◌, ℕ, ◌≤◌, length, get_or, leb};
ghost use Rattle.game.specs.Limits.{max_states};
ghost use Rattle.chains.specs.Lent.{Holds, Keys};
ghost use Rattle.chains.specs.Grouped.{MembersOf};
ghost use Rattle.growth.specs.Net.{hits_of, ripe_by};
ghost use Rattle.growth.specs.Grouped.{SameGrowth};
ghost use Rattle.growth.specs.Steps.{ListedIn, JoinedBy};

use crate::Growth;
use crate::enter::join_block;
use chains::lent::Members;

// How many members of each block have the moves that they need. It takes two rows of the growth, one to be read.
pub fn count_hits(n: usize, block: &[u16], need: &[u16], have: &[u16], hit: &mut [u16])
    requires { (n ≤ max_states) × Keys n n block.now × (n ≤ length need.now) × (n ≤ length have.now) × Holds n hit.old (λ _. 0) }
    ensures { Holds n hit.new (hits_of n block.now need.now (λ s. get_or have.now s 0)) }
{
    for s in 0..n {
        if have[s] >= need[s] {
            hit[block[s] as usize] += 1;
        }
    }
}

// How many members of a block must have what they need: all, or one.
pub fn enough(whole: bool, size: u16) -> u16
    ensures { result ≡ cond whole size 1 }
{
    if whole { size } else { 1 }
}

// Enough members of a block have what they need, and one at least.
fn is_ripe(whole: bool, size: u16, hit: u16) -> bool
    ensures { result ≡ (leb 1 hit && leb (cond whole size 1) hit) }
{
    1 <= hit && enough(whole, size) <= hit
}

// Every ripe block joins with the number 2.
pub fn join_ripe(
    n: usize,
    whole: bool,
    block: &[u16],
    members: &Members<'_>,
    growth: &mut Growth<'_>,
    row: &mut [u16],
)
    requires { (n ≤ max_states) × Keys n n block.now × MembersOf n block.now members.now × (n ≤ length growth.old.hit.now) × (n ≤ length row.old) × ListedIn n growth.old row.old }
    ensures joined { JoinedBy n (λ s. ripe_by whole members.now.size.now growth.old.hit.now (get_or block.now s 0)) 2 growth.old row.old growth.new row.new }
    ensures same { SameGrowth growth.old growth.new }
{
    let size = &*members.size;
    let hit = &mut *growth.hit;
    let queue = &mut *growth.queue;
    let mut tail = growth.tail;
    for b in 0..n {
        if is_ripe(whole, size[b], hit[b]) {
            tail = join_block(n, b, 2, block, members, row, queue, tail);
        }
    }
    growth.tail = tail;
}
