// The passes over the queue, and the walk over the moves into each of its states. Moves, members, the growing set and its row
// are four things: block and row stand apart from the structs, since blocks are split and rows kept by others.
ghost use Rattle.std.specs.Prelude.{ℕ, ◌+◌, ◌≤◌, ◌<◌};
ghost use Rattle.growth.specs.Stamp.{pass_at};
ghost use Rattle.chains.specs.Lent.{Holds};
ghost use Rattle.chains.specs.Grouped.{Chained};
ghost use Rattle.growth.specs.Net.{Sound, pass_of};
ghost use Rattle.growth.specs.Queue.{Alike};
ghost use Rattle.growth.specs.Grouped.{net_of, GrownBy, SameGrowth};
ghost use Rattle.growth.specs.Steps.{Chains, HandledBy, PassingBy};

use crate::Growth;
use crate::enter::join_block;
use crate::ripe::enough;
use chains::lent::{Members, Moves};

// Looks at the moves into the state at place q of the queue.
fn walk(
    moves: &Moves<'_>,
    whole: bool,
    q: usize,
    number: u16,
    block: &[u16],
    members: &Members<'_>,
    growth: &mut Growth<'_>,
    row: &mut [u16],
)
    requires { Sound (net_of moves.now whole block.now members.now) × Chained moves.now × Chains moves.now.states block.now members.now × (q < growth.old.tail) × (1 ≤ number) × HandledBy (net_of moves.now whole block.now members.now) (pass_at row.old) number q growth.old.queue.now growth.old row.old }
    ensures walked { HandledBy (net_of moves.now whole block.now members.now) (pass_at row.old) number (q + 1) growth.old.queue.now growth.new row.new × (growth.old.tail ≤ growth.new.tail) × Alike growth.old.tail growth.new.queue.now growth.old.queue.now }
    ensures same { SameGrowth growth.old growth.new }
{
    // Each row is named once: after a write through a struct the places of all its rows would be fetched anew.
    let have = &mut *growth.have;
    let hit = &mut *growth.hit;
    let queue = &mut *growth.queue;
    let mut tail = growth.tail;
    let c = queue[q] as usize;
    let mut at = moves.last[c] as usize;
    // Down a linked chain, which no range counts.
    while at > 0 {
        let e = at - 1;
        let f = moves.from[e] as usize;
        let more = have[f] + 1;
        have[f] = more;
        if more == moves.need[f] {
            let b = block[f] as usize;
            let met = hit[b] + 1;
            hit[b] = met;
            if met == enough(whole, members.size[b]) {
                tail = join_block(moves.states, b, number, block, members, row, queue, tail);
            }
        }
        at = moves.before[e] as usize;
    }
    growth.tail = tail;
}

// The passes over the queue from place `first` on, of which those before `entered` had entered before, until a pass adds
// nothing. Inlined, so that what the two callers know of `whole` and `first` reaches the loops.
#[inline(always)]
pub fn run_passes(
    moves: &Moves<'_>,
    whole: bool,
    first: usize,
    entered: usize,
    block: &[u16],
    members: &Members<'_>,
    growth: &mut Growth<'_>,
    row: &mut [u16],
)
    requires { Sound (net_of moves.now whole block.now members.now) × Chained moves.now × Chains moves.now.states block.now members.now × ((f : ℕ → ℕ) × PassingBy (net_of moves.now whole block.now members.now) f 0 entered first growth.old row.old) }
    ensures passed { GrownBy (net_of moves.now whole block.now members.now) growth.new row.new × ((f : ℕ → ℕ) → PassingBy (net_of moves.now whole block.now members.now) f 0 entered first growth.old row.old → Holds moves.now.states row.new (pass_of (net_of moves.now whole block.now members.now) f moves.now.states)) }
    ensures same { SameGrowth growth.old growth.new }
{
    // A copy of its own, whose rows no write can move.
    let moves = *moves;
    let mut start = first;
    let mut end = entered;
    let mut pass: usize = 0;
    // Until a pass adds nothing: how many there are is known at the end.
    loop {
        let number = (pass + 2) as u16;
        for q in start..end {
            walk(&moves, whole, q, number, block, members, growth, row);
        }
        if end >= growth.tail {
            return;
        }
        start = end;
        end = growth.tail;
        pass += 1;
    }
}
