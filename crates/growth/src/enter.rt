// What enters the queue: the states of a row, and the members of a block. Counted loops and `as`: see the head of `chains`.
ghost use Rattle.std.specs.Prelude.{ℕ, ◌≤◌, ◌<◌, length, get_or, eqb};
ghost use Rattle.game.specs.Limits.{max_states};
ghost use Rattle.growth.specs.Queue.{Listed, Joined};
ghost use Rattle.growth.specs.Steps.{Chains};

use chains::lent::Members;

// Puts the states of the row into the queue. The end of the queue.
pub fn list_states(n: usize, row: &[u16], queue: &mut [u16]) -> usize
    requires { (n ≤ max_states) × (n ≤ length row.now) × (n ≤ length queue.old) }
    ensures { Listed n row.now queue.new result }
{
    let mut tail: usize = 0;
    for s in 0..n {
        if row[s] != 0 {
            queue[tail] = s as u16;
            tail += 1;
        }
    }
    tail
}

// The members of block b outside the row get this number and go to the queue. The new end of the queue. It takes the queue and
// its end by themselves, since `walk` and `join_ripe` hold the other rows of the growth while they call it.
pub fn join_block(
    n: usize,
    b: usize,
    number: u16,
    block: &[u16],
    members: &Members<'_>,
    row: &mut [u16],
    queue: &mut [u16],
    tail: usize,
) -> usize
    requires { (n ≤ max_states) × (b < n) × (1 ≤ number) × Chains n block.now members.now × (n ≤ length row.old) × Listed n row.old queue.old tail }
    ensures { Joined n (λ s. eqb b (get_or block.now s 0)) number row.old queue.old tail row.new queue.new result }
{
    let before = &*members.before;
    let mut end = tail;
    let mut at = members.last[b] as usize;
    // Down a linked chain, which no range counts.
    while at > 0 {
        let s = at - 1;
        if row[s] == 0 {
            row[s] = number;
            queue[end] = s as u16;
            end += 1;
        }
        at = before[s] as usize;
    }
    end
}
