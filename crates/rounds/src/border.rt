// The search for the lowest-numbered border block. Counted loops and `as`: see the head of `chains`.
ghost use Rattle.std.specs.Prelude.{◌≡◌, not, ◌&&◌, ◌||◌, cond, suc, ◌≤◌, ◌<◌, length, get_or, eqb};
ghost use Rattle.game.specs.Limits.{max_states, max_moves};
ghost use Rattle.game.specs.declared.Game.{Game};
ghost use Rattle.chains.specs.Lent.{Holds, Keys};
ghost use Rattle.rounds.specs.Border.{bordering, border_answer};
ghost use Rattle.rounds.specs.Search.{first_move};
ghost use Rattle.rounds.specs.Grouped.{SearchOn};

use chains::clear;
use chains::lent::{Board, Members};
use game::BlockNo;

// Where each state's moves begin: those of s are from first[s] up to first[s + 1], since moves ascend. It is lent rows one by
// one, before there is a board.
pub fn first_moves(n: usize, m: usize, from: &[u16], first: &mut [u16])
    requires { (n ≤ max_states) × (m ≤ max_moves) × Keys n m from.now × (n < length first.old) }
    ensures { Holds (suc n) first.new (first_move (λ k. get_or from.now k 0) m) }
{
    clear(n + 1, first);
    for k in 0..m {
        let next = from[k] as usize + 1;
        first[next] = (k + 1) as u16;
    }
}

// After one more move: a state of the side itself is forced once a move leads into the set, and one of the other side
// is no longer forced once a move leads out of it.
fn after_move(own: bool, into: bool, known: bool) -> bool
    ensures { result ≡ cond own (known || into) (known && into) }
{
    if own { known || into } else { known && into }
}

// This state names a block outside the lower row that has a hit: it is the block's number, and not in that row.
fn is_open(block: u16, b: u16, lower: u16, hit: u16) -> bool
    ensures { result ≡ (eqb block b && (eqb lower 0 && not (eqb hit 0))) }
{
    block == b && lower == 0 && hit != 0
}

// The lowest-numbered border block: a block outside the lower row with a member in the side's forced-step set of it.
// A block without a hit has none and is passed over. Members are taken along the block's chain, which counts states from
// 1, and moves from where each state's begin: each move of a block is looked at once.
pub fn border_block(
    board: &Board<'_>,
    block: &[u16],
    members: &Members<'_>,
    hit: &[u16],
    lower: &[u16],
) -> Option<BlockNo>
    requires { ((g : Game) × SearchOn g board.now block.now members.now hit.now lower.now) × (board.now.moves.states ≤ length lower.now) × (board.now.moves.states ≤ length hit.now) }
    ensures { (g : Game) → SearchOn g board.now block.now members.now hit.now lower.now → result ≡ border_answer board.now.moves.states (bordering g board.now.side lower.now) }
{
    'search: {
        for b in 0..board.moves.states {
            if is_open(block[b], b as u16, lower[b], hit[b]) {
                let mut at = members.last[b] as usize;
                // No range counts these: each member tells the one before it, down to 0.
                while at > 0 {
                    let s = at - 1;
                    let own = board.turn[s] == board.side;
                    let mut known = !own;
                    let end = board.first[at] as usize;
                    for k in board.first[s] as usize..end {
                        let t = board.moves.to[k] as usize;
                        known = after_move(own, lower[t] != 0, known);
                    }
                    if known {
                        break 'search Some(BlockNo(b as u16));
                    }
                    at = members.before[s] as usize;
                }
            }
        }
        None
    }
}
