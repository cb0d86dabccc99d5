// The first round that is lost for the hunting side, found by halving among the rounds of a run.
ghost use Rattle.std.specs.Prelude.{◌≡◌, ◌≤◌};
ghost use Rattle.game.specs.Game.{block_at};
ghost use Rattle.chains.specs.Lent.{Holds};
ghost use Rattle.runs.specs.Run.{lowest_first, round};
ghost use Rattle.runs.specs.First.{Bisecting};
ghost use Rattle.rows.specs.Grouped.{RetracingOn};

use crate::sets;
use chains::copy_row;
use chains::lent::Board;
use game::Game;
use runs::log::SplitLog;

// The round after the splits of the log is lost, and none of the first `clear` rounds is. The first round that is lost, and its
// blocks in place of those of the last round.
pub fn first_lost(board: &Board<'_>, clear: usize, log: &SplitLog<'_>, block: &mut [u16]) -> usize
    requires { RetracingOn board.now clear log.now block.old }
    ensures { ((t : RetracingOn board.now clear log.now block.old) → Bisecting t.game result result × Holds board.now.moves.states block.new (block_at (round lowest_first result t.game))) × (result ≤ log.now.made) × (log.now.made ≡ 0 → block.new ≡ block.old) }
{
    let n = board.moves.states;
    let mut earlier = [0u16; Game::MAX_STATES];
    let mut low = clear;
    let mut high = log.made;
    // It halves; each half copies blocks about, which `partition_point` has no room for.
    while low < high {
        let middle = low + (high - low) / 2;
        copy_row(n, block, &mut earlier);
        log.rewind(n, high, middle, &mut earlier);
        if sets::may_have_way(board, &earlier) {
            low = middle + 1;
        } else {
            copy_row(n, &earlier, block);
            high = middle;
        }
    }
    high
}
