// The records of a sound file, read into rows of plain numbers: the one place where such rows are made. What is asked of
// the file, `n` and `m` stands in both contracts, which docs/PROMISES.md names. The loops count, since each fills several rows at
// one place.
ghost use Rattle.std.specs.Prelude.{◌≡◌, ◌≤◌, length};
ghost use Rattle.game.specs.Rows.{fill};
ghost use Rattle.file.specs.Layout.{states, moves, turn as turn_of, marks as marks_of, block as block_of, from as from_of, to as to_of};
ghost use Rattle.file.specs.Sound.{Sound};

use file::{move_at, number_at};

// The side, the marks and the number of the block of each state.
pub fn plain_states(file: &[u8], n: usize, turn: &mut [u8], marks: &mut [u8], block: &mut [u16])
    requires { (n ≡ states file.now) × Sound file.now × (n ≤ length turn.old) × (n ≤ length marks.old) × (n ≤ length block.old) }
    ensures turn { turn.new ≡ fill n (turn_of file.now) turn.old }
    ensures marks { marks.new ≡ fill n (marks_of file.now) marks.old }
    ensures block { block.new ≡ fill n (block_of file.now) block.old }
{
    for s in 0..n {
        let at = 10 + 8 * s;
        turn[s] = file[at + 4];
        marks[s] = file[at + 5];
        block[s] = number_at(file, at + 6);
    }
}

// The numbers of the states that each move leads from and to.
pub fn plain_moves(file: &[u8], n: usize, m: usize, from: &mut [u16], to: &mut [u16])
    requires { (n ≡ states file.now) × (m ≡ moves file.now) × Sound file.now × (m ≤ length from.old) × (m ≤ length to.old) }
    ensures from { from.new ≡ fill m (from_of file.now) from.old }
    ensures to { to.new ≡ fill m (to_of file.now) to.old }
{
    for k in 0..m {
        let at = move_at(file, n, k);
        from[k] = number_at(file, at + 4);
        to[k] = number_at(file, at + 6);
    }
}
