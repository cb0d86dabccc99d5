// Decoding: from any byte string to an accepted game or a refusal.
#![tactic(auto)]

ghost use Rattle.std.specs.Prelude.{◌≡◌, ℕ, ◌≤◌, ◌<◌, length, get_or};
ghost use Rattle.file.specs.Sound.{Sound};
ghost use Rattle.decoding.specs.Decode.{game_of, decoded};

use file::{Refusal, first_refusal, number_at};
use game::{BlockNo, Game, StateNo};

pub mod plain;

use plain::{plain_moves, plain_states};

// The first n numbers of a row, each wrapped, and `rest` in all places after them. A counted loop, since `map` would wrap every
// place of the row, where most files say but a few.
fn wrapped<T: Copy, F: Fn(u16) -> T, const N: usize>(
    n: usize,
    numbers: &[u16],
    rest: T,
    wrap: F,
) -> [T; N]
    requires { (n ≤ N) × (n ≤ length numbers.now) × F.IsAlwaysCallable wrap }
    ensures long { length result ≡ N }
    ensures said { (k : ℕ) → k < n → F.post wrap (get_or numbers.now k 0) (get_or result k rest) }
    ensures after { (k : ℕ) → n ≤ k → get_or result k rest ≡ rest }
{
    let mut row = [rest; N];
    for k in 0..n {
        row[k] = wrap(numbers[k]);
    }
    row
}

// The game that sound records say.
fn read_game(file: &[u8]) -> Game
    requires { Sound file.now }
    ensures { result ≡ game_of file.now }
{
    let states = usize::from(number_at(file, 4));
    let moves = usize::from(number_at(file, 6));
    let mut turn = [0; Game::MAX_STATES];
    let mut marks = [0; Game::MAX_STATES];
    let mut block = [0; Game::MAX_STATES];
    plain_states(file, states, &mut turn, &mut marks, &mut block);
    let mut from = [0; Game::MAX_MOVES];
    let mut to = [0; Game::MAX_MOVES];
    plain_moves(file, states, moves, &mut from, &mut to);
    Game {
        states,
        moves,
        objective: number_at(file, 8),
        turn,
        marks,
        block: wrapped(states, &block, BlockNo(0), BlockNo),
        from: wrapped(moves, &from, StateNo(0), StateNo),
        to: wrapped(moves, &to, StateNo(0), StateNo),
    }
}

// The game of an accepted file, or the first refusal. Any byte string will do.
#[tactic(auto, using(file::proofs::Numbers::refused_given, file::proofs::Numbers::answer_given), unfolding(crate::specs::Decode::decoded))]
pub fn decode(file: &[u8]) -> Result<Game, Refusal>
    ensures { result ≡ decoded file.now }
{
    first_refusal(file)?;
    Ok(read_game(file))
}
