// What is printed of a game file: the refusal, or the verdict and each state with its mark, its block and its move.
#![tactic(auto)]

pub mod words;

ghost use Rattle.std.specs.Prelude.{◌≡◌, ◌≤◌, ◌<◌, length};
ghost use Rattle.file.specs.Layout.{states};

use file::number_at;
use game::Game;
use std::io;
use std::io::Write;
use words::{Mark, StateLines, VerdictLine};

/// What stands above the lines of the states.
pub const HEADING: &str = "state mark block move";

/// The states of an accepted file, as its head says.
pub fn state_count(file: &[u8]) -> usize
    ensures said { 5 < length file.now → result ≡ states file.now }
    ensures short { length file.now ≤ 5 → result ≡ 0 }
{
    if file.len() < 6 {
        0
    } else {
        usize::from(number_at(file, 4))
    }
}

/// Solves the game of the file, and prints the refusal or the verdict and a line for each state. Its rows are of fixed size:
/// nothing is allocated.
pub fn print_answer<W: Write>(out: &mut W, file: &[u8], allowance: u16) -> io::Result<()> {
    let mut marks = [0; Game::MAX_STATES];
    let mut blocks = [0; Game::MAX_STATES];
    let mut moves = [0; Game::MAX_STATES];
    match solver::solve(file, allowance, &mut marks, &mut blocks, &mut moves) {
        Ok(verdict) => {
            let verdict = VerdictLine(verdict);
            let lines = StateLines {
                count: state_count(file),
                marks: marked(&mut marks),
                blocks: &blocks,
                moves: &moves,
            };
            write!(out, "{verdict}\n{HEADING}\n{lines}")
        }
        Err(refusal) => writeln!(out, "REFUSED {refusal}"),
    }
}

// The row with a mark in each place: a number that is none counts as never. The solver writes no such number.
fn marked(marks: &mut [u16]) -> &[u16] {
    for mark in marks.iter_mut() {
        if Mark::try_from(*mark).is_err() {
            *mark = 0;
        }
    }
    marks
}
