// The exchange: the file of the game with the sides exchanged.
#![tactic(auto)]

ghost use Rattle.std.specs.Prelude.{◌≡◌, ◌≤◌, ℕ, List, length};
ghost use Rattle.game.specs.Limits.{max_states};
ghost use Rattle.game.specs.Rows.{fill};
ghost use Rattle.file.specs.Layout.{states};
ghost use Rattle.exchange.specs.Exchange.{other, other_marks, exchanged};
ghost use Rattle.exchange.specs.Bytes.{exchanged_byte, exchanged_bytes};

use file::{Refusal, first_refusal, number_at};

// The other of 1 and 2: of the two turns, and of the two objectives. Turns, objectives and marks are bytes of the file
// here, and stay so: `exchanged_byte` is said of every byte.
fn other(number: u8) -> u8
    ensures { result ≡ other number }
{
    if number == 1 { 2 } else { 1 }
}

fn other_marks(marks: u8) -> u8
    ensures { result ≡ other_marks marks }
{
    if marks < 2 { marks + 2 } else { marks - 2 }
}

// What the byte b at place i of a file of n states becomes.
#[tactic(auto, using(arena::proofs::Choices::choices), unfolding(crate::specs::Bytes::exchanged_byte))]
fn exchanged_byte(n: usize, i: usize, b: u8) -> u8
    requires { n ≤ max_states }
    ensures { result ≡ exchanged_byte n i b }
{
    if i == 8 {
        return other(b);
    }
    if i < 10 || i >= 10 + 8 * n {
        return b;
    }
    match (i - 10) % 8 {
        4 => other(b),
        5 => other_marks(b),
        _ => b,
    }
}

// Writes the bytes of the exchanged file from place `first` up to `end`, where those before stand already. The head and the states
// are one such part and the moves another: the compiler takes either loop sixteen bytes at once, and a loop over all byte by byte.
#[inline(always)]
fn exchange_part(n: usize, first: usize, end: usize, file: &[u8], out: &mut [u8])
    requires { (n ≡ states file.now) × (n ≤ max_states) × (first ≤ end) × (end ≤ length file.now) × (length file.now ≤ length out.old) }
    ensures { (row : List ℕ) → length row ≡ length out.old → out.old ≡ fill first (exchanged_bytes file.now) row → out.new ≡ fill end (exchanged_bytes file.now) row }
{
    for i in first..end {
        out[i] = exchanged_byte(n, i, file[i]);
    }
}

// Writes the file of the exchanged game into the first bytes of the output, and answers its length. A refusal leaves
// the output as it was.
pub fn exchange(file: &[u8], out: &mut [u8]) -> Result<usize, Refusal>
    ensures { record { answer = result; output = out.new } ≡ exchanged file.now out.old }
{
    first_refusal(file)?;
    if out.len() < file.len() {
        return Err(Refusal::ShortRow);
    }
    let n = usize::from(number_at(file, 4));
    let moves = 10 + 8 * n;
    exchange_part(n, 0, moves, file, out);
    exchange_part(n, moves, file.len(), file, out);
    Ok(file.len())
}
