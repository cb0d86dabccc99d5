// The calls for C, each answer as one number. The crate `hvoyanur_c_c` exports them under the names that `include/hvoyanur.h` declares.
#![tactic(auto)]

ghost use Rattle.std.specs.Prelude.{◌≡◌};
ghost use Rattle.solver.specs.Solve.{solved};
ghost use Rattle.exchange.specs.Exchange.{exchanged};
ghost use Rattle.hvoyanur_c.specs.Pack.{joined, packed, packed_outcome, packed_writing};

use file::Refusal;
use solver::Verdict;

// Stands where no start is named: C has no Option.
const NO_START: u16 = 65535;

// Three numbers in one: the word above the named number above the splits.
fn join(word: u8, named: u16, splits: u16) -> u64
    ensures { result ≡ joined word named splits }
{
    u64::from(word) * 4294967296 + u64::from(named) * 65536 + u64::from(splits)
}

// An answer as one number, by the words that C reads; the number in a `StateNo` is taken by `.0`, as `From` would.
fn pack(answer: Result<Verdict, Refusal>) -> u64
    ensures { result ≡ packed answer }
{
    match answer {
        Ok(Verdict::Yes(start, splits)) => join(1, start.0, splits),
        Ok(Verdict::No(splits)) => join(2, NO_START, splits),
        Ok(Verdict::Open(splits)) => join(3, NO_START, splits),
        Err(refusal) => join(0, u16::from(refusal.number()), 0),
    }
}

// Solves the game of a file with at most `allowance` splits. Returns word × 2^32 + named × 2^16 + splits: the word is 1
// for YES, 2 for NO, 3 for OPEN and 0 for a refusal; the named number is the start, 65535 for none, or the refusal's.
pub fn hvoyanur_solve(
    file: &[u8],
    marks: &mut [u16],
    blocks: &mut [u16],
    moves: &mut [u16],
    allowance: u16,
) -> u64
    ensures { record { value = result; rows = record { marks = marks.new; blocks = blocks.new; moves = moves.new } } ≡ packed_outcome (solved file.now allowance (record { marks = marks.old; blocks = blocks.old; moves = moves.old })) }
{
    pack(solver::solve(file, allowance, marks, blocks, moves))
}

// Writes the file of the exchanged game into the first bytes of the output. Returns 2^32 + the length written, or the
// refusal's number.
pub fn hvoyanur_exchange(file: &[u8], out: &mut [u8]) -> u64
    ensures { record { value = result; output = out.new } ≡ packed_writing (exchanged file.now out.old) }
{
    match exchange::exchange(file, out) {
        // No From makes a u64 of a usize.
        Ok(length) => 4294967296 + length as u64,
        Err(refusal) => u64::from(refusal.number()),
    }
}
