// What is demanded, held by the calls: each function calls the product and has what is promised of it as its own contract, so
// that a contract weakened anywhere below breaks the check of this crate.
#![tactic(auto)]

ghost use Rattle.std.specs.Prelude.{◌≡◌, ◌≤◌, length, take};
ghost use Rattle.solver.specs.Solve.{solved};
ghost use Rattle.demands.specs.Calls.{SolvePromise, DecodePromise, ExchangePromise, ExchangedSolvePromise};

use file::Refusal;
use game::Game;
use solver::Verdict;

pub mod again;
pub mod c_calls;

// The answers of two calls.
#[derive(Clone, Copy)]
pub struct Twice<T> {
    pub first: T,
    pub second: T,
}

// Demands 1 and 2 of a call of `solve`, and what its answer means.
pub fn solve_as_promised(
    file: &[u8],
    allowance: u16,
    marks: &mut [u16],
    blocks: &mut [u16],
    moves: &mut [u16],
) -> Result<Verdict, Refusal>
    ensures { SolvePromise file.now allowance (record { marks = marks.old; blocks = blocks.old; moves = moves.old }) (record { answer = result; rows = record { marks = marks.new; blocks = blocks.new; moves = moves.new } }) }
{
    solver::solve(file, allowance, marks, blocks, moves)
}

// Demand 1 of a call of `decode`, and the game of an accepted file.
pub fn decode_as_promised(file: &[u8]) -> Result<Game, Refusal>
    ensures { DecodePromise file.now result }
{
    decoding::decode(file)
}

// Demand 1 of a call of `exchange`, and what it writes.
pub fn exchange_as_promised(file: &[u8], out: &mut [u8]) -> Result<usize, Refusal>
    ensures { ExchangePromise file.now out.old (record { answer = result; output = out.new }) }
{
    exchange::exchange(file, out)
}

// Solves the game of the first bytes of an output.
fn solve_written(
    out: &[u8],
    count: usize,
    allowance: u16,
    marks: &mut [u16],
    blocks: &mut [u16],
    moves: &mut [u16],
) -> Result<Verdict, Refusal>
    requires { count ≤ length out.now }
    ensures { record { answer = result; rows = record { marks = marks.new; blocks = blocks.new; moves = moves.new } } ≡ solved (take count out.now) allowance (record { marks = marks.old; blocks = blocks.old; moves = moves.old }) }
{
    solver::solve(&out[..count], allowance, marks, blocks, moves)
}

// Demand 3 of an exchange and the calls of `solve` around it: of the file first, and then, unless the exchange is refused, of the
// exchanged one. Rows are lent one by one, as the calls take them.
pub fn solve_exchanged_as_promised(
    file: &[u8],
    out: &mut [u8],
    allowance: u16,
    marks: &mut [u16],
    blocks: &mut [u16],
    moves: &mut [u16],
    exchanged_marks: &mut [u16],
    exchanged_blocks: &mut [u16],
    exchanged_moves: &mut [u16],
) -> Twice<Result<Verdict, Refusal>>
    ensures { ExchangedSolvePromise file.now allowance (record { marks = marks.old; blocks = blocks.old; moves = moves.old }) (record { answer = result.first; rows = record { marks = marks.new; blocks = blocks.new; moves = moves.new } }) out.old out.new (record { marks = exchanged_marks.old; blocks = exchanged_blocks.old; moves = exchanged_moves.old }) (record { answer = result.second; rows = record { marks = exchanged_marks.new; blocks = exchanged_blocks.new; moves = exchanged_moves.new } }) }
{
    let first = solver::solve(file, allowance, marks, blocks, moves);
    let second = match exchange::exchange(file, out) {
        Ok(count) => solve_written(
            out,
            count,
            allowance,
            exchanged_marks,
            exchanged_blocks,
            exchanged_moves,
        ),
        Err(refusal) => Err(refusal),
    };
    Twice { first, second }
}
