// 01, 'What the contracts settle': any two outcomes that the contract of a public call permits coincide. Each function makes the
// same call twice, and all that is known of either outcome is the call's own contract. Rows are lent one by one, as the calls take them.
ghost use Rattle.std.specs.Prelude.{◌≡◌};
ghost use Rattle.exchange.specs.Exchange.{Outcome as Exchange};
ghost use Rattle.solver.specs.Solve.{Rows, Outcome};

use crate::Twice;
use file::Refusal;
use game::Game;
use solver::Verdict;

pub fn solve_again(
    file: &[u8],
    allowance: u16,
    marks: &mut [u16],
    blocks: &mut [u16],
    moves: &mut [u16],
    marks_again: &mut [u16],
    blocks_again: &mut [u16],
    moves_again: &mut [u16],
) -> Twice<Result<Verdict, Refusal>>
    ensures { ◌≡◌ {A = Rows} (record { marks = marks.old; blocks = blocks.old; moves = moves.old }) (record { marks = marks_again.old; blocks = blocks_again.old; moves = moves_again.old }) → ◌≡◌ {A = Outcome} (record { answer = result.first; rows = record { marks = marks.new; blocks = blocks.new; moves = moves.new } }) (record { answer = result.second; rows = record { marks = marks_again.new; blocks = blocks_again.new; moves = moves_again.new } }) }
{
    let first = solver::solve(file, allowance, marks, blocks, moves);
    let second = solver::solve(file, allowance, marks_again, blocks_again, moves_again);
    Twice { first, second }
}

pub fn decode_again(file: &[u8]) -> Twice<Result<Game, Refusal>>
    ensures { result.first ≡ result.second }
{
    let first = decoding::decode(file);
    let second = decoding::decode(file);
    Twice { first, second }
}

pub fn exchange_again(
    file: &[u8],
    out: &mut [u8],
    out_again: &mut [u8],
) -> Twice<Result<usize, Refusal>>
    ensures { out.old ≡ out_again.old → ◌≡◌ {A = Exchange} (record { answer = result.first; output = out.new }) (record { answer = result.second; output = out_again.new }) }
{
    let first = exchange::exchange(file, out);
    let second = exchange::exchange(file, out_again);
    Twice { first, second }
}
