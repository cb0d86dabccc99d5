// The promises of the calls for C: the number says an answer, and that answer with the rows is as promised.
ghost use Rattle.demands.specs.Calls.{CSolvePromise, CExchangePromise};

pub fn c_solve_as_promised(
    file: &[u8],
    marks: &mut [u16],
    blocks: &mut [u16],
    moves: &mut [u16],
    allowance: u16,
) -> u64
    ensures { CSolvePromise file.now allowance (record { marks = marks.old; blocks = blocks.old; moves = moves.old }) (record { value = result; rows = record { marks = marks.new; blocks = blocks.new; moves = moves.new } }) }
{
    hvoyanur_c::hvoyanur_solve(file, marks, blocks, moves, allowance)
}

pub fn c_exchange_as_promised(file: &[u8], out: &mut [u8]) -> u64
    ensures { CExchangePromise file.now out.old (record { value = result; output = out.new }) }
{
    hvoyanur_c::hvoyanur_exchange(file, out)
}
