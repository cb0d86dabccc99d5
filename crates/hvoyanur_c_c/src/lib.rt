// The static library for C, and for Rust that links it: the calls of `hvoyanur_c` under the names that `include/hvoyanur.h` declares,
// which hold the promises of those calls.
#![tactic(auto)]

ghost use Rattle.std.specs.Prelude.{◌≡◌};
ghost use Rattle.solver.specs.Solve.{solved};
ghost use Rattle.exchange.specs.Exchange.{exchanged};
ghost use Rattle.hvoyanur_c.specs.Pack.{packed_outcome, packed_writing};
ghost use Rattle.demands.specs.Calls.{CSolvePromise, CExchangePromise};

// Solves the game of a file with at most `allowance` splits. Returns word × 2^32 + named × 2^16 + splits: the word is 1
// for YES, 2 for NO, 3 for OPEN and 0 for a refusal; the named number is the start, 65535 for none, or the refusal's.
#[unsafe(no_mangle)]
pub extern "C" fn hvoyanur_solve(
    file: &[u8],
    marks: &mut [u16],
    blocks: &mut [u16],
    moves: &mut [u16],
    allowance: u16,
) -> u64
    ensures returned { record { value = result; rows = record { marks = marks.new; blocks = blocks.new; moves = moves.new } } ≡ packed_outcome (solved file.now allowance (record { marks = marks.old; blocks = blocks.old; moves = moves.old })) }
    ensures promised { CSolvePromise file.now allowance (record { marks = marks.old; blocks = blocks.old; moves = moves.old }) (record { value = result; rows = record { marks = marks.new; blocks = blocks.new; moves = moves.new } }) }
{
    hvoyanur_c::hvoyanur_solve(file, marks, blocks, moves, allowance)
}

// Writes the file of the exchanged game into the first bytes of the output. Returns 2^32 + the length written, or the
// refusal's number.
#[unsafe(no_mangle)]
pub extern "C" fn hvoyanur_exchange(file: &[u8], out: &mut [u8]) -> u64
    ensures returned { record { value = result; output = out.new } ≡ packed_writing (exchanged file.now out.old) }
    ensures promised { CExchangePromise file.now out.old (record { value = result; output = out.new }) }
{
    hvoyanur_c::hvoyanur_exchange(file, out)
}
