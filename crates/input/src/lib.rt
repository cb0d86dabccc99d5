// Reading the input of a program into memory of its own, with nothing allocated.
#![tactic(auto)]

ghost use Rattle.std.specs.Prelude.{◌≡◌, ℕ, ◌≤◌, ◌<◌, IfOk, OnErr, length, take};
ghost use Rattle.std.specs.Io.{ReadsAtMost};
ghost use Rattle.std.specs.Io.KnownBytes.{Consumes, IsAtEnd, ReadConsumes};

use std::io;
use std::io::{ErrorKind, Read};

// The places of a buffer that holds any file that is accepted.
pub const FILE_ROOM: usize = 65536;

// A row whose places all hold `value`. The `ensures` gives only the length, which lending the array as a slice needs.
pub fn filled<T: Copy, const N: usize>(value: T) -> [T; N]
    ensures { N ≡ length result }
{
    [value; N]
}

// Reads until `room` is full or the input ends, and answers how many bytes stand at the start of `room`. With `in_bounds` and
// `taken`, `&room[..n]` is proved with no proof file. What was read before a failure stands at the start of `room` too, as `failed`
// says of a reader whose bytes are known.
pub fn read_full<R: Read>(from: &mut R, room: &mut [u8]) -> io::Result<usize>
    ensures in_bounds { IfOk result (λ n. n ≤ length room.new) }
    ensures taken { IfOk result (λ n. n ≡ length (take n room.new)) }
    ensures bytes { IfOk result (λ n. Consumes (R.remaining from.old) (R.remaining from.new) (take n room.new)) }
    ensures end { IfOk result (λ n. n < length room.new → IsAtEnd (R.remaining from.new)) }
    ensures failed { OnErr result ((n : ℕ) × Consumes (R.remaining from.old) (R.remaining from.new) (take n room.new)) }
{
    let mut done = 0;
    // No counted loop: each read says how many bytes it took, and an iterator over reads would be no plainer.
    while done < room.len() {
        let count = read_some(from, &mut room[done..])?;
        if count == 0 {
            return Ok(done);
        }
        done += count;
    }
    Ok(done)
}

// One read, tried again where a signal interrupts it.
fn read_some<R: Read>(from: &mut R, room: &mut [u8]) -> io::Result<usize>
    ensures bound { ReadsAtMost result room.new }
    ensures bytes { ReadConsumes (R.remaining from.old) (R.remaining from.new) result room.new }
{
    for _ in 0..u64::MAX {
        match from.read(room) {
            Err(e) if e.kind() == ErrorKind::Interrupted => {}
            result => return result,
        }
    }
    Err(io::Error::from(ErrorKind::Interrupted))
}
