// Long files, which the sheet has no room for. Each state is a block of its own, turns alternate, the first state is initial and
// the last one target; each state has an equal share of the moves, to 0, 1, 2 and so on.
ghost use Rattle.std.specs.Prelude.{◌+◌, ◌^◌, ◌<◌};

use crate::show;
use input::{FILE_ROOM, filled};
use sheet_lines::fitting;
use std::io;
use std::io::Write;

// How many states and moves the largest file that is accepted has.
const LARGEST: (u16, u16) = (512, 4096);

pub fn long_files<W: Write>(to: &mut W) -> io::Result<()> {
    of_size(to, "one state, one move", 1, 1)?;
    of_size(to, "512 states, 512 moves", 512, 512)?;
    of_size(to, "512 states, 511 moves", 512, 511)?;
    of_size(to, "513 states, 513 moves", 513, 513)?;
    of_size(to, "64 states, 4096 moves", 64, 4096)?;
    of_size(to, "241 states, 4097 moves", 241, 4097)?;
    of_size(to, "512 states, 4096 moves", 512, 4096)
}

// The largest file that is accepted has 36,874 bytes. Its last state stands at 4,098 and its last move at 36,866.
pub fn largest_files<W: Write>(to: &mut W) -> io::Result<()> {
    of_length(to, "largest file cut by one byte", 36873)?;
    of_length(to, "largest file and one byte more", 36875)?;
    with_number(to, "largest file, wrong kind in the last move", 36868, 2)?;
    with_number(to, "largest file, turn 3 in the last state", 4102, 515)?;
    with_number(to, "largest file, block 512 in the last state", 4104, 512)?;
    with_number(to, "largest file, block 255 in the last state", 4104, 255)?;
    with_number(to, "largest file, block 510 in the last state", 4104, 510)?;
    with_number(to, "largest file, last move to 512", 36872, 512)?;
    with_number(
        to,
        "largest file, last move repeats the one before",
        36872,
        6,
    )?;
    with_number(to, "largest file, last move to 511", 36872, 511)?;
    with_number(to, "largest file, no start", 14, 1)
}

fn of_size<W: Write>(to: &mut W, name: &str, states: u16, moves: u16) -> io::Result<()> {
    let size = 10 + 8 * usize::from(states) + 8 * usize::from(moves);
    built(to, name, (states, moves), size, None)
}

// The largest file at another length: what comes after it is 0.
fn of_length<W: Write>(to: &mut W, name: &str, size: usize) -> io::Result<()> {
    built(to, name, LARGEST, size, None)
}

// The largest file with another number in two of its bytes.
fn with_number<W: Write>(to: &mut W, name: &str, at: u16, value: u16) -> io::Result<()> {
    built(to, name, LARGEST, 36874, Some((at, value)))
}

// The whole line of a file of so many states and moves, at this length, with the number that is given in two of its bytes.
fn built<W: Write>(
    to: &mut W,
    name: &str,
    (states, moves): (u16, u16),
    size: usize,
    change: Option<(u16, u16)>,
) -> io::Result<()> {
    let mut file = filled::<u8, FILE_ROOM>(0);
    records(&mut file, states, moves);
    if let Some((at, value)) = change {
        store(&mut file, usize::from(at), value);
    }
    let length = fitting(size, &file);
    write!(to, "{name}")?;
    show::answers(to, &file[..length])
}

// Writes all records of a file.
fn records(file: &mut [u8], states: u16, moves: u16) {
    store(file, 0, 8);
    store(file, 2, 1);
    store(file, 4, states);
    store(file, 6, moves);
    store(file, 8, 1);
    state_records(file, states);
    move_records(file, states, moves);
}

fn state_records(file: &mut [u8], states: u16) {
    for state in 0..states {
        let own = u16::from_le_bytes([turn(state), marks(state, states)]);
        record(file, 10 + 8 * usize::from(state), 2, own, state);
    }
}

fn move_records(file: &mut [u8], states: u16, moves: u16) {
    let each = share(moves, states);
    let first = 10 + 8 * usize::from(states);
    for count in 0..moves {
        record(
            file,
            first + 8 * usize::from(count),
            3,
            count / each,
            count % each,
        );
    }
}

// How many moves each state has: at least one.
fn share(moves: u16, states: u16) -> u16
    ensures { 0 < result }
{
    moves.checked_div(states).unwrap_or(1).max(1)
}

// The sides take turns.
fn turn(state: u16) -> u8 {
    if state % 2 == 0 { 1 } else { 2 }
}

// 1 for the first state, which is initial, and 2 for the last one, which is a target.
fn marks(state: u16, states: u16) -> u8
    requires { state < states }
{
    let initial = u8::from(state == 0);
    let target = u8::from(state + 1 == states);
    initial + 2 * target
}

// Writes a record of length 6: its length, its kind and four bytes more. No plainer as one with the record of random_games, which is
// written behind the one before: here each place is worked out, and a number is put into any two bytes.
fn record(file: &mut [u8], at: usize, kind: u16, third: u16, fourth: u16)
    requires { at < 2 ^ 32 }
{
    store(file, at, 6);
    store(file, at + 2, kind);
    store(file, at + 4, third);
    store(file, at + 6, fourth);
}

// Writes a number into two bytes, the low one first, where there is room for it.
fn store(file: &mut [u8], at: usize, value: u16)
    requires { at < 2 ^ 33 }
{
    if let Some(place) = file.get_mut(at..at + 2) {
        place.copy_from_slice(&value.to_le_bytes());
    }
}
