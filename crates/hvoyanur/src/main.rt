// Reads a game file from standard input, at most 65,536 bytes of it, allows 511 splits, and prints the answer.
#![tactic(auto)]

use input::{FILE_ROOM, filled, read_full};
use std::io;

fn main(rt: HostRuntime) -> io::Result<()> {
    let mut file = filled::<u8, FILE_ROOM>(0);
    let length = read_full(&mut rt.stdin(), &mut file)?;
    report::print_answer(&mut io::writer(&rt), &file[..length], 511)
}
