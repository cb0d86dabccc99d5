// Runs the decoder and the exchange over a sheet of cases, then over long files that it builds itself, and prints a line for each.
// The sheet is read from standard input. What has to be printed is worked out by tools/case_sheet.py, which has a decoder and an
// exchange of its own.
#![tactic(auto)]

mod build;
mod print;
mod sheet;
mod show;

use input::filled;
use sheet_lines::{SHEET_ROOM, each_line};
use std::io;

fn main(rt: HostRuntime) -> io::Result<()> {
    let mut room = filled::<u8, SHEET_ROOM>(0);
    let count = input::read_full(&mut rt.stdin(), &mut room)?;
    let mut to = io::writer(&rt);
    each_line(&room[..count], |line| sheet::run_line(&mut to, line))?;
    build::long_files(&mut to)?;
    build::largest_files(&mut to)
}
