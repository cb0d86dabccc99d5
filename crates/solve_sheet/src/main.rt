// Runs the solver over a sheet of cases, and prints for each its name, what the printing program would print of it, and whether the
// rest of the lent rows is untouched. The sheet is read from standard input. What has to be printed is worked out by
// tools/solve_sheet.py, which has a solver of its own.
#![tactic(auto)]

mod sheet;
mod show;

use input::filled;
use sheet_lines::{SHEET_ROOM, each_line};
use std::io;

fn main(rt: HostRuntime) -> io::Result<()> {
    let mut room = filled::<u8, SHEET_ROOM>(0);
    let count = input::read_full(&mut rt.stdin(), &mut room)?;
    let mut to = io::writer(&rt);
    each_line(&room[..count], |line| sheet::run_line(&mut to, line))
}
