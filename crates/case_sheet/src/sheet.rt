// The sheet: a line for each case has its name, a colon, a space, and the file's bytes as hexadecimal digits.
use crate::show;
use input::{FILE_ROOM, filled};
use sheet_lines::{name_and_rest, read_digits};
use std::io;
use std::io::Write;

pub fn run_line<W: Write>(to: &mut W, line: &[u8]) -> io::Result<()> {
    let (name, digits) = name_and_rest(line);
    to.write_all(name)?;
    let mut file = filled::<u8, FILE_ROOM>(0);
    show::answers(to, read_digits(digits, &mut file))
}
