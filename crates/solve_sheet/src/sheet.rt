// The sheet: a line for each case has its name, a colon, and, each after a space, the allowance, the places of the rows of marks, of
// blocks and of moves, and the file's bytes as hexadecimal digits.
use crate::show;
use crate::show::Places;
use input::{FILE_ROOM, filled};
use sheet_lines::{name_and_rest, number, read_digits};
use std::io;
use std::io::Write;

pub fn run_line<W: Write>(to: &mut W, line: &[u8]) -> io::Result<()> {
    let (name, rest) = name_and_rest(line);
    to.write_all(name)?;
    writeln!(to)?;
    let mut fields = rest.splitn(5, |byte| *byte == b' ');
    let allowance = fields.next().map_or(0, number);
    let places = Places {
        marks: fields.next().map_or(0, number),
        blocks: fields.next().map_or(0, number),
        moves: fields.next().map_or(0, number),
    };
    let digits = fields.next().unwrap_or_default();
    let mut file = filled::<u8, FILE_ROOM>(0);
    show::answers(to, read_digits(digits, &mut file), allowance, places)
}
