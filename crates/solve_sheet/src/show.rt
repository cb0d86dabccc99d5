// The lines of a case: what the solver makes of a file, and whether the rest of the lent rows is untouched.
use input::filled;
use report::words::{StateLines, VerdictLine};
use report::{HEADING, state_count};
use sheet_lines::{BLANK, ROW_ROOM, fitting, is_blank};
use std::io;
use std::io::Write;

// How many places of each row are lent.
#[derive(Clone, Copy)]
pub struct Places {
    pub marks: u16,
    pub blocks: u16,
    pub moves: u16,
}

// The rows that are lent to the solver. Its own rows have 512 places at least, and a sheet lends fewer too.
#[derive(Drop)]
struct Rows<'a> {
    marks: &'a mut [u16],
    blocks: &'a mut [u16],
    moves: &'a mut [u16],
}

pub fn answers<W: Write>(
    to: &mut W,
    file: &[u8],
    allowance: u16,
    places: Places,
) -> io::Result<()> {
    let mut marks = filled::<u16, ROW_ROOM>(BLANK);
    let mut blocks = filled::<u16, ROW_ROOM>(BLANK);
    let mut moves = filled::<u16, ROW_ROOM>(BLANK);
    let for_marks = fitting(usize::from(places.marks), &marks);
    let for_blocks = fitting(usize::from(places.blocks), &blocks);
    let for_moves = fitting(usize::from(places.moves), &moves);
    let mut rows = Rows {
        marks: &mut marks[..for_marks],
        blocks: &mut blocks[..for_blocks],
        moves: &mut moves[..for_moves],
    };
    lend(to, file, allowance, &mut rows)
}

fn lend<W: Write>(to: &mut W, file: &[u8], allowance: u16, rows: &mut Rows<'_>) -> io::Result<()> {
    match solver::solve(file, allowance, rows.marks, rows.blocks, rows.moves) {
        Ok(verdict) => {
            let verdict = VerdictLine(verdict);
            let count = state_count(file);
            writeln!(to, "{verdict}\n{HEADING}")?;
            rows.states(to, count)?;
            rows.rest(to, count)
        }
        Err(refusal) => {
            writeln!(to, "REFUSED {refusal}")?;
            rows.rest(to, 0)
        }
    }
}

impl<'a> Rows<'a> {
    // The lines of the states below `count`, as far as all rows have a place for them.
    fn states<W: Write>(&self, to: &mut W, count: usize) -> io::Result<()> {
        let lines = StateLines {
            count,
            marks: self.marks,
            blocks: self.blocks,
            moves: self.moves,
        };
        write!(to, "{lines}")
    }

    // Says whether all places from `from` on are untouched in the three rows.
    fn rest<W: Write>(&self, to: &mut W, from: usize) -> io::Result<()> {
        if is_blank(self.marks, from, &BLANK)
            && is_blank(self.blocks, from, &BLANK)
            && is_blank(self.moves, from, &BLANK)
        {
            writeln!(to, "rest untouched")
        } else {
            writeln!(to, "TOUCHED")
        }
    }
}
