// The words of an answer: of a verdict, of a state's mark and of its move, and of a state's line.
ghost use Rattle.std.specs.Prelude.{◌≡◌, Some};
ghost use Rattle.report.specs.Words.{NamesMark, mark_word, move_of, move_word, state_line, verdict_line, wrong_word};

use game::StateNo;
use solver::Verdict;
use std::error::Error;
use std::fmt;

/// A verdict, as its line says it: the word, the start that it names, and how many splits there were.
#[derive(Clone, Copy)]
pub struct VerdictLine(pub Verdict);

impl fmt::Display for VerdictLine {
    ghost output = { λ line. Some (verdict_line line.0) };

    fn fmt<W: fmt::Write>(&self, f: &mut fmt::Formatter<W>) -> fmt::Result {
        match self.0 {
            Verdict::Yes(start, splits) => {
                let start = start.0;
                write!(f, "YES {start} {splits}")
            }
            Verdict::No(splits) => write!(f, "NO - {splits}"),
            Verdict::Open(splits) => write!(f, "OPEN - {splits}"),
        }
    }
}

/// Whether side 1 wins from a state: never, open, or for sure.
#[derive(Clone, Copy, Debug, PartialEq, Eq, Hash)]
pub enum Mark {
    Never,
    Open,
    Sure,
}

/// A number that stands for no mark.
#[derive(Clone, Copy, Debug, PartialEq, Eq, Hash)]
pub struct WrongMark(pub u16);

impl fmt::Display for WrongMark {
    ghost output = { λ wrong. Some (wrong_word wrong) };

    fn fmt<W: fmt::Write>(&self, f: &mut fmt::Formatter<W>) -> fmt::Result {
        f.write_str("WRONG")
    }
}

impl Error for WrongMark {}

impl TryFrom<u16> for Mark {
    type Error = WrongMark;

    ghost try_from_gives = { NamesMark };

    fn try_from(number: u16) -> Result<Self, WrongMark> {
        match number {
            0 => Ok(Mark::Never),
            1 => Ok(Mark::Open),
            2 => Ok(Mark::Sure),
            _ => Err(WrongMark(number)),
        }
    }
}

impl fmt::Display for Mark {
    ghost output = { λ mark. Some (mark_word mark) };

    fn fmt<W: fmt::Write>(&self, f: &mut fmt::Formatter<W>) -> fmt::Result {
        f.write_str(match self {
            Mark::Never => "never",
            Mark::Open => "open",
            Mark::Sure => "sure",
        })
    }
}

/// The state that a move leads to, or none where there is no move.
#[derive(Clone, Copy, Debug, PartialEq, Eq, Hash)]
pub struct Move(pub Option<StateNo>);

// How the row of moves says that there is none: a number, since rows of numbers are lent to the solver, from C too. The solver's own
// name for it lies in a module that is private.
const NO_MOVE: u16 = 65535;

impl From<u16> for Move {
    ghost from_gives = { λ number to. to.0 ≡ move_of number };

    fn from(number: u16) -> Move {
        if number == NO_MOVE {
            Move(None)
        } else {
            Move(Some(StateNo(number)))
        }
    }
}

impl fmt::Display for Move {
    ghost output = { λ to. Some (move_word to.0) };

    fn fmt<W: fmt::Write>(&self, f: &mut fmt::Formatter<W>) -> fmt::Result {
        match self.0 {
            None => f.write_str("-"),
            Some(to) => {
                let to = to.0;
                write!(f, "{to}")
            }
        }
    }
}

/// The line of a state.
#[derive(Clone, Copy)]
pub struct StateLine {
    pub state: usize,
    pub mark: Result<Mark, WrongMark>,
    pub block: u16,
    pub to: Move,
}

impl fmt::Display for StateLine {
    ghost output = { λ line. Some (state_line line) };

    fn fmt<W: fmt::Write>(&self, f: &mut fmt::Formatter<W>) -> fmt::Result {
        let StateLine {
            state,
            mark,
            block,
            to,
        } = *self;
        match mark {
            Ok(mark) => write!(f, "{state} {mark} {block} {to}"),
            Err(wrong) => write!(f, "{state} {wrong} {block} {to}"),
        }
    }
}

/// The lines of the states below `count`, as far as all three rows have a place for them.
#[derive(Clone, Copy)]
pub struct StateLines<'a> {
    pub count: usize,
    pub marks: &'a [u16],
    pub blocks: &'a [u16],
    pub moves: &'a [u16],
}

impl<'a> fmt::Display for StateLines<'a> {
    fn fmt<W: fmt::Write>(&self, f: &mut fmt::Formatter<W>) -> fmt::Result {
        let places = self.marks.iter().zip(self.blocks).zip(self.moves);
        for (state, ((mark, block), to)) in places.take(self.count).enumerate() {
            let line = StateLine {
                state,
                mark: Mark::try_from(*mark),
                block: *block,
                to: Move::from(*to),
            };
            writeln!(f, "{line}")?;
        }
        Ok(())
    }
}
