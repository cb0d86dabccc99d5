// What the solver says of a file.
use crate::shape::Side;
use file::Refusal;
use game::{BlockNo, StateNo};
use report::words::{Mark, Move};
use sheet_lines::{BLANK, ROW_ROOM};
use solver::Verdict;

// What the solver says of a file with an allowance, and the three rows that it was lent, with all their places: numbers in rows of
// fixed size, since `solve` is lent such and nothing is allocated.
#[derive(Clone, Copy)]
pub struct Said {
    pub allowance: u16,
    pub verdict: Result<Verdict, Refusal>,
    pub marks: [u16; ROW_ROOM],
    pub blocks: [u16; ROW_ROOM],
    pub moves: [u16; ROW_ROOM],
}

impl Said {
    pub fn of_file(file: &[u8], allowance: u16) -> Said {
        let mut marks = [BLANK; ROW_ROOM];
        let mut blocks = [BLANK; ROW_ROOM];
        let mut moves = [BLANK; ROW_ROOM];
        let verdict = solver::solve(file, allowance, &mut marks, &mut blocks, &mut moves);
        Said {
            allowance,
            verdict,
            marks,
            blocks,
            moves,
        }
    }

    pub fn splits(&self) -> u16 {
        match self.verdict {
            Ok(Verdict::Yes(_, splits) | Verdict::No(splits) | Verdict::Open(splits)) => splits,
            Err(_) => 0,
        }
    }

    pub fn is_open(&self) -> bool {
        matches!(self.verdict, Ok(Verdict::Open(_)))
    }

    // The side that the verdict names.
    pub fn winner(&self) -> Option<Side> {
        match self.verdict {
            Ok(Verdict::Yes(..)) => Some(Side::One),
            Ok(Verdict::No(_)) => Some(Side::Two),
            _ => None,
        }
    }

    // The start that the verdict names.
    pub fn named(&self) -> Option<usize> {
        match self.verdict {
            Ok(Verdict::Yes(start, _)) => Some(usize::from(start.0)),
            _ => None,
        }
    }

    // The state's mark, if it is one.
    pub fn mark(&self, state: usize) -> Option<Mark> {
        let number = self.marks.get(state).copied();
        number.and_then(|number| Mark::try_from(number).ok())
    }

    // The side that a state is marked for.
    pub fn marked_for(&self, state: usize) -> Option<Side> {
        match self.mark(state) {
            Some(Mark::Sure) => Some(Side::One),
            Some(Mark::Never) => Some(Side::Two),
            _ => None,
        }
    }

    // The number of the state's block.
    pub fn block(&self, state: usize) -> Option<BlockNo> {
        self.blocks.get(state).copied().map(BlockNo)
    }

    // The state that the plan advises to go to from this one.
    pub fn advised(&self, state: usize) -> Option<StateNo> {
        let number = self.moves.get(state).copied();
        number.and_then(|number| Move::from(number).0)
    }
}
