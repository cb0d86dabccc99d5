// Writes the file of a game of a given shape. Blocks are made within states of the same marks, so they are precise for the starts
// and for the target. The number of an enum's case is had by `as`, which is the language's word for it.
ghost use Rattle.std.specs.Prelude.{◌<◌, ◌≤◌};

use crate::random::{Draws, Purpose};
use crate::shape::{Family, Objective, Shape, Side};
use std::io;
use std::io::{Cursor, Write};

// For each of the marks and each colour, the lowest state that has them, once there is one.
#[derive(Clone, Copy)]
struct Blocks {
    lowest: [[Option<u16>; 32]; 4],
}

impl Blocks {
    fn none() -> Blocks {
        Blocks {
            lowest: [[None; 32]; 4],
        }
    }

    // The lowest state that has the same marks and the same colour, among those that were asked of before and this one.
    fn block_of(&mut self, state: DrawnState<'_>) -> u16 {
        let Some(colours) = state.shape.colours else {
            return state.number;
        };
        let colour = state.draws().below(colours, Purpose::Colour) % 32;
        let lowest = &mut self.lowest[usize::from(state.marks())];
        *lowest[usize::from(colour)].get_or_insert(state.number)
    }
}

// Writes all records at the start of `file`, and answers what was written.
pub fn write_file<'a>(shape: &Shape, file: &'a mut [u8]) -> io::Result<&'a [u8]> {
    let end = write_records(shape, file)?;
    Ok(file.get(..end).unwrap_or(&[]))
}

// Writes all records, and answers where they end. How many moves there are is known, and written into its place in the header, at the
// end.
fn write_records(shape: &Shape, file: &mut [u8]) -> io::Result<usize> {
    let mut to = Cursor::new(file);
    record(&mut to, &[8, 1, shape.states, 0, shape.objective as u16])?;
    state_records(shape, &mut to)?;
    let moves = move_records(shape, &mut to)?;
    // The place lies in `file`, so that it fits a usize.
    let end = to.position() as usize;
    to.set_position(6);
    record(&mut to, &[moves])?;
    Ok(end)
}

// Writes each number into two bytes, the low one first.
fn record<W: Write>(to: &mut W, numbers: &[u16]) -> io::Result<()> {
    for number in numbers {
        to.write_all(&number.to_le_bytes())?;
    }
    Ok(())
}

fn state_records<W: Write>(shape: &Shape, to: &mut W) -> io::Result<()> {
    let mut blocks = Blocks::none();
    for number in 0..shape.states {
        let state = DrawnState { shape, number };
        let block = blocks.block_of(state);
        let turn = state.turn() as u8;
        record(
            to,
            &[6, 2, u16::from_le_bytes([turn, state.marks()]), block],
        )?;
    }
    Ok(())
}

// Writes the moves of all states, and answers how many there are.
fn move_records<W: Write>(shape: &Shape, to: &mut W) -> io::Result<u16> {
    let mut moves: u16 = 0;
    for number in 0..shape.states {
        let state = DrawnState { shape, number };
        for other in (0..shape.most_moves).filter_map(|number| state.move_to(number)) {
            record(to, &[6, 3, number, other])?;
            moves = moves.wrapping_add(1);
        }
    }
    Ok(moves)
}

// A state of a game of this shape, and what is drawn for it.
#[derive(Clone, Copy)]
struct DrawnState<'a> {
    shape: &'a Shape,
    number: u16,
}

impl DrawnState<'_> {
    fn draws(self) -> Draws {
        Draws {
            game: self.shape.game,
            state: self.number,
        }
    }

    fn turn(self) -> Side {
        self.shape.turns.unwrap_or_else(|| self.drawn_turn())
    }

    fn drawn_turn(self) -> Side {
        match self.draws().below(2, Purpose::Turn) {
            0 => Side::One,
            _ => Side::Two,
        }
    }

    fn marks(self) -> u8
        ensures { result ≤ 3 }
    {
        u8::from(self.is_start()) + 2 * u8::from(self.is_target())
    }

    // The first start stands in every game; others are drawn.
    fn is_start(self) -> bool {
        let is_first = self.number == self.shape.first_start();
        is_first || self.draws().chance(self.shape.starts, Purpose::Start)
    }

    // In a chain the near end alone is what one side hunts for: the target of reach, and all but the target of stay.
    fn is_target(self) -> bool {
        if self.shape.is_chain() {
            self.is_near_end() == (self.shape.objective == Objective::Reach)
        } else {
            self.draws().chance(self.shape.target, Purpose::InTarget)
        }
    }

    fn is_near_end(self) -> bool {
        self.number == self.shape.near_end()
    }

    // Where the move of this number leads, if there is one.
    fn move_to(self, number: u16) -> Option<u16> {
        if self.shape.is_chain() {
            self.chain_move(number)
        } else {
            self.scattered_move(number)
        }
    }

    // The states are parted into as many stretches as there are moves, and each move leads into another stretch; the last one takes
    // what is left.
    fn scattered_move(self, number: u16) -> Option<u16> {
        let count = self.move_count();
        if number >= count {
            return None;
        }
        let states = self.shape.states;
        let width = states / count;
        let low = number.wrapping_mul(width);
        let stretch = if number == count - 1 {
            states.wrapping_sub(low)
        } else {
            width
        };
        Some(low.wrapping_add(self.draws().below_for_move(stretch, number)))
    }

    // At least one move, and at most one to each state. A full game has as many as can be.
    fn move_count(self) -> u16
        ensures { 0 < result }
    {
        let most = self.shape.most_moves.min(self.shape.states);
        let drawn = self.draws().below(most, Purpose::MoveCount);
        match self.shape.family {
            Family::Full => most.max(1),
            _ => drawn.wrapping_add(1).max(1),
        }
    }

    // One step along the chain, at times two steps, and at times back. Upwards the step back has the lowest number that it leads to,
    // and downwards the step of two. The near end leads to itself.
    fn chain_move(self, number: u16) -> Option<u16> {
        if self.is_near_end() {
            return (number == 1).then_some(self.number);
        }
        match (number, self.shape.downward) {
            (0, false) | (2, true) => self.back_step(),
            (0, true) | (2, false) => self.far_step(),
            (1, _) => Some(self.step(1)),
            _ => None,
        }
    }

    fn step(self, length: u16) -> u16 {
        if self.shape.downward {
            self.number.wrapping_sub(length)
        } else {
            self.number.wrapping_add(length)
        }
    }

    fn far_step(self) -> Option<u16> {
        let far = self.step(2);
        let drawn = self.draws().chance(200, Purpose::LongStep);
        (far < self.shape.states && drawn).then_some(far)
    }

    // Back to any state that is not further along, the state itself among them. Steps back of the side that is hunted are rare.
    fn back_step(self) -> Option<u16> {
        let is_hunters = self.turn() == self.shape.objective.hunter();
        let times = if is_hunters { 500 } else { self.shape.weakness };
        let draws = self.draws();
        if !draws.chance(times, Purpose::HasStepBack) {
            return None;
        }
        let number = self.number;
        Some(if self.shape.downward {
            let above = self.shape.states.wrapping_sub(number);
            number.wrapping_add(draws.below(above, Purpose::StepBack))
        } else {
            draws.below(number.wrapping_add(1), Purpose::StepBack)
        })
    }
}
