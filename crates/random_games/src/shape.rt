// What kind of game each number stands for.
use crate::random::{Draws, Purpose};
use std::fmt;

// How many games there are.
pub const GAMES: u64 = 2400;

// The families. Tiny: 1 to 6 states. Sparse: up to 61 states with one move or two each. Dense: up to 64 states, and up to all
// moves. Wide: 100 to 512 states, and up to 4,096 moves. Chains: 200 to 512 states in a row. Folded: a chain of 50 to 300 states in
// the fewest blocks that are accepted. Full: 512 states and 4,096 moves.
#[derive(Clone, Copy, PartialEq, Eq)]
pub enum Family {
    Tiny,
    Sparse,
    Dense,
    Wide,
    Chains,
    Folded,
    Full,
}

impl Family {
    pub const ALL: [Family; 7] = [
        Family::Tiny,
        Family::Sparse,
        Family::Dense,
        Family::Wide,
        Family::Chains,
        Family::Folded,
        Family::Full,
    ];

    fn of(game: u64) -> Family {
        match game {
            0..900 => Family::Tiny,
            900..1500 => Family::Sparse,
            1500..2000 => Family::Dense,
            2000..2150 => Family::Wide,
            2150..2300 => Family::Chains,
            2300..2380 => Family::Folded,
            _ => Family::Full,
        }
    }
}

impl fmt::Display for Family {
    fn fmt<W: fmt::Write>(&self, f: &mut fmt::Formatter<W>) -> fmt::Result {
        f.write_str(match self {
            Family::Tiny => "tiny games",
            Family::Sparse => "sparse games",
            Family::Dense => "dense games",
            Family::Wide => "wide games",
            Family::Chains => "chains",
            Family::Folded => "folded chains",
            Family::Full => "full games",
        })
    }
}

#[derive(Clone, Copy, PartialEq, Eq)]
pub enum Side {
    One = 1,
    Two = 2,
}

// The side that a state's turn names: side 2 where it is not 1.
impl From<u8> for Side {
    fn from(turn: u8) -> Side {
        match turn {
            1 => Side::One,
            _ => Side::Two,
        }
    }
}

#[derive(Clone, Copy, PartialEq, Eq)]
pub enum Objective {
    Reach = 1,
    Stay = 2,
}

// The objective that a head names: stay where it is not 1.
impl From<u16> for Objective {
    fn from(number: u16) -> Objective {
        match number {
            1 => Objective::Reach,
            _ => Objective::Stay,
        }
    }
}

impl Objective {
    // Side 1 hunts for the target in reach, and side 2 for the states outside it in stay.
    pub fn hunter(self) -> Side {
        match self {
            Objective::Reach => Side::One,
            Objective::Stay => Side::Two,
        }
    }
}

// A game's number, and what was drawn for it. A state has at most `most_moves` moves. `turns` is the side whose turn it is at all
// states, if it is not drawn for each. `target` and `starts` are out of a thousand. States of the same marks are parted into
// `colours` blocks; without it each state is a block. A chain runs down from the last state where it is `downward`, and `weakness`,
// out of a thousand, is how often the side that is hunted can step back in it.
#[derive(Clone, Copy)]
pub struct Shape {
    pub game: u64,
    pub family: Family,
    pub states: u16,
    pub most_moves: u16,
    pub objective: Objective,
    pub turns: Option<Side>,
    pub target: u16,
    pub starts: u16,
    pub colours: Option<u16>,
    pub allowance: u16,
    pub downward: bool,
    pub weakness: u16,
}

impl Shape {
    pub fn of(game: u64) -> Shape {
        let family = Family::of(game);
        let draws = Draws { game, state: 0 };
        let states = states_of(family, draws);
        Shape {
            game,
            family,
            states,
            most_moves: most_moves_of(family, states, draws),
            objective: Objective::from(draws.between(1, 2, Purpose::Objective)),
            turns: turns_of(draws),
            target: target_of(draws),
            starts: starts_of(draws),
            colours: colours_of(family, draws),
            allowance: allowance_of(family, draws),
            downward: draws.below(2, Purpose::Direction) == 1,
            weakness: weakness_of(draws),
        }
    }

    pub fn is_chain(&self) -> bool {
        matches!(self.family, Family::Chains | Family::Folded)
    }

    // A chain's far end, and in other games a state that is drawn.
    pub fn first_start(&self) -> u16 {
        if self.is_chain() {
            return if self.downward { self.last() } else { 0 };
        }
        let draws = Draws {
            game: self.game,
            state: 0,
        };
        draws.below(self.states, Purpose::FirstStart)
    }

    // The end that a chain leads to.
    pub fn near_end(&self) -> u16 {
        if self.downward { 0 } else { self.last() }
    }

    fn last(&self) -> u16 {
        self.states.wrapping_sub(1)
    }
}

fn states_of(family: Family, draws: Draws) -> u16 {
    match family {
        Family::Tiny => draws.between(1, 6, Purpose::States),
        Family::Sparse => draws.between(2, 61, Purpose::States),
        Family::Dense => draws.between(2, 64, Purpose::States),
        Family::Wide => draws.between(100, 512, Purpose::States),
        Family::Chains => draws.between(200, 512, Purpose::States),
        Family::Folded => draws.between(50, 300, Purpose::States),
        Family::Full => 512,
    }
}

// At most so many that all states together have no more than 4,096.
fn most_moves_of(family: Family, states: u16, draws: Draws) -> u16 {
    match family {
        Family::Tiny => 6,
        Family::Sparse => 2,
        Family::Dense => 64,
        Family::Wide => draws.between(1, 4096 / states.max(1), Purpose::MostMoves),
        Family::Chains | Family::Folded => 3,
        Family::Full => 8,
    }
}

fn turns_of(draws: Draws) -> Option<Side> {
    match draws.below(6, Purpose::Turns) {
        0 => Some(Side::One),
        1 => Some(Side::Two),
        _ => None,
    }
}

// No state, all states, and shares between.
fn target_of(draws: Draws) -> u16 {
    match draws.below(10, Purpose::Target) {
        0 => 0,
        1 => 1000,
        2 => 500,
        3 => 20,
        4 => 50,
        5 => 100,
        6 => 200,
        7 => 800,
        8 => 900,
        _ => 980,
    }
}

// One start stands in every game; here is how often another state is one too.
fn starts_of(draws: Draws) -> u16 {
    match draws.below(6, Purpose::Starts) {
        0 => 50,
        1 => 500,
        2 => 1000,
        _ => 0,
    }
}

// Long chains are seldom in few blocks, since they take long then.
fn colours_of(family: Family, draws: Draws) -> Option<u16> {
    let most = match family {
        Family::Folded => return Some(1),
        Family::Chains => 20,
        _ => 5,
    };
    match draws.below(most, Purpose::Colours) {
        0 | 3 => Some(1),
        1 => Some(draws.between(2, 4, Purpose::ColourCount)),
        2 => Some(draws.between(5, 32, Purpose::ColourCount)),
        _ => None,
    }
}

fn allowance_of(family: Family, draws: Draws) -> u16 {
    match draws.below(8, Purpose::Allowance) {
        0 => 0,
        1 => 65535,
        2 | 3 => small_allowance(family, draws),
        _ => 511,
    }
}

fn small_allowance(family: Family, draws: Draws) -> u16 {
    let most = match family {
        Family::Tiny => 2,
        Family::Sparse | Family::Dense => 6,
        _ => 100,
    };
    draws.between(1, most, Purpose::SmallAllowance)
}

fn weakness_of(draws: Draws) -> u16 {
    match draws.below(4, Purpose::Weakness) {
        0 => 10,
        _ => 0,
    }
}
