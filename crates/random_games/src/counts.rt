// What is counted over all games, and how it is printed. No `From` makes a u64 of a usize: that is `as`.
use crate::examine::{PairCheck, RunCheck};
use crate::pair::Pair;
use crate::shape::{Family, Objective, Shape, Side};
use crate::sheet::Sheet;
use std::fmt::Display;
use std::io::Write;
use std::{fmt, io};

// What the games are like, and what came out.
#[derive(Clone, Copy)]
enum Kind {
    Games,
    Reach,
    OneStart,
    EmptyTarget,
    FullTarget,
    OneBlockAClass,
    EachABlock,
    States,
    Moves,
    Winners,
    SaidYes,
    SaidNo,
    SaidOpen,
    Splits,
    MostSplits,
    Longest,
}

impl Kind {
    const ALL: [Kind; 16] = [
        Kind::Games,
        Kind::Reach,
        Kind::OneStart,
        Kind::EmptyTarget,
        Kind::FullTarget,
        Kind::OneBlockAClass,
        Kind::EachABlock,
        Kind::States,
        Kind::Moves,
        Kind::Winners,
        Kind::SaidYes,
        Kind::SaidNo,
        Kind::SaidOpen,
        Kind::Splits,
        Kind::MostSplits,
        Kind::Longest,
    ];

    // What a game adds.
    fn amount(self, shape: &Shape, sheet: &Sheet) -> usize {
        let said = &sheet.said;
        match self {
            Kind::Games => 1,
            Kind::Reach => usize::from(shape.objective == Objective::Reach),
            Kind::OneStart => usize::from(sheet.starts() == 1),
            Kind::EmptyTarget => usize::from(sheet.targets() == 0),
            Kind::FullTarget => usize::from(sheet.targets() == sheet.states()),
            Kind::OneBlockAClass => usize::from(shape.colours == Some(1)),
            Kind::EachABlock => usize::from(shape.colours.is_none()),
            Kind::States => sheet.states(),
            Kind::Moves => sheet.board.moves(),
            Kind::Winners => sheet.count(|state| sheet.wins(state)),
            Kind::SaidYes => usize::from(said.winner() == Some(Side::One)),
            Kind::SaidNo => usize::from(said.winner() == Some(Side::Two)),
            Kind::SaidOpen => usize::from(said.is_open()),
            Kind::Splits | Kind::MostSplits => usize::from(said.splits()),
            Kind::Longest => usize::from(sheet.longest()),
        }
    }

    // Of the most splits and moves the largest is kept, and of the rest the sum.
    fn joined(self, count: u64, amount: u64) -> u64 {
        match self {
            Kind::MostSplits | Kind::Longest => count.max(amount),
            _ => count.wrapping_add(amount),
        }
    }
}

impl fmt::Display for Kind {
    fn fmt<W: fmt::Write>(&self, f: &mut fmt::Formatter<W>) -> fmt::Result {
        f.write_str(match self {
            Kind::Games => "games in all",
            Kind::Reach => "games of reach",
            Kind::OneStart => "games with one start",
            Kind::EmptyTarget => "games with an empty target",
            Kind::FullTarget => "games with a full target",
            Kind::OneBlockAClass => "games with one block for each of the marks",
            Kind::EachABlock => "games with each state a block",
            Kind::States => "states",
            Kind::Moves => "moves",
            Kind::Winners => "winning states",
            Kind::SaidYes => "said YES",
            Kind::SaidNo => "said NO",
            Kind::SaidOpen => "said OPEN",
            Kind::Splits => "splits",
            Kind::MostSplits => "most splits in one game",
            Kind::Longest => "most moves of a hunt",
        })
    }
}

// What is counted, and how many there were.
#[derive(Clone, Copy)]
struct Tally<T> {
    what: T,
    count: u64,
}

impl<T> Tally<T> {
    fn of(what: T) -> Tally<T> {
        Tally { what, count: 0 }
    }
}

impl<T: Display> Display for Tally<T> {
    fn fmt<W: fmt::Write>(&self, f: &mut fmt::Formatter<W>) -> fmt::Result {
        write!(f, "{} {}", self.what, self.count)
    }
}

// How many games there are of each family and kind, and how often each check failed: those of a run, which are made of the game and
// of the exchanged game, and those that compare the two.
#[derive(Clone, Copy)]
pub struct Counts {
    families: [Tally<Family>; 7],
    kinds: [Tally<Kind>; 16],
    runs: [Tally<RunCheck>; 14],
    pairs: [Tally<PairCheck>; 8],
}

impl Counts {
    pub fn none() -> Counts {
        Counts {
            families: Family::ALL.map(Tally::of),
            kinds: Kind::ALL.map(Tally::of),
            runs: RunCheck::ALL.map(Tally::of),
            pairs: PairCheck::ALL.map(Tally::of),
        }
    }

    // Counts a game, and names each check that failed and the game's number.
    pub fn count_game<W: Write>(
        &mut self,
        to: &mut W,
        shape: &Shape,
        pair: &Pair,
    ) -> io::Result<()> {
        self.count_kinds(shape, &pair.one);
        for tally in &mut self.runs {
            let failed = u64::from(!tally.what.holds(&pair.one)).wrapping_add(u64::from(
                !tally.what.holds(&pair.other),
            ));
            fail(to, shape.game, tally, failed)?;
        }
        for tally in &mut self.pairs {
            let failed = u64::from(!tally.what.holds(pair));
            fail(to, shape.game, tally, failed)?;
        }
        Ok(())
    }

    fn count_kinds(&mut self, shape: &Shape, sheet: &Sheet) {
        for tally in &mut self.families {
            let is_of = shape.family == tally.what;
            tally.count = tally.count.wrapping_add(u64::from(is_of));
        }
        for tally in &mut self.kinds {
            let amount = tally.what.amount(shape, sheet) as u64;
            tally.count = tally.what.joined(tally.count, amount);
        }
    }
}

fn fail<T: Display, W: Write>(
    to: &mut W,
    game: u64,
    tally: &mut Tally<T>,
    failed: u64,
) -> io::Result<()> {
    tally.count = tally.count.wrapping_add(failed);
    if failed == 0 {
        return Ok(());
    }
    writeln!(to, "game {game}: {} {failed}", tally.what)
}

// One line for each count: its name and its number.
impl Display for Counts {
    fn fmt<W: fmt::Write>(&self, f: &mut fmt::Formatter<W>) -> fmt::Result {
        print_all(f, &self.families)?;
        print_all(f, &self.kinds)?;
        print_all(f, &self.runs)?;
        print_all(f, &self.pairs)
    }
}

fn print_all<T: Display, W: fmt::Write>(
    f: &mut fmt::Formatter<W>,
    tallies: &[Tally<T>],
) -> fmt::Result {
    for tally in tallies {
        writeln!(f, "{tally}")?;
    }
    Ok(())
}
