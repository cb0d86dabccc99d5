// Makes many random games, solves each with the solver and by the published definition without blocks, and checks what the solver
// says against that. It prints what was counted: the kinds of games, the verdicts, and for each check how often it failed, which
// should be never.
#![tactic(auto)]

mod board;
mod counts;
mod examine;
mod follow;
mod make;
mod pair;
mod random;
mod said;
mod settle;
mod shape;
mod sheet;
mod winners;

use counts::Counts;
use input::{FILE_ROOM, filled};
use pair::Pair;
use shape::{GAMES, Shape};
use std::io;
use std::io::Write;

fn main(rt: HostRuntime) -> io::Result<()> {
    let mut to = io::writer(&rt);
    let mut counts = Counts::none();
    for game in 0..GAMES {
        let shape = Shape::of(game);
        counts.count_game(&mut to, &shape, &pair_of(&shape)?)?;
    }
    write!(to, "{counts}")
}

// The game of this shape, and the exchanged game.
fn pair_of(shape: &Shape) -> io::Result<Pair> {
    let mut file = filled::<u8, FILE_ROOM>(0);
    let written = make::write_file(shape, &mut file)?;
    Ok(Pair::of_file(written, shape.allowance))
}
