// Who hunts, and where the hunting side wants the play.
ghost use Rattle.std.specs.Prelude.{◌≡◌, not, cond, ◌≤◌, get_or, T, eqb};
ghost use Rattle.arena.specs.Sets.{bit};
ghost use Rattle.game.specs.Limits.{max_states};
ghost use Rattle.game.specs.Rows.{fill, zeros};
ghost use Rattle.game.specs.Game.{known_turn, marked};
ghost use Rattle.game.specs.Published.{side_of, goal_of};
ghost use Rattle.blocks.specs.Hunt.{hunter, prey};

use game::{Game, has_mark};

// A row of passes, of fixed size: nothing is allocated.
pub type PassRow = [u16; Game::MAX_STATES];

// The side that wants to bring the play somewhere: side 1 to the target, or side 2 out of it. Objectives and sides are the
// numbers of the file, as the clause has them, and any number has an answer.
pub fn hunting_side(objective: u16) -> u8
    ensures { (side_of result ≡ hunter (goal_of objective)) × T (known_turn result) }
{
    if objective == 1 { 1 } else { 2 }
}

// 1 where the hunting side wants the play: in the target of a reach game, and outside it in a stay game.
fn prey_no(objective: u16, marks: u8) -> u16
    ensures { result ≡ bit (cond (eqb objective 1) (marked 2 marks) (not (marked 2 marks))) }
{
    if (objective == 1) == has_mark(2, marks) {
        1
    } else {
        0
    }
}

// Pass 1: the target of a reach game, and what lies outside the target of a stay game. The marks are an array, whose length
// is its type's: a slice of them would ask for one more clause.
pub fn prey_row(n: usize, objective: u16, marks: [u8; Game::MAX_STATES]) -> PassRow
    requires { n ≤ max_states }
    ensures { result ≡ fill n (λ s. bit (prey (goal_of objective) (λ t. marked 2 (get_or marks t 0)) s)) (zeros max_states) }
{
    let mut row = [0u16; Game::MAX_STATES];
    for s in 0..n {
        row[s] = prey_no(objective, marks[s]);
    }
    row
}
