// The marks at work, and the search by them. Counted loops and `as`: see the head of `chains`.
ghost use Rattle.std.specs.Prelude.{◌≡◌, ◌&&◌, ◌≤◌, length, get_or, leb};
ghost use Rattle.std.specs.List.{position, zip};
ghost use Rattle.game.specs.Limits.{max_states};
ghost use Rattle.game.specs.Rows.{fill, zeros};
ghost use Rattle.game.specs.Game.{marked};
ghost use Rattle.solver.specs.Work.{mark_no, start_found};

use game::{Game, StateNo, has_mark};
use rows::sets::Row;

// 2 for sure, 1 for open, 0 for never, by the passes of the hunting side: in a reach game, objective 1 of the file, it is
// side 1. Marks and the objective stay numbers: callers read the row of marks so, for C too, and the definition `mark_no`
// is said of every objective.
#[tactic(auto, unfolding(crate::specs::Work::mark_no))]
fn mark_no(objective: u16, lower: u16, upper: u16) -> u16
    ensures { result ≡ mark_no objective lower upper }
{
    if lower != 0 {
        if objective == 1 { 2 } else { 0 }
    } else if upper == 0 {
        if objective == 1 { 0 } else { 2 }
    } else {
        1
    }
}

// The mark of each state.
pub fn mark_row(n: usize, objective: u16, lower: &[u16], upper: &[u16]) -> Row
    requires { (n ≤ max_states) × (n ≤ length lower.now) × (n ≤ length upper.now) }
    ensures { result ≡ fill n (λ s. mark_no objective (get_or lower.now s 0) (get_or upper.now s 0)) (zeros max_states) }
{
    let mut marks = [0u16; Game::MAX_STATES];
    for s in 0..n {
        marks[s] = mark_no(objective, lower[s], upper[s]);
    }
    marks
}

// An initial state with at least the mark that is wanted.
fn is_start(marks: u8, mark: u16, wanted: u16) -> bool
    ensures { result ≡ (marked 1 marks && leb wanted mark) }
{
    has_mark(1, marks) && wanted <= mark
}

// The place of the first initial state with at least this mark.
fn first_start(starts: &[u8], marks: &[u16], wanted: u16) -> Option<usize>
    ensures { result ≡ position (λ p. marked 1 p.0 && leb wanted p.1) (zip starts.now marks.now) }
{
    starts
        .iter()
        .zip(marks)
        .position(|(start, mark)| is_start(*start, *mark, wanted))
}

// The lowest-numbered initial state with at least this mark, if there is one.
pub fn lowest_start(n: usize, starts: &[u8], marks: &[u16], wanted: u16) -> Option<StateNo>
    requires { (n ≤ max_states) × (n ≤ length starts.now) × (n ≤ length marks.now) }
    ensures { result ≡ start_found n starts.now marks.now wanted }
{
    let place = first_start(&starts[..n], &marks[..n], wanted)?;
    // The place is proved to fit: try_from would add a failure that cannot come.
    Some(StateNo(place as u16))
}
