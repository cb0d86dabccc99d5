// Whether a row of states settles a round, told by the starts.
ghost use Rattle.std.specs.Prelude.{◌≡◌, not, ◌&&◌, ◌≤◌, length, get_or, eqb};
ghost use Rattle.std.specs.Bool.{beq};
ghost use Rattle.std.specs.List.{list_any, zip};
ghost use Rattle.game.specs.Limits.{max_states};
ghost use Rattle.game.specs.Game.{marked};
ghost use Rattle.game.specs.Published.{goal_of};
ghost use Rattle.growth.specs.Stamp.{is_in};
ghost use Rattle.runs.specs.Hunting.{has_way};

use game::has_mark;

// A start that decides: one inside the row for reach, and one outside it for stay.
fn decides(reach: bool, marks: u8, pass: u16) -> bool
    ensures { result ≡ (marked 1 marks && beq (not (eqb pass 0)) reach) }
{
    has_mark(1, marks) && (pass != 0) == reach
}

// Some start decides.
fn some_decides(reach: bool, starts: &[u8], row: &[u16]) -> bool
    ensures { result ≡ list_any (λ p. marked 1 p.0 && beq (not (eqb p.1 0)) reach) (zip starts.now row.now) }
{
    starts
        .iter()
        .zip(row)
        .any(|(marks, pass)| decides(reach, *marks, *pass))
}

// The hunting side has its way: some start is in the row (reach, objective 1), or every start is (stay). The objective is the
// number of the file: the contract speaks of every number.
pub fn has_way(n: usize, objective: u16, starts: &[u8], row: &[u16]) -> bool
    requires { (n ≤ max_states) × (n ≤ length starts.now) × (n ≤ length row.now) }
    ensures { result ≡ has_way (goal_of objective) n (λ s. marked 1 (get_or starts.now s 0)) (is_in row.now) }
{
    let reach = objective == 1;
    some_decides(reach, &starts[..n], &row[..n]) == reach
}
