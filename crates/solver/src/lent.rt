// The rows that are handed back.
ghost use Rattle.std.specs.Prelude.{◌≤◌, length};
ghost use Rattle.game.specs.Limits.{max_states};

// The three rows that a caller lends, each with a place for every state that a game may have.
#[derive(Drop)]
pub struct Rows<'a> {
    pub marks: &'a mut [u16],
    pub blocks: &'a mut [u16],
    pub moves: &'a mut [u16],
    ghost room: { (max_states ≤ length marks.now) × (max_states ≤ length blocks.now) × (max_states ≤ length moves.now) },
}
