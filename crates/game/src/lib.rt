// The game of 01: its numbers, its limits, and its rows.
#![tactic(auto)]

ghost use Rattle.std.specs.Prelude.{◌≡◌};
ghost use Rattle.game.specs.Game.{marked, empty_game};

// The number of one state.
#[derive(Clone, Copy, Debug, PartialEq, Eq, PartialOrd, Ord, Hash)]
pub struct StateNo(pub u16);

// The number of a block, which is its lowest member's.
#[derive(Clone, Copy, Debug, PartialEq, Eq, PartialOrd, Ord, Hash)]
pub struct BlockNo(pub u16);

// A game of at most `MAX_STATES` states and `MAX_MOVES` moves. The first places of each row, one per state or per
// move, say the game; the rest are 0. The objective is 1 for reach and 2 for stay, a turn is 1 or 2, marks are 1 for
// an initial state, 2 for a target state, 3 for both and 0 for neither. They stay numbers, and rows with a length beside
// them: `turn_at`, `marks_at`, `block_at` and the contract of `decode` (`game_of`) read them so.
#[derive(Clone, Copy)]
pub struct Game {
    pub states: usize,
    pub moves: usize,
    pub objective: u16,
    pub turn: [u8; Game::MAX_STATES],
    pub marks: [u8; Game::MAX_STATES],
    pub block: [BlockNo; Game::MAX_STATES],
    pub from: [StateNo; Game::MAX_MOVES],
    pub to: [StateNo; Game::MAX_MOVES],
}

impl Game {
    pub const MAX_STATES: usize = 512;

    pub const MAX_MOVES: usize = 4096;

    // The game of no states and no moves: all rows 0.
    #[tactic(auto, unfolding(crate::specs::Game::empty_game, crate::specs::Rows::blank))]
    pub fn empty() -> Game
        ensures { result ≡ empty_game }
    {
        Game {
            states: 0,
            moves: 0,
            objective: 0,
            turn: [0; Game::MAX_STATES],
            marks: [0; Game::MAX_STATES],
            block: [BlockNo(0); Game::MAX_STATES],
            from: [StateNo(0); Game::MAX_MOVES],
            to: [StateNo(0); Game::MAX_MOVES],
        }
    }
}

// The marks of a state hold this one: 1 initial, 2 target. Both stay numbers: `marked` is said of every number.
pub fn has_mark(mark: u8, marks: u8) -> bool
    ensures { result ≡ marked mark marks }
{
    marks == mark || marks == 3
}
