// Rows that travel together: those of a game's moves, of the whole game, and of the members of its blocks.
ghost use Rattle.std.specs.Prelude.{◌≡◌};

// The moves of a game: how many states and moves there are, the states that each move leaves and goes to, the chains of the moves into each
// state, and how many moves each state needs.
#[derive(Clone, Copy)]
pub struct Moves<'a> {
    pub states: usize,
    pub moves: usize,
    pub from: &'a [u16],
    pub to: &'a [u16],
    pub last: &'a [u16],
    pub before: &'a [u16],
    pub need: &'a [u16],
}

// What stays as it is in all rounds: the objective, the side that hunts, whose turn each state is, the marks of the file, the prey, where
// each state's moves begin, and the moves. Objective and side are the numbers of the file, since `has_way` and `hunting_side` answer for every number.
#[derive(Clone, Copy)]
pub struct Board<'a> {
    pub objective: u16,
    pub side: u8,
    pub turn: &'a [u8],
    pub starts: &'a [u8],
    pub prey: &'a [u16],
    pub first: &'a [u16],
    pub moves: Moves<'a>,
}

// The members of each block as chains, and how many there are: the last member of each block and the one before each member, counted
// from 1; 0 for none, as `last_of` has it. They are three rows, since `link` chains moves and members alike and `count_keys` counts both.
#[derive(Clone, Copy)]
pub struct Members<'a> {
    pub last: &'a [u16],
    pub before: &'a [u16],
    pub size: &'a [u16],
}

// The same rows, lent to be written. They are two structs, since `grow` and `border_block` are lent rows to be read: one struct
// would ask of their callers that they may write.
#[derive(Drop)]
pub struct MembersMut<'a> {
    pub last: &'a mut [u16],
    pub before: &'a mut [u16],
    pub size: &'a mut [u16],
}

impl MembersMut<'_> {
    // The rows, to be read.
    pub fn shared(&self) -> Members<'_>
        ensures last { result.last.now ≡ self.now.last.now }
        ensures before { result.before.now ≡ self.now.before.now }
        ensures size { result.size.now ≡ self.now.size.now }
    {
        Members {
            last: self.last,
            before: self.before,
            size: self.size,
        }
    }
}
