// Numbers that look random. Each is worked out from the game's number, a state, and what it is drawn for, so every run has the same
// ones. `as` gives an enum's number, and a masked word's low half.
// What is drawn: first for a game as a whole, and from `Turn` on for a state. `Moves` and the numbers after it are for the first move
// of a state, the second, and so on.
#[derive(Clone, Copy)]
pub enum Purpose {
    States = 1,
    MostMoves = 2,
    Objective = 3,
    Turns = 4,
    Target = 5,
    Starts = 6,
    Colours = 7,
    ColourCount = 8,
    Allowance = 9,
    SmallAllowance = 10,
    Direction = 11,
    Weakness = 12,
    Turn = 20,
    Start = 21,
    InTarget = 22,
    Colour = 23,
    MoveCount = 24,
    StepBack = 25,
    HasStepBack = 26,
    LongStep = 27,
    FirstStart = 28,
    Moves = 100,
}

// What is drawn at a state of the game of this number; for the game as a whole the state is 0.
#[derive(Clone, Copy)]
pub struct Draws {
    pub game: u64,
    pub state: u16,
}

impl Draws {
    // A number below `limit`, and 0 where there is none.
    pub fn below(self, limit: u16, purpose: Purpose) -> u16 {
        self.numbered(limit, purpose as u16)
    }

    // A number below `limit` for the move of this number.
    pub fn below_for_move(self, limit: u16, number: u16) -> u16 {
        self.numbered(limit, number.wrapping_add(Purpose::Moves as u16))
    }

    // A number from `low` to `high`.
    pub fn between(self, low: u16, high: u16, purpose: Purpose) -> u16 {
        let count = high.wrapping_sub(low).wrapping_add(1);
        low.wrapping_add(self.below(count, purpose))
    }

    // True `times` times in a thousand.
    pub fn chance(self, times: u16, purpose: Purpose) -> bool {
        self.below(1000, purpose) < times
    }

    fn numbered(self, limit: u16, number: u16) -> u16 {
        let word = ((mixed(self.key(number)) >> 20) & 0xffff) as u16;
        word.checked_rem(limit).unwrap_or(0)
    }

    // Different for any two that differ in the game, the state or the number.
    fn key(self, number: u16) -> u64 {
        let place = (u64::from(number) << 16).wrapping_add(u64::from(self.state));
        (self.game << 32).wrapping_add(place)
    }
}

// Stirs the bits of a key: sums, which carry upwards, take turns with shifts down.
fn mixed(key: u64) -> u64 {
    let first = plus_shifted(!key, key, 21);
    let second = first ^ (first >> 24);
    let third = plus_shifted(plus_shifted(second, second, 3), second, 8);
    let fourth = third ^ (third >> 14);
    let fifth = plus_shifted(plus_shifted(fourth, fourth, 2), fourth, 4);
    let sixth = fifth ^ (fifth >> 28);
    plus_shifted(sixth, sixth, 31)
}

// `value` moved up by `places` bits and added to `plus`; what does not fit falls away.
fn plus_shifted(plus: u64, value: u64, places: u32) -> u64 {
    plus.wrapping_add(value.wrapping_shl(places))
}
