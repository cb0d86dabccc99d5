// The game file: every refusal of 01, in its order.
#![tactic(auto)]

ghost use Rattle.std.specs.Prelude.{◌≡◌, ◌+◌, ◌*◌, ◌≤◌, ◌<◌, length};
ghost use Rattle.arena.specs.Sets.{some, every};
ghost use Rattle.game.specs.Limits.{max_states, max_moves};
ghost use Rattle.game.specs.Game.{within, marked};
ghost use Rattle.file.specs.Number.{fault_of};
ghost use Rattle.file.specs.Fault.{lowest};
ghost use Rattle.file.specs.Layout.{marks, number_of, length_of, Counted, number_at, states, moves, state_at, move_at};
ghost use Rattle.file.specs.Refusals.{Moved, frame, head_fields, head_fault, state_fields, state_fault, pair_below, ascends, move_fields, move_fault, initial, moved, mixed, block_fault, whole_fault, refusal};
ghost use Rattle.file.specs.Sound.{Sound};

use game::{Game, has_mark};

pub mod refusal;

pub use refusal::Refusal;

// The two bytes at a place, the low one first. The file and the place stay parameters: it is public, docs/DECISIONS.md
// names it, and its callers read at places of their own.
#[tactic(auto, unfolding(crate::specs::Layout::number_at))]
pub fn number_at(file: &[u8], at: usize) -> u16
    requires { at + 1 < length file.now }
    ensures { result ≡ number_at file.now at }
{
    u16::from_le_bytes([file[at], file[at + 1]])
}

// The kinds of record.
#[derive(Clone, Copy, Debug, PartialEq, Eq, Hash)]
enum Kind {
    Head,
    State,
    Move,
}

impl Kind {
    // The number that stands for the kind.
    fn number(self) -> u16
        ensures { result ≡ number_of self }
    {
        match self {
            Kind::Head => 1,
            Kind::State => 2,
            Kind::Move => 3,
        }
    }

    // How many bytes follow the length field.
    fn length(self) -> u16
        ensures { result ≡ length_of self }
    {
        match self {
            Kind::Head => 8,
            Kind::State | Kind::Move => 6,
        }
    }
}

// What a record of this kind at this place is refused for, before its fields are looked at.
#[tactic(auto, using(crate::proofs::Laws::chain), unfolding(crate::specs::Refusals::frame))]
fn frame_fault(file: &[u8], at: usize, kind: Kind) -> Result<(), Refusal>
    requires { at < 65536 }
    ensures { fault_of result ≡ frame file.now at (length_of kind) (number_of kind) }
{
    if file.len() < at + 4 {
        return Err(Refusal::CutShort);
    }
    if number_at(file, at) != kind.length() || number_at(file, at + 2) != kind.number() {
        return Err(Refusal::OtherRecord);
    }
    if file.len() < at + 2 + usize::from(kind.length()) {
        return Err(Refusal::CutShort);
    }
    Ok(())
}

// The two bytes at a place are a number from low to high.
fn number_within(file: &[u8], at: usize, low: usize, high: usize) -> bool
    requires { at + 1 < length file.now }
    ensures { result ≡ within low high (number_at file.now at) }
{
    (low..=high).contains(&usize::from(number_at(file, at)))
}

// What the fields of the head are refused for.
#[tactic(auto, using(crate::proofs::Laws::chain), unfolding(crate::specs::Refusals::head_fields))]
fn head_fields(file: &[u8]) -> Result<(), Refusal>
    requires { 10 ≤ length file.now }
    ensures { fault_of result ≡ head_fields file.now }
{
    if !number_within(file, 4, 1, Game::MAX_STATES)
        || !number_within(file, 6, 1, Game::MAX_MOVES)
        || !number_within(file, 8, 1, 2)
    {
        return Err(Refusal::BadHead);
    }
    Ok(())
}

#[tactic(auto, using(crate::proofs::Laws::chain), unfolding(crate::specs::Refusals::head_fault))]
fn head_fault(file: &[u8]) -> Result<(), Refusal>
    ensures { fault_of result ≡ head_fault file.now }
{
    frame_fault(file, 0, Kind::Head)?;
    head_fields(file)
}

// The pair of the move whose record stands at this place: the states that it leads from and to.
fn pair_at(file: &[u8], at: usize) -> (u16, u16)
    requires { at + 8 ≤ length file.now }
    ensures { (result.0 ≡ number_at file.now (at + 4)) × (result.1 ≡ number_at file.now (at + 6)) }
{
    (number_at(file, at + 4), number_at(file, at + 6))
}

// What the fields of state s are refused for.
#[tactic(auto, using(crate::proofs::Laws::chain), unfolding(crate::specs::Refusals::state_fields))]
fn state_fields(file: &[u8], s: usize) -> Result<(), Refusal>
    requires { (s < max_states) × (state_at s + 8 ≤ length file.now) }
    ensures { fault_of result ≡ state_fields file.now s }
{
    let at = 10 + 8 * s;
    let turn = file[at + 4];
    if turn < 1 || turn > 2 || file[at + 5] > 3 {
        return Err(Refusal::BadState);
    }
    let block = number_at(file, at + 6);
    let lowest = usize::from(block);
    if lowest > s || number_at(file, 10 + 8 * lowest + 6) != block {
        return Err(Refusal::BadState);
    }
    Ok(())
}

#[tactic(auto, using(crate::proofs::Laws::chain), unfolding(crate::specs::Refusals::state_fault))]
fn state_fault(file: &[u8], s: usize) -> Result<(), Refusal>
    requires { s < max_states }
    ensures { fault_of result ≡ state_fault file.now s }
{
    frame_fault(file, 10 + 8 * s, Kind::State)?;
    state_fields(file, s)
}

// Where the record of move k stands, in a file of n states. The file and n stay parameters: it is public, and
// docs/DECISIONS.md names it.
#[tactic(auto, unfolding(crate::specs::Layout::move_at))]
pub fn move_at(file: &[u8], n: usize, k: usize) -> usize
    requires { (n ≡ states file.now) × (n ≤ max_states) × (k ≤ max_moves) }
    ensures { (result ≡ move_at file.now k) × (result < 65536) }
{
    10 + 8 * n + 8 * k
}

// A file and the numbers of states and moves that its head says.
#[derive(Clone, Copy)]
struct Records<'a> {
    file: &'a [u8],
    states: usize,
    moves: usize,
    ghost counted: { Counted file.now states moves },
}

impl Records<'_> {
    // What the first faulty state record is refused for.
    #[tactic(auto, using(crate::proofs::Laws::records))]
    fn states_fault(&self) -> Result<(), Refusal>
        ensures { fault_of result ≡ lowest self.now.states (state_fault self.now.file.now) }
    {
        for s in 0..self.states {
            state_fault(self.file, s)?;
        }
        Ok(())
    }

    // Where the record of move k stands.
    fn move_at(&self, k: usize) -> usize
        requires { k ≤ max_moves }
        ensures { (result ≡ move_at self.now.file.now k) × (result < 65536) }
    {
        move_at(self.file, self.states, k)
    }

    // The pair of move k, whose record stands at this place, is above the one before.
    #[tactic(auto, unfolding(crate::specs::Refusals::ascends, crate::specs::Refusals::pair_below))]
    fn ascends_at(&self, k: usize, at: usize) -> bool
        requires { (at ≡ move_at self.now.file.now k) × (k < max_moves) × (at + 8 ≤ length self.now.file.now) }
        ensures { result ≡ ascends self.now.file.now k }
    {
        if k == 0 {
            return true;
        }
        let before = self.move_at(k - 1);
        pair_at(self.file, before) < pair_at(self.file, at)
    }

    // What the fields of move k, whose record stands at this place, are refused for.
    #[tactic(auto, using(crate::proofs::Laws::chain), unfolding(crate::specs::Refusals::move_fields))]
    fn move_fields(&self, k: usize, at: usize) -> Result<(), Refusal>
        requires { (at ≡ move_at self.now.file.now k) × (k < max_moves) × (at + 8 ≤ length self.now.file.now) }
        ensures { fault_of result ≡ move_fields self.now.file.now k }
    {
        let (from, to) = pair_at(self.file, at);
        if usize::from(from) >= self.states
            || usize::from(to) >= self.states
            || !self.ascends_at(k, at)
        {
            return Err(Refusal::BadMove);
        }
        Ok(())
    }

    #[tactic(auto, using(crate::proofs::Laws::chain), unfolding(crate::specs::Refusals::move_fault))]
    fn move_fault(&self, k: usize) -> Result<(), Refusal>
        requires { k < max_moves }
        ensures { fault_of result ≡ move_fault self.now.file.now k }
    {
        let at = self.move_at(k);
        frame_fault(self.file, at, Kind::Move)?;
        self.move_fields(k, at)
    }

    // What the first faulty move record is refused for.
    #[tactic(auto, using(crate::proofs::Laws::records))]
    fn moves_fault(&self) -> Result<(), Refusal>
        ensures { fault_of result ≡ lowest self.now.moves (move_fault self.now.file.now) }
    {
        for k in 0..self.moves {
            self.move_fault(k)?;
        }
        Ok(())
    }
}

// The records of a file in which each one is without fault.
#[derive(Clone, Copy)]
struct SoundRecords<'a> {
    records: Records<'a>,
    ghost sound: { Sound records.file.now },
}

impl SoundRecords<'_> {
    // Some state is initial.
    fn some_initial(&self) -> bool
        ensures { result ≡ some self.now.records.states (initial self.now.records.file.now) }
    {
        (0..self.records.states).any(|s| has_mark(1, self.records.file[10 + 8 * s + 5]))
    }

    // For each state, whether it has a move. The memory is fixed: the row has a place for each state that a game may have.
    fn moved_row(&self) -> [bool; Game::MAX_STATES]
        ensures { Moved self.now.records.file.now result }
    {
        let mut has = [false; Game::MAX_STATES];
        for k in 0..self.records.moves {
            let (from, _) = pair_at(self.records.file, self.records.move_at(k));
            has[usize::from(from)] = true;
        }
        has
    }

    // Every state has a move.
    fn all_moved(&self) -> bool
        ensures { result ≡ every self.now.records.states (moved self.now.records.file.now) }
    {
        self.moved_row()[..self.records.states]
            .iter()
            .all(|&has| has)
    }

    // Some block has members with this mark, and others. Each state is held against the one that names its block, so
    // one walk is enough.
    fn mixed_blocks(&self, mark: u8) -> bool
        ensures { result ≡ mixed self.now.records.file.now (λ s. marked mark (marks self.now.records.file.now s)) }
    {
        (0..self.records.states).any(|s| {
            let block = usize::from(number_at(self.records.file, 10 + 8 * s + 6));
            has_mark(mark, self.records.file[10 + 8 * s + 5])
                != has_mark(mark, self.records.file[10 + 8 * block + 5])
        })
    }

    // What the blocks of a file with sound records are refused for.
    #[tactic(auto, using(crate::proofs::Laws::chain), unfolding(crate::specs::Refusals::block_fault))]
    fn block_fault(&self) -> Result<(), Refusal>
        ensures { fault_of result ≡ block_fault self.now.records.file.now }
    {
        if self.mixed_blocks(1) {
            return Err(Refusal::MixedStarts);
        }
        if self.mixed_blocks(2) {
            return Err(Refusal::MixedTarget);
        }
        Ok(())
    }

    // What a file with sound records is refused for.
    #[tactic(auto, using(crate::proofs::Laws::chain), unfolding(crate::specs::Refusals::whole_fault))]
    fn whole_fault(&self) -> Result<(), Refusal>
        ensures { fault_of result ≡ whole_fault self.now.records.file.now }
    {
        if self.records.file.len() > self.records.move_at(self.records.moves) {
            return Err(Refusal::BytesAtEnd);
        }
        if !self.some_initial() {
            return Err(Refusal::NoStart);
        }
        if !self.all_moved() {
            return Err(Refusal::NoMove);
        }
        self.block_fault()
    }
}

// The first refusal of a file, or none of an accepted one. Any byte string will do.
#[tactic(auto, using(crate::proofs::Laws::chain), unfolding(crate::specs::Refusals::refusal))]
pub fn first_refusal(file: &[u8]) -> Result<(), Refusal>
    ensures { fault_of result ≡ refusal file.now }
{
    head_fault(file)?;
    let records = Records {
        file,
        states: usize::from(number_at(file, 4)),
        moves: usize::from(number_at(file, 6)),
    };
    records.states_fault()?;
    records.moves_fault()?;
    SoundRecords { records }.whole_fault()
}
