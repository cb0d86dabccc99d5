// Rows of plain numbers, and chains of the places of a row that hold the same number. A row is lent whole with the n of its places
// that say something, 512 at most, or the m of moves, 4,096 at most: contracts say `Holds n row` of these, and that later places
// stay where they say `fill`; a type for n would be taken apart at each use, and so would one for `Keys`, `Linked` or `Roomy`,
// which are asked by those that need them and no more. Numbers and places are turned into each other by `as`: proved to lose
// nothing, and plainer than a call whose result each index's proof looks up. A loop over several rows counts the place: what a
// `zip` writes is not known to the proof. The crates above do as this one does.
#![tactic(auto)]

pub mod lent;

ghost use Rattle.std.specs.Prelude.{◌≡◌, cond, ℕ, ◌≤◌, ◌<◌, length, get_or, eqb};
ghost use Rattle.game.specs.Limits.{max_states, max_moves};
ghost use Rattle.game.specs.Rows.{fill};
ghost use Rattle.chains.specs.Lent.{Holds, Keys, many_of, last_below, Linked, rechained};
ghost use Rattle.chains.specs.Grouped.{Roomy, GatheredIn, SameMembers};

use lent::MembersMut;

// Writes 0 into the first n places.
pub fn clear(n: usize, row: &mut [u16])
    requires { n ≤ length row.old }
    ensures { Holds n row.new (λ _. 0) }
{
    row[..n].fill(0);
}

// How many of the first m keys name each place.
pub fn count_keys(n: usize, m: usize, key: &[u16], out: &mut [u16])
    requires { (n ≤ max_states) × (m ≤ max_moves) × Keys n m key.now × Holds n out.old (λ _. 0) }
    ensures { Holds n out.new (many_of m key.now) }
{
    for &c in &key[..m] {
        out[c as usize] += 1;
    }
}

// Links the places with equal keys: the last one of each key, and the one before each, each counted from 1; 0 for none.
pub fn link(n: usize, m: usize, key: &[u16], last: &mut [u16], before: &mut [u16])
    requires { (n ≤ max_states) × (m ≤ max_moves) × Keys n m key.now × (m ≤ length before.old) × Holds n last.old (λ _. 0) }
    ensures { Linked n m key.now last.new before.new }
{
    for k in 0..m {
        let c = key[k] as usize;
        before[k] = last[c];
        last[c] = (k + 1) as u16;
    }
}

// The members of each block as chains, and how many there are: the last member of each block and the one before each
// member, counted from 1; 0 for none.
pub fn gather(n: usize, block: &[u16], members: &mut MembersMut<'_>)
    requires { (n ≤ max_states) × Keys n n block.now × Roomy n members.old }
    ensures gathered { GatheredIn n block.now members.new }
    ensures same { SameMembers members.old members.new }
{
    clear(n, members.last);
    link(n, n, block, members.last, members.before);
    clear(n, members.size);
    count_keys(n, n, block, members.size);
}

// The chain of the members of one block: its last member, counted from 1, and how many there are.
#[derive(Clone, Copy)]
pub struct Chain {
    pub last: u16,
    pub size: u16,
}

// Links the members of block b anew, none of which is below b.
pub fn relink(n: usize, b: usize, block: &[u16], before: &mut [u16]) -> Chain
    requires { (n ≤ max_states) × (b < n) × (n ≤ length block.now) × (n ≤ length before.old) × ((s : ℕ) → s < b → get_or block.now s 0 ≡ b → ⊥) }
    ensures { (result.last ≡ last_below block.now n b) × (result.size ≡ many_of n block.now b) × Holds n before.new (rechained block.now b before.old n) }
{
    let name = b as u16;
    let mut last: u16 = 0;
    let mut size: u16 = 0;
    for s in b..n {
        if block[s] == name {
            before[s] = last;
            last = (s + 1) as u16;
            size += 1;
        }
    }
    Chain { last, size }
}

// How many moves a state needs: one of its own side's, and all of the other's.
fn needed(own: bool, moves: u16) -> u16
    ensures { result ≡ cond own 1 moves }
{
    if own { 1 } else { moves }
}

// From the number of each state's moves, how many it needs.
pub fn need_row(n: usize, turn: &[u8], side: u8, need: &mut [u16])
    requires { (n ≤ max_states) × (n ≤ length turn.now) × (n ≤ length need.old) }
    ensures { Holds n need.new (λ s. cond (eqb (get_or turn.now s 0) side) 1 (get_or need.old s 0)) }
{
    for s in 0..n {
        need[s] = needed(turn[s] == side, need[s]);
    }
}

// Writes the first n places of another row over those of this one. The rest keep their content.
pub fn copy_row(n: usize, values: &[u16], out: &mut [u16])
    requires { (n ≤ length values.now) × (n ≤ length out.old) }
    ensures filled { out.new ≡ fill n (λ s. get_or values.now s 0) out.old }
    ensures held { Holds n out.new (λ s. get_or values.now s 0) }
{
    out[..n].copy_from_slice(&values[..n]);
}
