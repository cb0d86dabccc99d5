// The blocks of an earlier round, had again from a later one by undoing its splits from a log.
ghost use Rattle.std.specs.Prelude.{◌≡◌, ℕ, cond, ◌+◌, ◌≤◌, ◌<◌, length, get_or, set, eqb};
ghost use Rattle.game.specs.Limits.{max_states};
ghost use Rattle.game.specs.Game.{block_at};
ghost use Rattle.game.specs.declared.Game.{Game};
ghost use Rattle.chains.specs.Lent.{Holds};
ghost use Rattle.runs.specs.Run.{lowest_first, round};
ghost use Rattle.runs.specs.Log.{Log};
ghost use Rattle.runs.specs.Grouped.{SameLog};

// Undoes one split, of block `parent`, by which a part of it got this name.
fn undo_split(n: usize, parent: u16, name: u16, block: &mut [u16])
    requires { (n ≤ max_states) × (n ≤ length block.old) }
    ensures { Holds n block.new (λ s. cond (eqb (get_or block.old s 0) name) parent (get_or block.old s 0)) }
{
    for own in &mut block[..n] {
        if *own == name {
            *own = parent;
        }
    }
}

// The splits of a run, and how many there are: split i was of block parents[i], and the part without that state got the name
// names[i]. They are two rows, since `Log` says of each what it holds, and lent ones, of any length that is enough.
#[derive(Clone, Copy)]
pub struct SplitLog<'a> {
    pub parents: &'a [u16],
    pub names: &'a [u16],
    pub made: usize,
}

impl SplitLog<'_> {
    // The blocks of round `earlier` from those of round `later`: the splits between them are undone, the last one first.
    pub fn rewind(&self, n: usize, later: usize, earlier: usize, block: &mut [u16])
        requires { ((g : Game) × (made : ℕ) × Log g n made self.now.parents.now self.now.names.now × (later ≤ made) × (earlier ≤ later) × Holds n block.old (block_at (round lowest_first later g))) × (n ≤ max_states) }
        ensures { (g : Game) (made : ℕ) → Log g n made self.now.parents.now self.now.names.now → later ≤ made → Holds n block.old (block_at (round lowest_first later g)) → Holds n block.new (block_at (round lowest_first earlier g)) }
    {
        for k in (earlier..later).rev() {
            undo_split(n, self.parents[k], self.names[k], block);
        }
    }
}

// The same rows, lent to be written: two structs, since `first_lost` and `last_round` are lent rows to be read.
#[derive(Drop)]
pub struct SplitLogMut<'a> {
    pub parents: &'a mut [u16],
    pub names: &'a mut [u16],
    pub made: usize,
}

impl SplitLogMut<'_> {
    // Writes one split more: of block `parent`, by which a part of it got this name.
    pub fn note(&mut self, parent: u16, name: u16)
        requires { (self.old.made < length self.old.parents.now) × (self.old.made < length self.old.names.now) }
        ensures parents { self.new.parents.now ≡ set self.old.parents.now self.old.made parent }
        ensures names { self.new.names.now ≡ set self.old.names.now self.old.made name }
        ensures made { self.new.made ≡ self.old.made + 1 }
        ensures same { SameLog self.old self.new }
    {
        self.parents[self.made] = parent;
        self.names[self.made] = name;
        self.made += 1;
    }

    // The splits, to be read.
    pub fn shared(&self) -> SplitLog<'_>
        ensures parents { result.parents.now ≡ self.now.parents.now }
        ensures names { result.names.now ≡ self.now.names.now }
        ensures made { result.made ≡ self.now.made }
    {
        SplitLog {
            parents: self.parents,
            names: self.names,
            made: self.made,
        }
    }
}
