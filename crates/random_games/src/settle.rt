// Rows that are worked out by passes over the states, until a pass changes nothing: who wins, and how long a plan takes.

// Gives each state what it comes to by what the row holds at present, until nothing changes. In the rows here each pass that changes
// anything settles at least one state for good, so as many passes as there are states are enough.
pub fn settle<T: Copy + PartialEq, F: Fn(&[T], usize) -> T>(row: &mut [T], renewed: F)
    requires { F.IsAlwaysCallable renewed }
{
    for _ in 0..row.len() {
        if !pass(row, &renewed) {
            return;
        }
    }
}

// Goes over the states, the last one first, and answers whether one changed.
fn pass<T: Copy + PartialEq, F: Fn(&[T], usize) -> T>(row: &mut [T], renewed: &F) -> bool
    requires { F.IsAlwaysCallable renewed.now }
{
    let mut changed = false;
    for state in (0..row.len()).rev() {
        let before = row[state];
        let after = renewed(row, state);
        row[state] = after;
        changed |= before != after;
    }
    changed
}
