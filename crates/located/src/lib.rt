// Where a row stands: RULES 02, E3. Its parent is searched for once, when its key is found; whoever edits the row reads
// it from what was found.
#![tactic(auto)]

ghost use Rattle.std.specs.Prelude.{◌≡◌, ℕ, ◌+◌, ◌<◌, ◌≤◌, length};
ghost use Rattle.tree.specs.Table.{at};
ghost use Rattle.tree.specs.Tree.{parent};
ghost use Rattle.tree.specs.Outcome.{standing, row_there};

use basics::one_of;
use tree::{Child, Located};

// The row, or an earlier one from which on, before the row, no row has the level up: eight rows are passed over at a
// time.
fn past_eights(level: &[usize], row: usize, up: usize) -> usize
    requires { row ≤ length level.now }
    ensures { (result ≤ row) × ((j : ℕ) → result ≤ j → j < row → at level.now j ≡ up → ⊥) }
{
    let mut i = row;
    // Not `rchunks`: the place where the last eight began is the answer, and would be counted anew.
    while 8 <= i {
        if one_of(level, i - 8, i, up) {
            return i;
        }
        i -= 8;
    }
    i
}

// The parent of a row whose level is one more than up: the nearest earlier row of that level.
pub fn parent_of(level: &[usize], row: usize, up: usize) -> usize
    requires { (row < length level.now) × (at level.now row ≡ up + 1) × (0 < parent level.now row) }
    ensures { parent level.now row ≡ result + 1 }
{
    let mut i = past_eights(level, row, up) - 1;
    // Not `for .. rev()`: there is such a row, and the end of a range would be tested for nothing.
    while level[i] != up {
        i -= 1;
    }
    i
}

// Where a row stands that has a parent unless its level is 0.
pub fn where_is(level: &[usize], row: usize) -> Located
    requires { (row < length level.now) × (0 < at level.now row → 0 < parent level.now row) }
    ensures { result ≡ standing level.now row }
{
    let own = level[row];
    let root = own == 0;
    if root {
        return Located::Root(row);
    }
    let parent = parent_of(level, row, own - 1);
    Located::Under(Child {
        row,
        level: own,
        parent,
    })
}

// The row that stands there.
pub fn row_there(located: Located) -> usize
    ensures { result ≡ row_there located }
{
    match located {
        Located::Root(row) => row,
        Located::Under(child) => child.row,
    }
}
