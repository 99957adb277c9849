// The sizes above an edited row: RULES 01, "Finding and editing by key"; RULES 02, E3. They change on the way up from
// the parent that was found with the row; each next ancestor is the nearest earlier row one level up.
#![tactic(auto)]

ghost use Rattle.std.specs.Prelude.{◌≡◌, true, ℕ, ◌+◌, ◌-◌, ◌<◌, ◌≤◌, length, set};
ghost use Rattle.tree.specs.Table.{at};
ghost use Rattle.tree.specs.Tree.{ancestor};
ghost use Rattle.tree.specs.Edit.{changed};
ghost use Rattle.tree.specs.Outcome.{row_there};
ghost use Rattle.tree.specs.declared.Located.TheVariants.{Under};
ghost use Rattle.sizes.specs.Upward.{up_from, resized, Resizable, Stands};

use tree::{Child, Located};

// The sizes of a row and of all its ancestors rise by `more` and fall by `less`.
fn resize_up(
    size: &mut [usize],
    level: &[usize],
    count: usize,
    row: usize,
    more: usize,
    less: usize,
)
    requires { Resizable size.old level.now count row more less }
    ensures { size.new ≡ resized level.now row more less size.old }
{
    let mut i = row;
    for up in (0..level[row]).rev() {
        size[i] = size[i] + more - less;
        i = located::parent_of(level, i, up);
    }
    size[i] = size[i] + more - less;
}

// The size of a row rises by `by`.
fn enlarge(size: &mut [usize], row: usize, by: usize)
    requires { (row < length size.old) × (at size.old row ≤ 4096) × (by ≤ 4096) }
    ensures { size.new ≡ set size.old row (at size.old row + by) }
{
    size[row] += by;
}

// The sizes of the row that was found and of all its ancestors rise by `by`.
pub fn raise(size: &mut [usize], level: &[usize], count: usize, located: Located, by: usize)
    requires { Stands size.old level.now count located × (by ≤ 4096) }
    ensures { size.new
        ≡ changed (up_from level.now (row_there located)) (λ s. s + by) size.old }
{
    match located {
        Located::Root(row) => enlarge(size, row, by),
        Located::Under(child) => {
            resize_up(size, level, count, child.parent, by, 0);
            enlarge(size, child.row, by);
        }
    }
}

// The sizes of all ancestors of a row that has a parent fall by `by`.
pub fn lower(size: &mut [usize], level: &[usize], count: usize, child: Child, by: usize)
    requires stands { Stands size.old level.now count (Under child) }
    requires by_index { (i : ℕ) → ancestor level.now i child.row ≡ true → by ≤ at size.old i }
    ensures { size.new
        ≡ changed (λ i. ancestor level.now i child.row) (λ s. s - by) size.old }
{
    resize_up(size, level, count, child.parent, 0, by);
}
