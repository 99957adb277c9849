// The kept count of the contexts of one role, on every axis. The contexts do not fall: equal ones stand side by side.
#![tactic(auto)]

ghost use Rattle.std.specs.Prelude.{◌≡◌, true, ◌<◌, length};
ghost use Rattle.scan.specs.OneRole.{Roots};
ghost use Rattle.links.specs.Links.{side_axis};
ghost use Rattle.kept_rows.specs.KeptOf.{kept_of, KeptIn};

use kept_rows::{count_ends, kept_distinct, kept_innermost, kept_outermost};
use scan::trees::Trees;

// Axes 8 and 9: in how many trees there are contexts, of one or more: that of the first one, and each whose root is not
// that of the context before. Most often there is one, so first and last are asked before the others.
fn kept_trees(trees: &Trees<'_>, top: &[usize], rows: &[usize]) -> usize
    requires kept_in { KeptIn trees.now rows.now × (0 < length rows.now) }
    requires roots { Roots trees.now.level.now trees.now.count top.now }
    ensures { result ≡ kept_of 8 trees.now.level.now rows.now }
{
    let first = rows[0];
    let last = rows[rows.len() - 1];
    if top[first] == top[last] {
        return 1;
    }
    count_ends(rows, |before, c| top[before] < top[c])
}

// How many distinct contexts of one role remain on an axis when redundant ones are dropped. Of fewer than two all do.
pub fn kept_of(trees: &Trees<'_>, up: &[usize; 4096], rows: &[usize], axis: usize) -> usize
    requires kept_in { KeptIn trees.now rows.now }
    requires roots { side_axis axis ≡ true → Roots trees.now.level.now trees.now.count up.now }
    ensures { result ≡ kept_of axis trees.now.level.now rows.now }
{
    if rows.len() < 2 {
        return rows.len();
    }
    match axis {
        3 | 4 => kept_outermost(trees, rows),
        6 | 7 => kept_innermost(trees, rows),
        8 | 9 => kept_trees(trees, up, rows),
        _ => kept_distinct(trees, rows),
    }
}
