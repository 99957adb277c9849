// One role: the rows that its contexts reach on an axis, each arm one axis of the definition.
#![tactic(auto)]

ghost use Rattle.std.specs.Prelude.{◌≡◌, true};
ghost use Rattle.scan.specs.OneRole.{reached, RoleIn, Wrote};
ghost use Rattle.marks.specs.RowSet.{Marks, Marked};
ghost use Rattle.axis.specs.Role.{ranged_axis, above_axis, marked_axis, RoleAsk, RoleDone};

use links::walk::Walk;
use marks::mark;
use marks::row_set::RowSet;
use ways::rows_above;

// Whether the rows of the axis come out as ranges.
fn is_ranged(axis: usize) -> bool
    ensures { result ≡ ranged_axis axis }
{
    matches!(axis, 1 | 3..=4 | 8..=9)
}

// The axes whose rows come out as ranges: writes the rows to the front of out, answers how many.
fn ranged(walk: &Walk<'_>, rows: &[usize], out: &mut [usize]) -> usize
    requires axis_value { ranged_axis walk.now.axis ≡ true }
    requires role_in { RoleIn walk.now.axis walk.now.trees walk.now.test rows.now out.old }
    ensures { Wrote (reached walk.now.axis walk.now.trees walk.now.test rows.now) out.old result out.new }
{
    let trees = &walk.trees;
    let up = walk.up;
    let test = &walk.test;
    match walk.axis {
        1 => span::own_rows(trees, test, rows, out),
        3 => span::rows_below(trees, test, rows, 1, out),
        4 => span::rows_below(trees, test, rows, 0, out),
        8 => following::rows_after(trees, up, test, rows, out),
        _ => preceding::rows_before(trees, up, test, rows, out),
    }
}

// Whether the rows of the axis are on the ways up from the contexts.
fn is_above(axis: usize) -> bool
    ensures { result ≡ above_axis axis }
{
    matches!(axis, 6..=7)
}

// The other axes: puts the rows into the set.
fn marked(walk: &Walk<'_>, rows: &[usize], set: &mut RowSet)
    requires axis_value { marked_axis walk.now.axis ≡ true }
    requires marks { Marks walk.now.trees rows.now set.old }
    ensures { Marked walk.now.axis walk.now.trees rows.now set.new }
{
    let trees = walk.trees;
    match walk.axis {
        2 => mark::mark_children(&trees, rows, set),
        5 => mark::mark_parents(&trees, walk.up, rows, set),
        10 => mark::mark_later_siblings(&trees, walk.up, rows, set),
        _ => mark::mark_earlier_siblings(&trees, walk.up, rows, set),
    }
}

// The rows that one role reaches, written to the front of out; answers how many. The set is empty before and after.
// Faster are `lone::lone_rows` for one context where `lone::is_upward` holds, `direct::earlier::rising_rows` where
// `is_rising` does, and `later::later_siblings` on following-sibling.
pub fn one_role(walk: &Walk<'_>, rows: &[usize], set: &mut RowSet, out: &mut [usize]) -> usize
    requires { RoleAsk walk.now rows.now set.old out.old }
    ensures { RoleDone walk.now rows.now set.new out.old result out.new }
{
    if is_ranged(walk.axis) {
        return ranged(walk, rows, out);
    }
    if is_above(walk.axis) {
        return rows_above(&walk.trees, walk.up, &walk.test, rows, walk.axis - 6, out);
    }
    marked(walk, rows, set);
    set.drain(&walk.test, walk.trees.count, out)
}
