// The rows on an axis of one role's contexts, as a set of rows: the axes whose rows do not come out in order. The
// cost is that of the contexts and of the rows that go in, each once: no walk goes on over rows that are in the set
// already. What is put in for a context is a function of its own for each axis, and so is the loop over the contexts:
// one loop for all would need a step whose contract says what these four say, by the axis.
ghost use Rattle.std.specs.Prelude.{◌+◌, take, drop};
ghost use Rattle.scan.specs.OneRole.{Parents};
ghost use Rattle.marks.specs.RowSet.{Marks, Marked};
ghost use Rattle.marks.specs.Mark.{Turn};

use super::row_set::RowSet;
use super::walk::add_children;
use scan::trees::Trees;

// Marks the children of context number i.
fn children_of(trees: &Trees<'_>, rows: &[usize], i: usize, set: &mut RowSet)
    requires { Turn 2 trees.now rows.now i (take i rows.now) set.old }
    ensures { Marked 2 trees.now (take (i + 1) rows.now) set.new }
{
    let c = rows[i];
    add_children(trees, c, c + 1, c + trees.size[c] + 1, set);
}

// Marks the parent of context number i, if it has one.
fn parent_of(trees: &Trees<'_>, up: &[usize; 4096], rows: &[usize], i: usize, set: &mut RowSet)
    requires turn { Turn 5 trees.now rows.now i (take i rows.now) set.old }
    requires parents { Parents trees.now.level.now trees.now.count up.now }
    ensures { Marked 5 trees.now (take (i + 1) rows.now) set.new }
{
    let c = rows[i];
    let q = up[c];
    if q == 0 {
        return;
    }
    set.add(q - 1);
}

// Marks the later siblings of context number i.
fn later_siblings_of(
    trees: &Trees<'_>,
    up: &[usize; 4096],
    rows: &[usize],
    i: usize,
    set: &mut RowSet,
)
    requires turn { Turn 10 trees.now rows.now i (take i rows.now) set.old }
    requires parents { Parents trees.now.level.now trees.now.count up.now }
    ensures { Marked 10 trees.now (take (i + 1) rows.now) set.new }
{
    let size = trees.size;
    let c = rows[i];
    let q = up[c];
    if q == 0 {
        return;
    }
    let p = q - 1;
    add_children(trees, p, c + size[c] + 1, p + size[p] + 1, set);
}

// Marks the earlier siblings of context number i; the contexts after it are marked.
fn earlier_siblings_of(
    trees: &Trees<'_>,
    up: &[usize; 4096],
    rows: &[usize],
    i: usize,
    set: &mut RowSet,
)
    requires turn { Turn 11 trees.now rows.now i (drop (i + 1) rows.now) set.old }
    requires parents { Parents trees.now.level.now trees.now.count up.now }
    ensures { Marked 11 trees.now (drop i rows.now) set.new }
{
    let c = rows[i];
    let q = up[c];
    if q == 0 {
        return;
    }
    let p = q - 1;
    add_children(trees, p, p + 1, c, set);
}

// Axis 2: the children of the contexts.
pub fn mark_children(trees: &Trees<'_>, rows: &[usize], set: &mut RowSet)
    requires { Marks trees.now rows.now set.old }
    ensures { Marked 2 trees.now rows.now set.new }
{
    for i in 0..rows.len() {
        children_of(trees, rows, i, set);
    }
}

// Axis 5: the parents of the contexts.
pub fn mark_parents(trees: &Trees<'_>, up: &[usize; 4096], rows: &[usize], set: &mut RowSet)
    requires marks { Marks trees.now rows.now set.old }
    requires parents { Parents trees.now.level.now trees.now.count up.now }
    ensures { Marked 5 trees.now rows.now set.new }
{
    for i in 0..rows.len() {
        parent_of(trees, up, rows, i, set);
    }
}

// Axis 10: the later siblings of the contexts.
pub fn mark_later_siblings(trees: &Trees<'_>, up: &[usize; 4096], rows: &[usize], set: &mut RowSet)
    requires marks { Marks trees.now rows.now set.old }
    requires parents { Parents trees.now.level.now trees.now.count up.now }
    ensures { Marked 10 trees.now rows.now set.new }
{
    for i in 0..rows.len() {
        later_siblings_of(trees, up, rows, i, set);
    }
}

// Axis 11: the earlier siblings of the contexts, from the last context to the first.
pub fn mark_earlier_siblings(
    trees: &Trees<'_>,
    up: &[usize; 4096],
    rows: &[usize],
    set: &mut RowSet,
)
    requires marks { Marks trees.now rows.now set.old }
    requires parents { Parents trees.now.level.now trees.now.count up.now }
    ensures { Marked 11 trees.now rows.now set.new }
{
    for i in (0..rows.len()).rev() {
        earlier_siblings_of(trees, up, rows, i, set);
    }
}
