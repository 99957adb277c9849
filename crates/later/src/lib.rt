// Following-sibling, group by group. A group is a context and those after it in the same parent's subtree: what the
// group reaches ends where that subtree ends, and the next group begins behind it. Where the contexts of a group have
// one parent, they reach what the first of them reaches, and those rows are written as they are met. What other
// groups reach goes through the set of `one_role`.
#![tactic(auto)]

ghost use Rattle.std.specs.Prelude.{◌≡◌, true, ◌<◌, length};
ghost use Rattle.scan.specs.OneRole.{reached, Contexts, RoleIn, Parents, Wrote};
ghost use Rattle.later.specs.Later.{OneParent, LaterEnd};
ghost use Rattle.axis.specs.Role.{RoleAsk, RoleDone};

use axis::one_role;
use direct::children::append_children;
use links::walk::Walk;
use marks::row_set::RowSet;
use scan::past_tree;
use scan::trees::Trees;

// Whether all contexts of a group have the parent of the first.
fn have_one_parent(trees: &Trees<'_>, up: &[usize; 4096], rows: &[usize]) -> bool
    requires { (0 < length rows.now) × Contexts rows.now trees.now.count }
    ensures { result ≡ true → OneParent up.now rows.now }
{
    let first = rows[0];
    let q = up[first];
    rows.iter().all(|&c| up[c] == q)
}

// Contexts of one parent: writes the later siblings of the first that fit to the front of out; answers how many.
fn siblings_of_first(walk: &Walk<'_>, rows: &[usize], out: &mut [usize]) -> usize
    requires ten { walk.now.axis ≡ 10 }
    requires role_in { RoleIn 10 walk.now.trees walk.now.test rows.now out.old }
    requires one_parent { OneParent walk.now.up.now rows.now }
    ensures { Wrote (reached 10 walk.now.trees walk.now.test rows.now) out.old result out.new }
{
    let size = walk.trees.size;
    let c = rows[0];
    let q = walk.up[c];
    if q == 0 {
        return 0;
    }
    let from = c + size[c] + 1;
    let end = q + size[q - 1];
    append_children(&walk.trees, &walk.test, q - 1, from, end, out, 0)
}

// The contexts of one group: writes their later siblings that fit to the front of out; answers how many. The set is
// empty before and after.
fn group_siblings(walk: &Walk<'_>, rows: &[usize], set: &mut RowSet, out: &mut [usize]) -> usize
    requires ten { (walk.now.axis ≡ 10) × (0 < length rows.now) }
    requires role_ask { RoleAsk walk.now rows.now set.old out.old }
    ensures { RoleDone walk.now rows.now set.new out.old result out.new }
{
    if have_one_parent(&walk.trees, walk.up, rows) {
        return siblings_of_first(walk, rows, out);
    }
    one_role(walk, rows, set, out)
}

// The end of the rows that context c reaches.
fn later_end(trees: &Trees<'_>, up: &[usize; 4096], c: usize) -> usize
    requires { Parents trees.now.level.now trees.now.count up.now × (c < trees.now.count) }
    ensures { LaterEnd trees.now c result }
{
    let q = up[c];
    if q == 0 {
        return c + 1;
    }
    q + trees.size[q - 1]
}

// Axis 10: writes the later siblings of the contexts of one role that fit to the front of out; answers how many. The
// set is empty before and after.
pub fn later_siblings(walk: &Walk<'_>, rows: &[usize], set: &mut RowSet, out: &mut [usize]) -> usize
    requires ten { walk.now.axis ≡ 10 }
    requires role_ask { RoleAsk walk.now rows.now set.old out.old }
    ensures { RoleDone walk.now rows.now set.new out.old result out.new }
{
    let mut next = 0;
    let mut i = 0;
    // From group to group: the next one begins where this one ends.
    while i < rows.len() {
        let end = later_end(&walk.trees, walk.up, rows[i]);
        let j = past_tree(rows, i, end);
        let part = &mut out[next..];
        next += group_siblings(walk, &rows[i..j], set, part);
        i = j;
    }
    next
}
