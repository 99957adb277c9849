// The column of links that an axis follows, found once for a call: the parents of all rows, or the roots of their
// trees. A parent is one more than its row, 0 for none, as `Tree.parent` has it
// and so that the column is half as long as one of options.
#![tactic(auto)]

ghost use Rattle.std.specs.Prelude.{◌≡◌, cond, ◌-◌, ◌<◌, eqb, length};
ghost use Rattle.tree.specs.Table.{at};
ghost use Rattle.scan.specs.OneRole.{Parents, Roots};
ghost use Rattle.links.specs.Links.{Zeros, above_of, climbs_axis, side_axis, UpFor};

pub mod walk; // walk.rt: what all roles of a step have in common

use scan::trees::Trees;

// One more than the row that stands above level l in the path, 0 at level 0.
fn above(l: usize, path: &[usize]) -> usize
    requires { 0 < l → (l < length path.now) × (at path.now (l - 1) < 4096) }
    ensures { result ≡ above_of path.now l }
{
    if l == 0 { 0 } else { path[l - 1] + 1 }
}

// Leaves in `up`, for each row in use, one more than its parent, 0 at a root. The path has, by level, the rows still
// open.
fn parents(trees: &Trees<'_>, up: &mut [usize; 4096])
    ensures { Parents trees.now.level.now trees.now.count up.new }
{
    let level = trees.level;
    let all = &mut up[..];
    let mut path: [usize; 64] = [0; 64];
    all[0] = 0;
    for i in 1..trees.count {
        let l = level[i];
        all[i] = above(l, &path);
        path[l] = i;
    }
}

// The row itself where its level is 0, else the root of the row before.
fn root_at(own: usize, i: usize, before: usize) -> usize
    ensures { result ≡ cond (eqb own 0) i before }
{
    if own == 0 { i } else { before }
}

// Leaves in `up`, which comes with zeros, for each row in use the root of its tree. Where there is one tree, that is
// row 0 for all, and nothing is left to do.
fn roots(trees: &Trees<'_>, up: &mut [usize; 4096])
    requires { Zeros up.old }
    ensures { Roots trees.now.level.now trees.now.count up.new }
{
    if trees.size[0] + 1 == trees.count {
        return;
    }
    let level = trees.level;
    let all = &mut up[..];
    let mut root: usize = 0;
    for i in 0..trees.count {
        root = root_at(level[i], i, root);
        all[i] = root;
    }
}

// Whether the axis follows parents.
fn climbs(axis: usize) -> bool
    ensures { result ≡ climbs_axis axis }
{
    matches!(axis, 5..=7 | 10..=11)
}

// Whether the axis stops at the ends of a tree.
fn sides(axis: usize) -> bool
    ensures { result ≡ side_axis axis }
{
    matches!(axis, 8..=9)
}

// Leaves in `up`, which comes with zeros, what the axis follows: the parents of all rows, or their roots where it stops
// at the ends of a tree.
pub fn up_for(trees: &Trees<'_>, axis: usize, up: &mut [usize; 4096])
    requires { Zeros up.old }
    ensures { UpFor axis trees.now.level.now trees.now.count up.new }
{
    if climbs(axis) {
        parents(trees, up);
    } else if sides(axis) {
        roots(trees, up);
    }
}
