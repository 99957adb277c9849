// The axis preceding: in a tree its rows are ranges between the ancestors of the last context there.
#![tactic(auto)]

ghost use Rattle.std.specs.Prelude.{◌<◌, ◌≤◌};
ghost use Rattle.scan.specs.OneRole.{reached, RoleIn, Roots, Wrote};
ghost use Rattle.scan.specs.Range.{Nests, Ended};

use scan::trees::Trees;
use scan::want::NodeTest;
use scan::{emit, past_tree};

// The next row from `w` on whose subtree does not end before row c: an ancestor of c, or c itself. It hops from
// subtree to subtree.
fn next_open(size: &[usize], count: usize, w: usize, c: usize) -> usize
    requires { Nests size.now count × (w ≤ c) × (c < count) }
    ensures { Ended size.now c w result }
{
    let mut v = w;
    // From subtree to subtree.
    while v + size[v] < c {
        v += size[v] + 1;
    }
    v
}

// Axis 9: writes the rows that come before a context of one role in its tree, are not its ancestors and fit to the
// front of `out`; answers how many. In a tree, between two ancestors of the last context there they are one range.
#[tactic(auto, using(scan::proofs::TreeContextLaws::root_in))]
pub fn rows_before(
    trees: &Trees<'_>,
    top: &[usize],
    test: &NodeTest<'_>,
    rows: &[usize],
    out: &mut [usize],
) -> usize
    requires role_in { RoleIn 9 trees.now test.now rows.now out.old }
    requires roots { Roots trees.now.level.now trees.now.count top.now }
    ensures { Wrote (reached 9 trees.now test.now rows.now) out.old result out.new }
{
    let size = trees.size;
    let test = *test; // held in registers, where a reference would be read for each row
    let mut next = 0;
    let mut i = 0;
    // From tree to tree: the next one begins where `past_tree` says.
    while i < rows.len() {
        let first = rows[i];
        let r = top[first];
        let j = past_tree(rows, i, r + size[r] + 1);
        let c = rows[j - 1];
        let mut w = r;
        // From one ancestor of c to the next.
        while w < c {
            let open = next_open(size, trees.count, w, c);
            next = emit(&test, w, open, out, next);
            w = open + 1;
        }
        i = j;
    }
    next
}
