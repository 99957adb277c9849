// The children of a row, from one of them on and before another, written as they are met: a walk by hops over subtrees.
ghost use Rattle.std.specs.Prelude.{◌<◌, ◌≤◌};
ghost use Rattle.scan.specs.Want.{accepts};
ghost use Rattle.scan.specs.Range.{rows_in, Appended};
ghost use Rattle.direct.specs.Children.{child_that, ChildOrEnd, ChildrenIn};

use scan::trees::Trees;
use scan::want::NodeTest;

// Where a walk from child to child is: the next row, and how many rows are written. Of one shape with the walk of
// `marks` over a word, and not one struct with it: the second number of each has its own name and meaning.
#[derive(Clone, Copy)]
struct Stand {
    row: usize,
    written: usize,
}

// Appends children of row p that fit, from the child at which the walk is and before row `end`: the leaves that follow
// one another, and the child after them. After a leaf the next row is known before its size has been read.
fn append_leaves(
    trees: &Trees<'_>,
    test: &NodeTest<'_>,
    p: usize,
    at: Stand,
    end: usize,
    out: &mut [usize],
) -> Stand
    requires { (at.row < end) × ChildrenIn trees.now test.now p at.row end out.old at.written }
    ensures { (at.row < result.row) × (result.row ≤ end)
        × ChildOrEnd trees.now.size.now trees.now.level.now p result.row
        × Appended
        (rows_in (child_that (accepts test.now) trees.now.level.now p) at.row result.row)
        out.old at.written result.written out.new }
{
    let size = trees.size;
    let mut written = at.written;
    for w in at.row..end {
        if test.fits(w) {
            out[written] = w;
            written += 1;
        }
        let below = size[w];
        if below != 0 {
            return Stand {
                row: w + 1 + below,
                written,
            };
        }
    }
    Stand { row: end, written }
}

// Appends the children of row p from row `from` on and before row `end` that fit; answers how many are written then.
// Both rows are children of p, or the end of its descendants.
pub fn append_children(
    trees: &Trees<'_>,
    test: &NodeTest<'_>,
    p: usize,
    from: usize,
    end: usize,
    out: &mut [usize],
    written: usize,
) -> usize
    requires { ChildrenIn trees.now test.now p from end out.old written }
    ensures { Appended
        (rows_in (child_that (accepts test.now) trees.now.level.now p) from end)
        out.old written result out.new }
{
    let trees = *trees;
    let test = *test;
    let mut at = Stand { row: from, written };
    // The next child is where the one before ends.
    while at.row < end {
        at = append_leaves(&trees, &test, p, at, end, out);
    }
    at.written
}
