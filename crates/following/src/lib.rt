// The axis following: tree by tree its rows are one range.
#![tactic(auto)]

ghost use Rattle.std.specs.Prelude.{◌≡◌, length};
ghost use Rattle.scan.specs.OneRole.{reached, RoleIn, Roots, Wrote};
ghost use Rattle.scan.specs.Range.{EndsIn, first_after};

use scan::trees::Trees;
use scan::want::NodeTest;
use scan::{emit, past_tree};

// The least row that comes after one of the contexts and its descendants, or the count where there is no context.
fn first_after(size: &[usize], count: usize, rows: &[usize]) -> usize
    requires { EndsIn size.now count rows.now }
    ensures { result ≡ first_after size.now count rows.now (length rows.now) }
{
    let mut first = count;
    for &c in rows {
        first = first.min(c + size[c] + 1);
    }
    first
}

// Axis 8: writes the rows that come after a context of one role and its descendants, in the context's tree, and fit to
// the front of `out`; answers how many. Tree by tree they are one range.
#[tactic(auto, using(scan::proofs::TreeContextLaws::root_in))]
pub fn rows_after(
    trees: &Trees<'_>,
    top: &[usize],
    test: &NodeTest<'_>,
    rows: &[usize],
    out: &mut [usize],
) -> usize
    requires role_in { RoleIn 8 trees.now test.now rows.now out.old }
    requires roots { Roots trees.now.level.now trees.now.count top.now }
    ensures { Wrote (reached 8 trees.now test.now rows.now) out.old result out.new }
{
    let size = trees.size;
    let test = *test; // held in registers, where a reference would be read for each row
    let mut next = 0;
    let mut i = 0;
    // From tree to tree: the next one begins where `past_tree` says.
    while i < rows.len() {
        let c = rows[i];
        let r = top[c];
        let end = r + size[r] + 1;
        let j = past_tree(rows, i, end);
        let from = first_after(size, end, &rows[i..j]);
        next = emit(&test, from, end, out, next);
        i = j;
    }
    next
}
