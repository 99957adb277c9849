// The way up from the one context of a role: its parent, or all its ancestors, written without a set.
#![tactic(auto)]

ghost use Rattle.std.specs.Prelude.{◌≡◌};
ghost use Rattle.scan.specs.OneRole.{reached, Wrote};
ghost use Rattle.lone.specs.Lone.{path_rows, upward, PathIn, LoneIn};

use scan::emit_one;
use scan::trees::Trees;
use scan::want::{NodeTest, Want};

// Whether the axis and what is wanted ask for the parent, or for all ancestors, with the context itself or without:
// what `lone_rows` can write. It does not depend on the contexts, so it is found once for all roles.
#[tactic(auto, unfolding(crate::specs::Lone::upward))]
pub fn is_upward(axis: usize, want: Want) -> bool
    ensures { result ≡ upward axis want }
{
    match axis {
        5 => true,
        6..=7 => want.kind.is_none() && want.name.is_none(),
        _ => false,
    }
}

// Writes the row that a link names, one more than the row, 0 for none, and its ancestors, n rows in all, to the front
// of out, from the last one down; answers how many they are.
fn write_path(
    trees: &Trees<'_>,
    up: &[usize; 4096],
    link: usize,
    n: usize,
    out: &mut [usize],
) -> usize
    requires { PathIn trees.now up.now link n out.old }
    ensures { Wrote (path_rows trees.now.level.now trees.now.count link) out.old result out.new }
{
    let mut at = link;
    for k in (0..n).rev() {
        let v = at - 1;
        out[k] = v;
        at = up[v];
    }
    n
}

// Writes the rows that the one context reaches to the front of out; answers how many. A row has as many ancestors as
// its level says.
pub fn lone_rows(
    trees: &Trees<'_>,
    up: &[usize; 4096],
    test: &NodeTest<'_>,
    rows: &[usize],
    axis: usize,
    out: &mut [usize],
) -> usize
    requires { LoneIn axis trees.now up.now test.now rows.now out.old }
    ensures { Wrote (reached axis trees.now test.now rows.now) out.old result out.new }
{
    let c = rows[0];
    let q = up[c];
    match axis {
        6 => write_path(trees, up, q, trees.level[c], out),
        7 => write_path(trees, up, c + 1, trees.level[c] + 1, out),
        _ => {
            if q == 0 {
                return 0;
            }
            emit_one(test, q - 1, q, out, 0)
        }
    }
}
