// The ancestors of the contexts of one role, in order and without a set. Contexts ascend. Of the rows on the way up
// from a context, those before the context ahead of it are that one's ancestors too, and are written already; the
// others are new, and come after all that is written. The way up meets them from the last to the first, so each
// stretch is turned round once it is written. A link is one more than a row, or 0 for none, as in the column of
// parents.
#![tactic(auto)]

ghost use Rattle.std.specs.Prelude.{◌≡◌, reverse, ◌+◌, ◌<◌, ◌≤◌};
ghost use Rattle.scan.specs.Want.{accepts};
ghost use Rattle.scan.specs.OneRole.{reached, RoleIn, Parents, Wrote};
ghost use Rattle.scan.specs.Range.{Appended};
ghost use Rattle.ways.specs.Above.{way_up, way_start, WayIn};

use scan::trees::Trees;
use scan::want::NodeTest;

// Appends the row that the link `start` names, and its ancestors, as far as they are not before row `floor` and fit,
// from the last to the first; answers how many are written then.
fn climb(
    trees: &Trees<'_>,
    up: &[usize; 4096],
    test: &NodeTest<'_>,
    floor: usize,
    start: usize,
    out: &mut [usize],
    written: usize,
) -> usize
    requires { WayIn trees.now up.now test.now floor start out.old written }
    ensures { Appended
        (reverse (way_up trees.now.level.now floor start (accepts test.now)))
        out.old written result out.new }
{
    let test = *test;
    let mut next = written;
    let mut link = start;
    // Along the links: no index is counted.
    while floor < link {
        let v = link - 1;
        if test.fits(v) {
            out[next] = v;
            next += 1;
        }
        link = up[v];
    }
    next
}

// Turns a part of a column round. It has a contract of its own, at which a wrong edit of it is refused.
fn turn_round(part: &mut [usize])
    ensures { part.new ≡ reverse part.old }
{
    part.reverse();
}

// Appends the same rows from the first to the last; answers how many are written then.
fn way_up(
    trees: &Trees<'_>,
    up: &[usize; 4096],
    test: &NodeTest<'_>,
    floor: usize,
    start: usize,
    out: &mut [usize],
    written: usize,
) -> usize
    requires { WayIn trees.now up.now test.now floor start out.old written }
    ensures { Appended
        (way_up trees.now.level.now floor start (accepts test.now))
        out.old written result out.new }
{
    let end = climb(trees, up, test, floor, start, out, written);
    turn_round(&mut out[written..end]);
    end
}

// The link at which the way up from row c starts: that of its parent, or, where `own` is 1, of the row itself. `own` is a
// number, since the axis is 6 more, as the contracts say.
fn way_start(trees: &Trees<'_>, up: &[usize; 4096], c: usize, own: usize) -> usize
    requires { (c < trees.now.count) × Parents trees.now.level.now trees.now.count up.now }
    ensures { result ≡ way_start own trees.now.level.now c }
{
    if own == 0 {
        return up[c];
    }
    c + 1
}

// Axis 6, where `own` is 0: writes the ancestors of the contexts of one role that fit, each once, to the front of out;
// answers how many. Axis 7, where `own` is 1: the same with the contexts themselves.
pub fn rows_above(
    trees: &Trees<'_>,
    up: &[usize; 4096],
    test: &NodeTest<'_>,
    rows: &[usize],
    own: usize,
    out: &mut [usize],
) -> usize
    requires own_bound { (own ≤ 1) × RoleIn (6 + own) trees.now test.now rows.now out.old }
    requires parents { Parents trees.now.level.now trees.now.count up.now }
    ensures { Wrote (reached (6 + own) trees.now test.now rows.now) out.old result out.new }
{
    let mut next = 0;
    let mut floor = 0;
    for &c in rows {
        let start = way_start(trees, up, c, own);
        next = way_up(trees, up, test, floor, start, out, next);
        floor = c + own;
    }
    next
}
