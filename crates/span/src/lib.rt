// The axes self, descendant and descendant-or-self: their rows come out as ranges, ascending.
#![tactic(auto)]

ghost use Rattle.std.specs.Prelude.{◌-◌, ◌≤◌};
ghost use Rattle.scan.specs.OneRole.{reached, RoleIn, Wrote};

use scan::trees::Trees;
use scan::want::NodeTest;
use scan::{emit, emit_one};

// Axis 1: writes the contexts of one role that fit, each once, to the front of `out`; answers how many.
pub fn own_rows(trees: &Trees<'_>, test: &NodeTest<'_>, rows: &[usize], out: &mut [usize]) -> usize
    requires { RoleIn 1 trees.now test.now rows.now out.old }
    ensures { Wrote (reached 1 trees.now test.now rows.now) out.old result out.new }
{
    let test = *test; // held in registers, where a reference would be read for each row
    let mut next = 0;
    let mut pos = 0;
    for &c in rows {
        let from = pos.max(c);
        let to = from.max(c + 1);
        next = emit_one(&test, from, to, out, next);
        pos = to;
    }
    next
}

// Axis 3, where `first` is 1: writes the descendants of the contexts of one role that fit, each once, to the front of
// `out`; answers how many. Axis 4, where `first` is 0: the same with the contexts themselves.
pub fn rows_below(
    trees: &Trees<'_>,
    test: &NodeTest<'_>,
    rows: &[usize],
    first: usize,
    out: &mut [usize],
) -> usize
    requires { (first ≤ 1) × RoleIn (4 - first) trees.now test.now rows.now out.old }
    ensures { Wrote (reached (4 - first) trees.now test.now rows.now) out.old result out.new }
{
    let size = trees.size;
    let test = *test;
    let mut next = 0;
    let mut pos = 0;
    for &c in rows {
        let from = pos.max(c + first);
        let to = from.max(c + size[c] + 1);
        next = emit(&test, from, to, out, next);
        pos = to;
    }
    next
}
