// Preceding-sibling, for contexts whose parents do not fall from one context to the next. Each context then adds only
// its siblings between the context ahead of it and itself. They come after all rows written so far, so they are
// written as they are met, without a set.
ghost use Rattle.std.specs.Prelude.{◌≡◌, true, false, ◌≤◌};
ghost use Rattle.scan.specs.Want.{accepts};
ghost use Rattle.scan.specs.Range.{Appended};
ghost use Rattle.scan.specs.OneRole.{reached, Contexts, RoleIn, Parents, Wrote};
ghost use Rattle.direct.specs.Earlier.{earlier_from, EarlierIn, ParentsRise};

use super::children::append_children;
use scan::trees::Trees;
use scan::want::NodeTest;

// Whether earlier siblings are asked for, and no context has a parent before that of the context ahead of it. No parent
// counts as the first.
pub fn is_rising(count: usize, up: &[usize; 4096], rows: &[usize], axis: usize) -> bool
    requires { (count ≤ 4096) × Contexts rows.now count }
    ensures { (result ≡ true → (axis ≡ 11) × ParentsRise up.now rows.now)
        × (result ≡ false → axis ≡ 11 → ParentsRise up.now rows.now → ⊥) }
{
    if axis != 11 {
        return false;
    }
    let mut last = 0;
    for &c in rows {
        let q = up[c];
        if q < last {
            return false;
        }
        last = q;
    }
    true
}

// Appends the earlier siblings of row c from row `floor` on that fit; answers how many are written then.
fn append_earlier(
    trees: &Trees<'_>,
    up: &[usize; 4096],
    test: &NodeTest<'_>,
    floor: usize,
    c: usize,
    out: &mut [usize],
    written: usize,
) -> usize
    requires { EarlierIn trees.now up.now test.now floor c out.old written }
    ensures { Appended
        (earlier_from trees.now.level.now floor c (accepts test.now))
        out.old written result out.new }
{
    let q = up[c];
    if q == 0 {
        return written;
    }
    append_children(trees, test, q - 1, q.max(floor), c, out, written)
}

// Axis 11, where the parents do not fall: writes the earlier siblings of the contexts of one role that fit to the front
// of out; answers how many.
pub fn rising_rows(
    trees: &Trees<'_>,
    up: &[usize; 4096],
    test: &NodeTest<'_>,
    rows: &[usize],
    out: &mut [usize],
) -> usize
    requires role_in { RoleIn 11 trees.now test.now rows.now out.old }
    requires parents { Parents trees.now.level.now trees.now.count up.now × ParentsRise up.now rows.now }
    ensures { Wrote (reached 11 trees.now test.now rows.now) out.old result out.new }
{
    let mut next = 0;
    let mut floor = 0;
    for &c in rows {
        next = append_earlier(trees, up, test, floor, c, out, next);
        floor = c;
    }
    next
}
