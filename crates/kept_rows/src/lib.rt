// The kept count of the contexts of one role on the axes that do not stop at the ends of a tree. The contexts do not
// fall: equal ones stand side by side.
#![tactic(auto)]

ghost use Rattle.std.specs.Prelude.{◌≡◌, ℕ, ◌-◌, ◌<◌, Bool, length};
ghost use Rattle.tree.specs.Table.{at};
ghost use Rattle.kept_rows.specs.Ends.{ends};
ghost use Rattle.kept_rows.specs.KeptOf.{kept_of, KeptIn};

use scan::trees::Trees;

// Axes 3 and 4: how many distinct contexts are descendants of no other. The contexts passed and their descendants lie
// before `pos`; the next one is the same as one of them, or a descendant of one, exactly if it lies before `pos` too.
pub fn kept_outermost(trees: &Trees<'_>, rows: &[usize]) -> usize
    requires { KeptIn trees.now rows.now }
    ensures { result ≡ kept_of 3 trees.now.level.now rows.now }
{
    let size = trees.size;
    let mut kept = 0;
    let mut pos = 0;
    for &c in rows {
        kept += (pos <= c) as usize;
        pos = pos.max(c + size[c] + 1);
    }
    kept
}

// One, and one more for each context that with its next one passes the test.
pub fn count_ends<F: Fn(usize, usize) -> bool>(rows: &[usize], test: F) -> usize
    requires some { 0 < length rows.now }
    requires met { (i : ℕ) → 0 < i → i < length rows.now
        → F.pre test (at rows.now (i - 1)) (at rows.now i) }
    ensures { (f : ℕ → Bool)
        → ((i : ℕ) (b : Bool) → 0 < i → i < length rows.now
        → F.post test (at rows.now (i - 1)) (at rows.now i) b → b ≡ f i)
        → result ≡ ends f (length rows.now - 1) }
{
    let mut kept = 1;
    for i in 1..rows.len() {
        if test(rows[i - 1], rows[i]) {
            kept += 1;
        }
    }
    kept
}

// Axes 6 and 7: how many distinct contexts are ancestors of no other, of one context or more: the last one, and each
// whose next comes after its descendants.
pub fn kept_innermost(trees: &Trees<'_>, rows: &[usize]) -> usize
    requires { KeptIn trees.now rows.now × (0 < length rows.now) }
    ensures { result ≡ kept_of 6 trees.now.level.now rows.now }
{
    let size = trees.size;
    count_ends(rows, |c, next| c + size[c] < next)
}

// The other axes: how many distinct contexts there are, of one or more: the last one, and each whose next is another.
pub fn kept_distinct(trees: &Trees<'_>, rows: &[usize]) -> usize
    requires { KeptIn trees.now rows.now × (0 < length rows.now) }
    ensures { result ≡ kept_of 1 trees.now.level.now rows.now }
{
    count_ends(rows, |c, next| c < next)
}
