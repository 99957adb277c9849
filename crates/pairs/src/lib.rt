// The pairs of role and row that a caller hands in: RULES 01, "The step", refusals 3, 4 and 5. Two passes
// without a branch show that most lists are right; only a list that fails is searched for its least wrong place.
#![tactic(auto)]

ghost use Rattle.std.specs.Prelude.{◌≡◌, false, not, ◌<◌, ◌≤◌, ltb, length};
ghost use Rattle.tree.specs.Search.{least};
ghost use Rattle.tree.specs.Table.{at};
ghost use Rattle.tree.specs.Pairs.{before, out_of_order};
ghost use Rattle.tree.specs.Refusal.{pair_check};
ghost use Rattle.pairs.specs.Places.{Ordered, Inside};

use tree::Refusal;

// Whether the pair (r, v) comes before the pair (q, w).
fn comes_before(r: usize, v: usize, q: usize, w: usize) -> bool
    ensures { result ≡ before r v q w }
{
    (r < q) | ((r == q) & (v < w))
}

// Whether some pair is less than the one before it: false only where none is. All places are looked at without a
// branch.
fn falls_somewhere(role: &[usize], row: &[usize]) -> bool
    requires { length role.now ≤ length row.now }
    ensures { result ≡ false → Ordered role.now row.now }
{
    let mut falls = false;
    for i in 1..role.len() {
        falls |= comes_before(role[i], row[i], role[i - 1], row[i - 1]);
    }
    falls
}

// Whether some row is not below the count: false only where none is.
fn leaves_somewhere(count: usize, row: &[usize]) -> bool
    ensures { result ≡ false → Inside row.now count }
{
    let mut outside = false;
    for &v in row {
        outside |= count <= v;
    }
    outside
}

// Whether the pair at place i is less than the one before it.
fn out_of_order(role: &[usize], row: &[usize], i: usize) -> bool
    requires { (i < length role.now) × (i < length row.now) }
    ensures { result ≡ out_of_order role.now row.now i }
{
    if i == 0 {
        return false;
    }
    comes_before(role[i], row[i], role[i - 1], row[i - 1])
}

// The least place whose pair is less than the one before it, or the number of pairs.
fn first_disorder(role: &[usize], row: &[usize]) -> usize
    requires { length role.now ≤ length row.now }
    ensures { result ≡ least (out_of_order role.now row.now) (length role.now) }
{
    basics::least(role.len(), |i| out_of_order(role, row, i))
}

// The least place whose row is not below the count, or the number of pairs.
fn first_outside(count: usize, row: &[usize]) -> usize
    ensures { result ≡ least (λ i. not (ltb (at row.now i) count)) (length row.now) }
{
    basics::least(row.len(), |i| count <= row[i])
}

// Refusal 3, 4 or 5, or that the pairs ascend and name rows below the count.
pub fn check_pairs(count: usize, role: &[usize], row: &[usize]) -> Result<(), Refusal>
    ensures { result ≡ pair_check role.now row.now count }
{
    if role.len() != row.len() {
        return Err(Refusal::BadPairColumns);
    }
    let too_long = 4096 < role.len();
    if too_long {
        return Err(Refusal::BadPairColumns);
    }
    let wrong = falls_somewhere(role, row) | leaves_somewhere(count, row);
    if !wrong {
        return Ok(());
    }
    let disorder = first_disorder(role, row);
    if disorder < role.len() {
        return Err(Refusal::PairOutOfOrder(disorder));
    }
    let outside = first_outside(count, row);
    if outside < row.len() {
        return Err(Refusal::PairOutsideTable(outside));
    }
    Ok(())
}
