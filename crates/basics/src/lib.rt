// A test of a part of a column, and the search for the least place that passes a test.
#![tactic(auto)]

ghost use Rattle.std.specs.Prelude.{◌≡◌, ◌↔◌, true, Bool, ℕ, ◌<◌, ◌≤◌, length, get_or};
ghost use Rattle.tree.specs.Search.{least};

// Whether a column has the number x from one place up to another. All places are looked at, without a branch.
pub fn one_of(column: &[usize], from: usize, to: usize, x: usize) -> bool
    requires { (from ≤ to) × (to ≤ length column.now) }
    ensures { (result ≡ true)
        ↔ ((j : ℕ) × (from ≤ j) × (j < to) × (get_or column.now j 0 ≡ x)) }
{
    let mut met = false;
    for &c in &column[from..to] {
        met |= c == x;
    }
    met
}

// The least of the first n places that passes the test, or n. Places behind it are not tested.
pub fn least<F: Fn(usize) -> bool>(n: usize, test: F) -> usize
    requires { (i : ℕ) → i < n → F.pre test i }
    ensures { (f : ℕ → Bool) → ((i : ℕ) (b : Bool) → i < n → F.post test i b → b ≡ f i)
        → result ≡ least f n }
{
    for i in 0..n {
        let passes = test(i);
        if passes {
            return i;
        }
    }
    n
}
