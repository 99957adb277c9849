// The rules of one row: RULES 01, "The table". A function for each rule but the key's, which `keys` has.
#![tactic(auto)]

ghost use Rattle.std.specs.Prelude.{◌≡◌, ◌<◌, ◌≤◌, length};
ghost use Rattle.tree.specs.Sound.{level_ok, run_of, size_ok, kind_ok, name_ok};

// Level: 0 at row 0; at a later row at most one more than the row before has; never above 63.
pub fn level_ok(level: &[usize], i: usize) -> bool
    requires { i < length level.now }
    ensures { result ≡ level_ok level.now i }
{
    let own = level[i];
    if i == 0 {
        return own == 0;
    }
    (own <= 63) & (own.saturating_sub(1) <= level[i - 1])
}

// How many levels from the front of the part on are above top.
fn run(part: &[usize], top: usize) -> usize
    ensures { result ≡ run_of part.now top }
{
    for (k, &level) in part.iter().enumerate() {
        if level <= top {
            return k;
        }
    }
    part.len()
}

// Size: the number of rows in use directly after row i, without a break, whose level is above its own.
pub fn size_ok(size: &[usize], level: &[usize], count: usize, i: usize) -> bool
    requires i_lt_count { i < count }
    requires count_in_bounds { count ≤ length size.now }
    requires count_in_bounds_2 { count ≤ length level.now }
    ensures { result ≡ size_ok size.now level.now count i }
{
    let after = i + 1;
    let n = run(&level[after..count], level[i]);
    size[i] == n
}

// Kind: 0 to 4; 0 only at a row of level 0; 2, 3 and 4 have size 0.
pub fn kind_ok(size: usize, level: usize, kind: usize) -> bool
    ensures { result ≡ kind_ok kind size level }
{
    (kind <= 4) & ((kind != 0) | (level == 0)) & ((kind <= 1) | (size == 0))
}

// Name: not 0 for kinds 1 and 4, 0 for the others.
pub fn name_ok(kind: usize, name: usize) -> bool
    ensures { result ≡ name_ok kind name }
{
    match kind {
        1 | 4 => name != 0,
        _ => name == 0,
    }
}
