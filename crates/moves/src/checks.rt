// What carrying checks before it looks at its room: RULES 02, E1, refusals 1, 3 to 5 and 17, in this order.
ghost use Rattle.std.specs.Prelude.{◌≡◌, not, ◌≤◌};
ghost use Rattle.tree.specs.Refusal.{given, next, pair_check};
ghost use Rattle.tree.specs.Carry.{old_count_ok, move_ok};
ghost use Rattle.tree.specs.declared.Refusal.TheVariants.{BadCount, BadMove};

use pairs::check_pairs;
use tree::Refusal;

// Whether an edit of a table of so many rows can answer this first moved row and move. A row that is not in the table
// and a move of more rows than a table has are refused first, so that every sum stays in the range of i64.
fn move_ok(old_count: usize, first: usize, moved: i64) -> bool
    requires { old_count ≤ 4096 }
    ensures { result ≡ move_ok old_count first moved }
{
    if old_count < first {
        return false;
    }
    if moved < -4096 {
        return false;
    }
    if 4096 < moved {
        return false;
    }
    let to = first as i64 + moved;
    let new_count = old_count as i64 + moved;
    let lands = (1 <= first) & (0 <= to);
    let in_range = (1 <= new_count) & (new_count <= 4096);
    lands & in_range
}

// Refusals 1, 3 to 5 and 17.
#[tactic(auto, unfolding(tree::specs::Refusal::next, tree::specs::Refusal::given, tree::specs::Carry::old_count_ok))]
pub fn check_call(
    role: &[usize],
    row: &[usize],
    old_count: usize,
    first: usize,
    moved: i64,
) -> Result<(), Refusal>
    ensures { result ≡ next (given (not (old_count_ok old_count)) BadCount)
        (next (pair_check role.now row.now old_count)
        (given (not (move_ok old_count first moved)) BadMove)) }
{
    if old_count < 1 {
        return Err(Refusal::BadCount);
    }
    if 4096 < old_count {
        return Err(Refusal::BadCount);
    }
    check_pairs(old_count, role, row)?;
    if !move_ok(old_count, first, moved) {
        return Err(Refusal::BadMove);
    }
    Ok(())
}
