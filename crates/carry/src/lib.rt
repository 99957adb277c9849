// Pairs of role and row carried over an edit, so that each names the same key as before: RULES 02, E1. Nothing is
// written before it is known that all of it fits.
#![tactic(auto)]

ghost use Rattle.tree.specs.Carry.{carry_outcome};
ghost use Rattle.carry.specs.CarryLeaves.{CarryLeaves};

use moves::checks;
use moves::moved::moved_to;
use pairs_left::Move;
use tree::Refusal;

// The pairs after an edit of a table of so many rows, told by the edit's first moved row and move: their number, and
// they stand at the front of the result columns; or refusal 1, 3, 4, 5, 17 or 8, which changes no column.
pub fn carry(
    role: &[usize],
    row: &[usize],
    old_count: usize,
    first: usize,
    moved: i64,
    out_role: &mut [usize],
    out_row: &mut [usize],
) -> Result<usize, Refusal>
    ensures { CarryLeaves (carry_outcome role.now row.now old_count first moved
        out_role.old out_row.old)
        result out_role.new out_row.new }
{
    checks::check_call(role, row, old_count, first, moved)?;
    let to = moved_to(old_count, first, moved, first);
    let left = pairs_left::count_left(row, to, first);
    let short = out_role.len().min(out_row.len()) < left;
    if short {
        return Err(Refusal::TooManyResults(left));
    }
    let edit = Move {
        old: old_count,
        first,
        moved,
        to,
    };
    pairs_left::write(role, row, edit, left, out_role, out_row);
    Ok(left)
}
