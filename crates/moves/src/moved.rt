// One row over an edit: RULES 02, E1. The edit's signed move is added to row numbers; it is never split by its sign.
ghost use Rattle.std.specs.Prelude.{◌≡◌, cond, ◌≤◌, pos, ◌+ℤ◌};
ghost use Rattle.tree.specs.Carry.{row_after};
ghost use Rattle.tree.specs.CarryRules.{gone_row};
ghost use Rattle.moves.specs.Moves.{Moves, MovesRow};

// Where the first moved row, or a later one, stands after the edit.
pub fn moved_to(old_count: usize, first: usize, moved: i64, row: usize) -> usize
    requires { MovesRow old_count first moved row }
    ensures { pos result ≡ pos row +ℤ moved }
{
    let old = row as i64;
    let new = old + moved;
    new as usize
}

// Where a row of the table stands after the edit. A deleted one has its old number, which nobody reads.
pub fn row_after(old_count: usize, first: usize, moved: i64, row: usize) -> usize
    requires { Moves old_count first moved row }
    ensures { pos result ≡ row_after first moved row }
{
    if row < first {
        return row;
    }
    moved_to(old_count, first, moved, row)
}

// 0 for a row that was deleted, 1 for any other: the deleted ones stood from the row `to` on and before the first moved
// row.
pub fn stays(to: usize, first: usize, row: usize) -> usize
    ensures counted { result ≡ cond (gone_row to first row) 0 1 }
    ensures small { result ≤ 1 }
{
    usize::from((first <= row) | (row < to))
}
