// Rows that move in one column: RULES 01, "The rows from the gap on move down in the lent columns". The part of a
// column from the gap on is lent to one mover, whatever the column holds.
ghost use Rattle.std.specs.Prelude.{◌≡◌, ◌++◌, map, ℕ, ◌+◌, ◌<◌, ◌≤◌, length, drop, replicate};
ghost use Rattle.tree.specs.Table.{at};
ghost use Rattle.tree.specs.Edit.{opened, closed};
ghost use Rattle.shift.specs.Part.{opened_part};

// The n rows of a part move down, and by rows of a piece come in before them.
fn open_part(part: &mut [usize], n: usize, piece: &[usize], by: usize)
    requires by_in_bounds { n + by ≤ length part.old }
    requires by_in_bounds_2 { by ≤ length piece.now }
    ensures { part.new ≡ opened_part n by piece.now part.old }
{
    part.copy_within(0..n, by);
    // Not `copy_from_slice`: it calls `memmove`, and whoever links the library would have to bring that.
    for i in 0..by {
        part[i] = piece[i];
    }
}

// The same with the rows of the piece raised. Not one function with a raise of 0: four of five columns would add for
// nothing, where they are copied.
fn open_part_raised(part: &mut [usize], n: usize, piece: &[usize], by: usize, add: usize)
    requires by_in_bounds { n + by ≤ length part.old }
    requires by_in_bounds_2 { by ≤ length piece.now }
    requires by_index { (i : ℕ) → i < by → at piece.now i + add ≤ 63 }
    ensures { part.new
        ≡ opened_part n by (map (λ l. l + add) piece.now) part.old }
{
    part.copy_within(0..n, by);
    for i in 0..by {
        part[i] = piece[i] + add;
    }
}

// Opens a gap in a column of n rows in use, and writes by rows of a piece into it.
pub fn open_column(column: &mut [usize], n: usize, gap: usize, piece: &[usize], by: usize)
    requires gap_le_n { gap ≤ n }
    requires by_in_bounds { n + by ≤ length column.old }
    requires by_in_bounds_2 { by ≤ length piece.now }
    ensures { column.new ≡ opened gap n by piece.now column.old }
{
    open_part(&mut column[gap..], n - gap, piece, by);
}

// The same with the rows of the piece raised.
pub fn open_column_raised(
    column: &mut [usize],
    n: usize,
    gap: usize,
    piece: &[usize],
    by: usize,
    add: usize,
)
    requires gap_le_n { gap ≤ n }
    requires by_in_bounds { n + by ≤ length column.old }
    requires by_in_bounds_2 { by ≤ length piece.now }
    requires by_index { (i : ℕ) → i < by → at piece.now i + add ≤ 63 }
    ensures { column.new
        ≡ opened gap n by (map (λ l. l + add) piece.now) column.old }
{
    open_part_raised(&mut column[gap..], n - gap, piece, by, add);
}

// Fills the first n rows of a part with zeros.
fn clear(part: &mut [usize], n: usize)
    requires { n ≤ length part.old }
    ensures { part.new ≡ replicate n 0 ++ drop n part.old }
{
    for i in 0..n {
        part[i] = 0;
    }
}

// Takes by rows out of a column of n rows in use, from a row on: later rows close up, the freed rows are zero.
pub fn close_column(column: &mut [usize], n: usize, row: usize, by: usize)
    requires by_bound { row + by ≤ n }
    requires n_in_bounds { n ≤ length column.old }
    ensures { column.new ≡ closed row n by column.old }
{
    column[row..].copy_within(by..n - row, 0);
    let left = n - by;
    clear(&mut column[left..], n - left);
}
