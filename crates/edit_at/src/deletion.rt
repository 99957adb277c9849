// A deletion at a row that was found: RULES 01, "Finding and editing by key"; refusal 15; RULES 02, E3. Whether the row
// is a root, and if not, its parent, is read from what was found. The five columns are lent one by one, not as one
// struct as those to be read are (`tree::Columns`): the way up changes sizes and reads levels, and two fields behind one
// reference cannot be lent at a time in what is proved.
ghost use Rattle.std.specs.Prelude.{◌+◌, ◌≤◌};
ghost use Rattle.tree.specs.Table.{table_of};
ghost use Rattle.tree.specs.Rules.{InUse};
ghost use Rattle.tree.specs.Outcome.{row_there};
ghost use Rattle.tree.specs.declared.Located.TheVariants.{Root, Under};
ghost use Rattle.edit_at.specs.EditLeaves.{EditLeaves};
ghost use Rattle.table.specs.RowFound.{RowFound};
ghost use Rattle.edit_at.specs.AtRow.{closed_up, delete_at};

use shift::done;
use shift::mover::close_column;
use tree::{Child, Done, Located, Refusal};

// From a row on, `by` rows go: later rows close up in all columns, and the freed rows are zero.
fn close_rows(
    key: &mut [usize],
    size: &mut [usize],
    level: &mut [usize],
    kind: &mut [usize],
    name: &mut [usize],
    count: usize,
    row: usize,
    by: usize,
) -> Result<Done, Refusal>
    requires in_use { InUse (table_of key.old size.old level.old kind.old name.old count) }
    requires by_bound { row + by ≤ count }
    ensures { EditLeaves (closed_up
        (table_of key.old size.old level.old kind.old
        name.old count) row by) result
        key.new size.new level.new kind.new name.new }
{
    let gap = row + by;
    close_column(key, count, row, by);
    close_column(size, count, row, by);
    close_column(level, count, row, by);
    close_column(kind, count, row, by);
    close_column(name, count, row, by);
    Ok(done::after_deletion(count, gap, by))
}

// A root goes with its tree, or refusal 15 where that is the whole table: then it is the only root.
fn delete_root(
    key: &mut [usize],
    size: &mut [usize],
    level: &mut [usize],
    kind: &mut [usize],
    name: &mut [usize],
    count: usize,
    row: usize,
) -> Result<Done, Refusal>
    requires { RowFound (table_of key.old size.old level.old kind.old name.old count) (Root row) }
    ensures { EditLeaves (delete_at
        (table_of key.old size.old level.old kind.old
        name.old count) row) result
        key.new size.new level.new kind.new name.new }
{
    let by = size[row] + 1;
    let only = by == count;
    if only {
        return Err(Refusal::DeletesRoot);
    }
    close_rows(key, size, level, kind, name, count, row, by)
}

// A row that has a parent goes with its descendants: the sizes of its ancestors fall, from its parent up.
fn delete_child(
    key: &mut [usize],
    size: &mut [usize],
    level: &mut [usize],
    kind: &mut [usize],
    name: &mut [usize],
    count: usize,
    child: Child,
) -> Result<Done, Refusal>
    requires { RowFound (table_of key.old size.old level.old kind.old name.old count) (Under child) }
    ensures { EditLeaves (delete_at
        (table_of key.old size.old level.old kind.old
        name.old count) child.row) result
        key.new size.new level.new kind.new name.new }
{
    let row = child.row;
    let by = size[row] + 1;
    sizes::lower(size, level, count, child, by);
    close_rows(key, size, level, kind, name, count, row, by)
}

// The row found goes with its descendants, or refusal 15.
pub fn delete_at(
    key: &mut [usize],
    size: &mut [usize],
    level: &mut [usize],
    kind: &mut [usize],
    name: &mut [usize],
    count: usize,
    located: Located,
) -> Result<Done, Refusal>
    requires { RowFound (table_of key.old size.old level.old kind.old name.old count) located }
    ensures { EditLeaves (delete_at
        (table_of key.old size.old level.old kind.old
        name.old count) (row_there located)) result
        key.new size.new level.new kind.new name.new }
{
    match located {
        Located::Root(row) => delete_root(key, size, level, kind, name, count, row),
        Located::Under(child) => delete_child(key, size, level, kind, name, count, child),
    }
}
