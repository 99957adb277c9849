// Insertion, deletion and rename by key: RULES 01, "Finding and editing by key". Each call checks the table, looks up
// its key, and hands what was found, the row and its parent, to the edit there: RULES 02, E3. A refusal leaves all
// columns as they were.
#![tactic(auto)]

ghost use Rattle.tree.specs.Table.{table_of};
ghost use Rattle.tree.specs.Outcome.{insert_outcome, delete_outcome, rename_outcome};
ghost use Rattle.edit_at.specs.EditLeaves.{EditLeaves};

use edit_at::{deletion, renaming};
use insert_at::insert_at;
use tree::{Columns, Done, Refusal};

// A piece becomes the last child of the row of a key, or refusal 1, 2, 9, 10, 11, 12, 13 or 14.
pub fn insert(
    key: &mut [usize],
    size: &mut [usize],
    level: &mut [usize],
    kind: &mut [usize],
    name: &mut [usize],
    count: usize,
    parent_key: usize,
    p_key: &[usize],
    p_size: &[usize],
    p_level: &[usize],
    p_kind: &[usize],
    p_name: &[usize],
    p_count: usize,
) -> Result<Done, Refusal>
    ensures { EditLeaves (insert_outcome
        (table_of key.old size.old level.old kind.old
        name.old count) parent_key
        (table_of p_key.now p_size.now p_level.now p_kind.now
        p_name.now p_count)) result
        key.new size.new level.new kind.new name.new }
{
    let columns = Columns {
        key,
        size,
        level,
        kind,
        name,
        count,
    };
    table::check_columns(&columns)?;
    let found = table::locate(&columns, parent_key);
    let Ok(located) = found else {
        return Err(Refusal::UnknownKey);
    };
    let piece = Columns {
        key: p_key,
        size: p_size,
        level: p_level,
        kind: p_kind,
        name: p_name,
        count: p_count,
    };
    insert_at(key, size, level, kind, name, count, located, &piece)
}

// The row of a key goes with its descendants, or refusal 1, 2, 9 or 15.
pub fn delete(
    key: &mut [usize],
    size: &mut [usize],
    level: &mut [usize],
    kind: &mut [usize],
    name: &mut [usize],
    count: usize,
    key_wanted: usize,
) -> Result<Done, Refusal>
    ensures { EditLeaves (delete_outcome
        (table_of key.old size.old level.old kind.old
        name.old count) key_wanted) result
        key.new size.new level.new kind.new name.new }
{
    let columns = Columns {
        key,
        size,
        level,
        kind,
        name,
        count,
    };
    table::check_columns(&columns)?;
    let found = table::locate(&columns, key_wanted);
    let Ok(located) = found else {
        return Err(Refusal::UnknownKey);
    };
    deletion::delete_at(key, size, level, kind, name, count, located)
}

// The row of a key gets a new name, or refusal 1, 2, 9 or 16.
pub fn rename(
    key: &mut [usize],
    size: &mut [usize],
    level: &mut [usize],
    kind: &mut [usize],
    name: &mut [usize],
    count: usize,
    key_wanted: usize,
    new_name: usize,
) -> Result<Done, Refusal>
    ensures { EditLeaves (rename_outcome
        (table_of key.old size.old level.old kind.old
        name.old count) key_wanted new_name) result
        key.new size.new level.new kind.new name.new }
{
    let columns = Columns {
        key,
        size,
        level,
        kind,
        name,
        count,
    };
    table::check_columns(&columns)?;
    let found = table::locate(&columns, key_wanted);
    let Ok(located) = found else {
        return Err(Refusal::UnknownKey);
    };
    renaming::rename_at(
        key,
        size,
        level,
        kind,
        name,
        count,
        located::row_there(located),
        new_name,
    )
}
