// The library's functions under C names: include/reach.h. Each hands its slices on and puts the answer into a struct.
#![tactic(auto)]

ghost use Rattle.std.specs.Prelude.{◌≡◌};
ghost use Rattle.tree.specs.Table.{table_of};
ghost use Rattle.tree.specs.Outcome.{check_outcome, find_outcome, step_outcome};
ghost use Rattle.tree.specs.Outcome.{insert_outcome, delete_outcome, rename_outcome};
ghost use Rattle.tree.specs.Step.{ask_of};
ghost use Rattle.tree.specs.Carry.{carry_outcome};
ghost use Rattle.tree.specs.Batch.{batch_outcome};
ghost use Rattle.answer.specs.Answer.{check_answer, StepAnswers, EditAnswers, CarryAnswers};
ghost use Rattle.answer.specs.Answer.{BatchAnswers};
ghost use Rattle.answer.specs.Found.{find_answer};
ghost use Rattle.answer.specs.Version.{version};

use answer::{Answer, FoundAnswer};
use tree::Ask;

// The version of the library that is linked, which may be another than that of the header compiled against.
#[unsafe(no_mangle)]
pub extern "C" fn reach_version() -> usize
    ensures { result ≡ version }
{
    answer::library_version()
}

// Refusal 1 or 2, or that the table is sound.
#[unsafe(no_mangle)]
pub extern "C" fn reach_check(
    key: &[usize],
    size: &[usize],
    level: &[usize],
    kind: &[usize],
    name: &[usize],
    count: usize,
) -> Answer
    ensures { result ≡ check_answer (check_outcome
        (table_of key.now size.now level.now
        kind.now name.now count)) }
{
    Answer::from(table::check(key, size, level, kind, name, count))
}

// The row of a key, its level and its parent's row, or refusal 1, 2 or 9.
#[unsafe(no_mangle)]
pub extern "C" fn reach_find(
    key: &[usize],
    size: &[usize],
    level: &[usize],
    kind: &[usize],
    name: &[usize],
    count: usize,
    key_wanted: usize,
) -> FoundAnswer
    ensures { result ≡ find_answer (find_outcome
        (table_of key.now size.now level.now
        kind.now name.now count) key_wanted) }
{
    let found = table::find(key, size, level, kind, name, count, key_wanted);
    let answer = answer::of_find(found);
    answer
}

// One step for all roles: the number of results in first, the kept count in second, or a refusal from 1 to 8.
#[unsafe(no_mangle)]
pub extern "C" fn reach_step(
    key: &[usize],
    size: &[usize],
    level: &[usize],
    kind: &[usize],
    name: &[usize],
    count: usize,
    role: &[usize],
    row: &[usize],
    axis: usize,
    test: usize,
    test_name: usize,
    out_role: &mut [usize],
    out_row: &mut [usize],
) -> Answer
    ensures { StepAnswers (step_outcome
        (table_of key.now size.now level.now
        kind.now name.now count)
        role.now row.now (ask_of axis test test_name)
        out_role.old out_row.old)
        result out_role.new out_row.new }
{
    Answer::from(step::step(
        key,
        size,
        level,
        kind,
        name,
        count,
        role,
        row,
        Ask {
            axis,
            test,
            name: test_name,
        },
        out_role,
        out_row,
    ))
}

// The piece becomes the last child of the row of a key: the new count in first, the first moved row in second, and the
// move; or refusal 1, 2 or 9 to 14.
#[unsafe(no_mangle)]
pub extern "C" fn reach_insert(
    key: &mut [usize],
    size: &mut [usize],
    level: &mut [usize],
    kind: &mut [usize],
    name: &mut [usize],
    count: usize,
    parent_key: usize,
    p_key: &[usize],
    p_size: &[usize],
    p_level: &[usize],
    p_kind: &[usize],
    p_name: &[usize],
    p_count: usize,
) -> Answer
    ensures { EditAnswers (insert_outcome
        (table_of key.old size.old level.old kind.old
        name.old count) parent_key
        (table_of p_key.now p_size.now p_level.now p_kind.now
        p_name.now p_count)) result
        key.new size.new level.new kind.new name.new }
{
    Answer::from(edit::insert(
        key, size, level, kind, name, count, parent_key, p_key, p_size, p_level, p_kind, p_name,
        p_count,
    ))
}

// The row of a key goes with its descendants: answers as an insertion, or refusal 1, 2, 9 or 15.
#[unsafe(no_mangle)]
pub extern "C" fn reach_delete(
    key: &mut [usize],
    size: &mut [usize],
    level: &mut [usize],
    kind: &mut [usize],
    name: &mut [usize],
    count: usize,
    key_wanted: usize,
) -> Answer
    ensures { EditAnswers (delete_outcome
        (table_of key.old size.old level.old kind.old
        name.old count) key_wanted) result
        key.new size.new level.new kind.new name.new }
{
    Answer::from(edit::delete(key, size, level, kind, name, count, key_wanted))
}

// The row of a key gets a new name: answers as an insertion, or refusal 1, 2, 9 or 16.
#[unsafe(no_mangle)]
pub extern "C" fn reach_rename(
    key: &mut [usize],
    size: &mut [usize],
    level: &mut [usize],
    kind: &mut [usize],
    name: &mut [usize],
    count: usize,
    key_wanted: usize,
    new_name: usize,
) -> Answer
    ensures { EditAnswers (rename_outcome
        (table_of key.old size.old level.old kind.old
        name.old count) key_wanted new_name) result
        key.new size.new level.new kind.new name.new }
{
    Answer::from(edit::rename(key, size, level, kind, name, count, key_wanted, new_name))
}

// The pairs after an edit of a table of so many rows, by the edit's first moved row and move: their number in first, or
// refusal 1, 3, 4, 5, 17 or 8.
#[unsafe(no_mangle)]
pub extern "C" fn reach_carry(
    role: &[usize],
    row: &[usize],
    old_count: usize,
    first: usize,
    moved: i64,
    out_role: &mut [usize],
    out_row: &mut [usize],
) -> Answer
    ensures { CarryAnswers (carry_outcome role.now row.now old_count first moved
        out_role.old out_row.old)
        result out_role.new out_row.new }
{
    Answer::from(carry::carry(role, row, old_count, first, moved, out_role, out_row))
}

// Deletions and renames one by one, until one is refused: the number done in first and the count in second, on a
// refusal too; refusal 1, 2 or 18, or that of an item, 9, 15 or 16, before which the earlier ones stay done.
#[unsafe(no_mangle)]
pub extern "C" fn reach_batch(
    key: &mut [usize],
    size: &mut [usize],
    level: &mut [usize],
    kind: &mut [usize],
    name: &mut [usize],
    count: usize,
    item_code: &[usize],
    item_key: &[usize],
    item_name: &[usize],
) -> Answer
    ensures { BatchAnswers (batch_outcome
        (table_of key.old size.old level.old kind.old
        name.old count)
        item_code.now item_key.now item_name.now) result
        key.new size.new level.new kind.new name.new }
{
    Answer::from(batch::batch(
        key, size, level, kind, name, count, item_code, item_key, item_name,
    ))
}
