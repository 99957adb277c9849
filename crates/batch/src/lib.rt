// A weekend's changes in one call: RULES 02, E4. The table is checked once; each item is then done as its own call
// would do it, on the table that the items before it left, which is sound.
#![tactic(auto)]

ghost use Rattle.std.specs.Prelude.{◌≡◌, ◌≤◌, length};
ghost use Rattle.tree.specs.Table.{most_rows, table_of};
ghost use Rattle.tree.specs.Sound.{row_of};
ghost use Rattle.tree.specs.Rules.{InUse, Sound};
ghost use Rattle.tree.specs.RefusalRules.{GoodList};
ghost use Rattle.tree.specs.Batch.{items_of, item_outcome, one_by_one, batch_outcome};
ghost use Rattle.keys.specs.Chain.{buckets_of, Empty, Chained};
ghost use Rattle.edit_at.specs.EditLeaves.{EditLeaves};
ghost use Rattle.batch.specs.BatchLeaves.{BatchLeaves};

use edit_at::{deletion, renaming};
use items::progress;
use keys::Chains;
use located::where_is;
use tree::{Batched, Columns, Done, Item, Refusal};

// The row of a key, or the count. The chains are those of the start, when `chained` rows were in use, so they serve
// until the first row goes; a search from the front then costs less than the columns that close up.
fn row_of(key: &[usize], count: usize, wanted: usize, chained: usize, chains: &Chains<'_>) -> usize
    requires count_in_bounds { count ≤ length key.now }
    requires in_room { (chained ≤ length chains.now.next.now) × (chained ≤ most_rows) }
    requires chained { count ≡ chained
        → Chained chains.now.shift key.now chains.now.heads.now chains.now.next.now chained }
    ensures { result ≡ row_of key.now count wanted }
{
    if count == chained {
        return chains.row_in(key, count, wanted);
    }
    keys::row_of(key, count, wanted)
}

// The edit of an item, whose key has this row.
fn edit_item(
    key: &mut [usize],
    size: &mut [usize],
    level: &mut [usize],
    kind: &mut [usize],
    name: &mut [usize],
    count: usize,
    item: Item,
    row: usize,
) -> Result<Done, Refusal>
    requires sound { Sound (table_of key.old size.old level.old kind.old name.old count) }
    requires row_value { row ≡ row_of key.old count item.key }
    ensures { EditLeaves (item_outcome
        (table_of key.old size.old level.old kind.old
        name.old count) item) result
        key.new size.new level.new kind.new name.new }
{
    if count <= row {
        return Err(Refusal::UnknownKey);
    }
    let deletes = item.code == 1;
    if deletes {
        return deletion::delete_at(key, size, level, kind, name, count, where_is(level, row));
    }
    renaming::rename_at(key, size, level, kind, name, count, row, item.name)
}

// The items one by one, until one is refused.
fn do_items(
    key: &mut [usize],
    size: &mut [usize],
    level: &mut [usize],
    kind: &mut [usize],
    name: &mut [usize],
    count: usize,
    item_code: &[usize],
    item_key: &[usize],
    item_name: &[usize],
    chains: &Chains<'_>,
) -> Batched
    requires sound { Sound (table_of key.old size.old level.old kind.old name.old count) }
    requires in_room { (count ≤ length chains.now.next.now) × (count ≤ most_rows) }
    requires chained { Chained chains.now.shift key.old chains.now.heads.now
        chains.now.next.now count }
    requires good_list { GoodList item_code.now item_key.now item_name.now }
    ensures { BatchLeaves (one_by_one 0 (items_of item_code.now item_key.now
        item_name.now)
        (table_of key.old size.old level.old kind.old
        name.old count)) result
        key.new size.new level.new kind.new name.new }
{
    let mut so_far = Batched {
        done: 0,
        count,
        end: Ok(()),
    };
    // Not `for`: how far the list came is part of the answer, and a refusal ends it.
    while progress::goes_on(so_far, item_code.len()) {
        let i = so_far.done;
        let item = Item {
            code: item_code[i],
            key: item_key[i],
            name: item_name[i],
        };
        let row = row_of(key, so_far.count, item.key, count, chains);
        let edited = edit_item(key, size, level, kind, name, so_far.count, item, row);
        so_far = progress::after_item(so_far, edited);
    }
    so_far
}

// The items, once the rows of the table and then the list were checked; refusal 2 or 18. The check leaves the rows
// chained by their keys.
fn check_and_do(
    key: &mut [usize],
    size: &mut [usize],
    level: &mut [usize],
    kind: &mut [usize],
    name: &mut [usize],
    count: usize,
    item_code: &[usize],
    item_key: &[usize],
    item_name: &[usize],
    chains: &mut Chains<'_>,
) -> Batched
    requires in_use { InUse (table_of key.old size.old level.old kind.old name.old count) }
    requires in_room { count ≤ length chains.old.next.now }
    requires empty { Empty chains.old.shift chains.old.heads.now }
    ensures { BatchLeaves (batch_outcome
        (table_of key.old size.old level.old kind.old
        name.old count)
        item_code.now item_key.now item_name.now) result
        key.new size.new level.new kind.new name.new }
{
    let columns = Columns {
        key,
        size,
        level,
        kind,
        name,
        count,
    };
    let bad = rows::first_bad_in(&columns, chains);
    if bad < count {
        return progress::nothing_done(count, Refusal::UnsoundRow(bad));
    }
    if let Err(why) = items::check_list(item_code, item_key, item_name) {
        return progress::nothing_done(count, why);
    }
    do_items(
        key, size, level, kind, name, count, item_code, item_key, item_name, chains,
    )
}

// The same with chains of its own, of so many buckets and rows.
fn check_and_do_in<const HEADS: usize, const ROWS: usize>(
    key: &mut [usize],
    size: &mut [usize],
    level: &mut [usize],
    kind: &mut [usize],
    name: &mut [usize],
    count: usize,
    item_code: &[usize],
    item_key: &[usize],
    item_name: &[usize],
    shift: usize,
) -> Batched
    requires in_use { InUse (table_of key.old size.old level.old kind.old name.old count) }
    requires low { shift ≤ 32 }
    requires wide { buckets_of shift ≤ HEADS }
    requires few { (HEADS ≤ 16384) × (ROWS ≤ most_rows) }
    requires in_room { count ≤ ROWS }
    ensures { BatchLeaves (batch_outcome
        (table_of key.old size.old level.old kind.old
        name.old count)
        item_code.now item_key.now item_name.now) result
        key.new size.new level.new kind.new name.new }
{
    let mut heads = [0u16; HEADS];
    let mut next = [0u16; ROWS];
    let mut chains = Chains {
        heads: &mut heads,
        next: &mut next,
        shift,
    };
    check_and_do(
        key,
        size,
        level,
        kind,
        name,
        count,
        item_code,
        item_key,
        item_name,
        &mut chains,
    )
}

// Deletions (code 1) and renames (code 2) by key, one by one in list order, until one is refused: how many were done,
// the count, and what ended the list. Refusal 1, 2 or 18 comes before any of them and changes nothing; the refusal of
// an item changes nothing more.
pub fn batch(
    key: &mut [usize],
    size: &mut [usize],
    level: &mut [usize],
    kind: &mut [usize],
    name: &mut [usize],
    count: usize,
    item_code: &[usize],
    item_key: &[usize],
    item_name: &[usize],
) -> Batched
    ensures { BatchLeaves (batch_outcome
        (table_of key.old size.old level.old kind.old
        name.old count)
        item_code.now item_key.now item_name.now) result
        key.new size.new level.new kind.new name.new }
{
    let columns = Columns {
        key,
        size,
        level,
        kind,
        name,
        count,
    };
    if !rows::count_ok(&columns) {
        return progress::nothing_done(count, Refusal::BadCount);
    }
    if count <= 256 {
        return check_and_do_in::<1024, 256>(
            key, size, level, kind, name, count, item_code, item_key, item_name, 22,
        );
    }
    check_and_do_in::<16384, 4096>(
        key, size, level, kind, name, count, item_code, item_key, item_name, 18,
    )
}
