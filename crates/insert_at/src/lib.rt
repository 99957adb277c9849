// An insertion at a row that was found: RULES 01, "Finding and editing by key".
#![tactic(auto)]

ghost use Rattle.tree.specs.Table.{table_of, seen};
ghost use Rattle.tree.specs.Outcome.{row_there};
ghost use Rattle.table.specs.RowFound.{RowFound};
ghost use Rattle.edit_at.specs.EditLeaves.{EditLeaves};
ghost use Rattle.edit_at.specs.AtRow.{insert_at};

use planting::open_rows;
use tree::{Columns, Done, Located, Refusal};

// The piece becomes the last child of the row found, or refusal 10, 11, 12, 13 or 14.
pub fn insert_at(
    key: &mut [usize],
    size: &mut [usize],
    level: &mut [usize],
    kind: &mut [usize],
    name: &mut [usize],
    count: usize,
    located: Located,
    piece: &Columns<'_>,
) -> Result<Done, Refusal>
    requires { RowFound (table_of key.old size.old level.old kind.old name.old count) located }
    ensures { EditLeaves (insert_at
        (table_of key.old size.old level.old kind.old
        name.old count) (row_there located)
        (seen piece.now)) result
        key.new size.new level.new kind.new name.new }
{
    let row = located::row_there(located);
    let columns = Columns {
        key,
        size,
        level,
        kind,
        name,
        count,
    };
    piece::check_piece(&columns, row, piece)?;
    open_rows(key, size, level, kind, name, count, located, piece)
}
