// The rows of a piece that fits, put in under a row that was found: RULES 01, "Finding and editing by key".
#![tactic(auto)]

ghost use Rattle.tree.specs.Table.{table_of, seen};
ghost use Rattle.tree.specs.Outcome.{row_there};
ghost use Rattle.edit_at.specs.EditLeaves.{EditLeaves};
ghost use Rattle.edit_at.specs.AtRow.{PieceChecked, insert_at};

use shift::done;
use shift::mover::{open_column, open_column_raised};
use tree::{Columns, Done, Located, Refusal};

// The piece becomes the last child of the row found: the sizes of the row and its ancestors rise, a gap opens in every
// column, and the piece's levels rise by the row's level and one.
pub fn open_rows(
    key: &mut [usize],
    size: &mut [usize],
    level: &mut [usize],
    kind: &mut [usize],
    name: &mut [usize],
    count: usize,
    located: Located,
    piece: &Columns<'_>,
) -> Result<Done, Refusal>
    requires { PieceChecked (table_of key.old size.old level.old kind.old name.old count) located
        (seen piece.now) }
    ensures { EditLeaves (insert_at
        (table_of key.old size.old level.old kind.old
        name.old count) (row_there located)
        (seen piece.now)) result
        key.new size.new level.new kind.new name.new }
{
    let row = located::row_there(located);
    let after = row + 1;
    let gap = after + size[row];
    let add = level[row] + 1;
    sizes::raise(size, level, count, located, piece.count);
    open_column(key, count, gap, piece.key, piece.count);
    open_column(size, count, gap, piece.size, piece.count);
    open_column_raised(level, count, gap, piece.level, piece.count, add);
    open_column(kind, count, gap, piece.kind, piece.count);
    open_column(name, count, gap, piece.name, piece.count);
    Ok(done::after_insertion(count, gap, piece.count))
}
