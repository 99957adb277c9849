// A rename at a row that was found: RULES 01, "Finding and editing by key"; refusal 16.
ghost use Rattle.std.specs.Prelude.{◌≡◌, not, ◌||◌, eqb};
ghost use Rattle.tree.specs.Table.{table_of};
ghost use Rattle.tree.specs.Sound.{has_name};
ghost use Rattle.edit_at.specs.EditLeaves.{EditLeaves};
ghost use Rattle.table.specs.RowFound.{RowKnown};
ghost use Rattle.edit_at.specs.AtRow.{rename_at};

use tree::{Done, Refusal};

// Whether a row of this kind cannot get this name: it has none, or the name is 0.
#[tactic(auto, unfolding(tree::specs::Sound::has_name))]
fn unfit(kind: usize, new_name: usize) -> bool
    ensures { result ≡ (not (has_name kind) || eqb new_name 0) }
{
    !((kind == 1) | (kind == 4)) | (new_name == 0)
}

// A row gets the new name, or refusal 16. The other columns stay, and nobody asks for the row's parent.
pub fn rename_at(
    key: &mut [usize],
    size: &mut [usize],
    level: &mut [usize],
    kind: &mut [usize],
    name: &mut [usize],
    count: usize,
    row: usize,
    new_name: usize,
) -> Result<Done, Refusal>
    requires { RowKnown (table_of key.old size.old level.old kind.old name.old count) row }
    ensures { EditLeaves (rename_at
        (table_of key.old size.old level.old kind.old
        name.old count) row new_name) result
        key.new size.new level.new kind.new name.new }
{
    if unfit(kind[row], new_name) {
        return Err(Refusal::BadRename(row));
    }
    name[row] = new_name;
    Ok(Done {
        count,
        first: count,
        moved: 0,
    })
}
