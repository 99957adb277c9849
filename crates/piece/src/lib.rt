// Whether a piece may come under a row: RULES 01, "Finding and editing by key"; refusals 10 to 14.
#![tactic(auto)]

ghost use Rattle.std.specs.Prelude.{◌≡◌, ℕ, ◌+◌, ◌<◌, ◌≤◌, ◌||◌, ltb, length};
ghost use Rattle.tree.specs.Search.{some_below};
ghost use Rattle.tree.specs.Table.{seen, at, shortest};
ghost use Rattle.tree.specs.Refusal.{bad_piece, insert_check};
ghost use Rattle.table.specs.RowFound.{RowKnown};

use tree::{Columns, Refusal};

// Whether a piece would be refused by the check, or begins with a document, or has several trees: then row 0 and its
// descendants are not the whole piece.
fn bad_piece(piece: &Columns<'_>) -> bool
    ensures { result ≡ bad_piece (seen piece.now) }
{
    if table::check_columns(piece).is_err() {
        return true;
    }
    let Columns {
        size,
        kind,
        count,
        ..
    } = *piece;
    (kind[0] == 0) | (size[0] + 1 != count)
}

// Whether one of the first n levels, with add more, is above 63.
fn too_deep(level: &[usize], n: usize, add: usize) -> bool
    requires n_in_bounds { n ≤ length level.now }
    requires by_index { ((i : ℕ) → i < n → at level.now i ≤ 63) × (add ≤ 64) }
    ensures { result ≡ some_below (λ i. ltb 63 (at level.now i + add)) n }
{
    for &own in &level[..n] {
        let above = 63 < own + add;
        if above {
            return true;
        }
    }
    false
}

// Whether so many rows are above the limit, or more than the shortest column holds.
fn no_room(columns: &Columns<'_>, total: usize) -> bool
    ensures { result ≡ (ltb 4096 total || ltb (shortest (seen columns.now)) total) }
{
    (4096 < total) | (rows::shortest(columns) < total)
}

// Refusals 10 to 14 of a piece under a row, in their order.
#[tactic(auto, using(crate::proofs::PieceLaws::answers))]
pub fn check_piece(columns: &Columns<'_>, row: usize, piece: &Columns<'_>) -> Result<(), Refusal>
    requires { RowKnown (seen columns.now) row }
    ensures { result ≡ insert_check (seen columns.now) row (seen piece.now) }
{
    if bad_piece(piece) {
        return Err(Refusal::BadPiece);
    }
    let childless = 1 < columns.kind[row];
    if childless {
        return Err(Refusal::NotAParent(row));
    }
    if too_deep(piece.level, piece.count, columns.level[row] + 1) {
        return Err(Refusal::TooDeep);
    }
    let clash = clash::first_clash(columns.key, columns.count, piece.key, piece.count);
    if clash < piece.count {
        return Err(Refusal::KeyTaken(clash));
    }
    let total = columns.count + piece.count;
    if no_room(columns, total) {
        return Err(Refusal::NoRoom);
    }
    Ok(())
}
