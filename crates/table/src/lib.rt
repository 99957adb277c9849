// What every call checks first, and finding by its key where a row stands: RULES 01, "The table" and "Finding and
// editing by key"; RULES 02, E3. No column is changed.
#![tactic(auto)]

ghost use Rattle.std.specs.Prelude.{◌≡◌};
ghost use Rattle.tree.specs.Table.{table_of, seen};
ghost use Rattle.tree.specs.Rules.{Sound};
ghost use Rattle.tree.specs.Outcome.{check_outcome, find_outcome, located};

use tree::{Columns, Located, Refusal};

// Refusal 1 or 2, or that the table is sound.
#[tactic(auto, using(tree::proofs::SoundLaws::count_ok_lem), unfolding(tree::specs::Outcome::check_outcome, tree::specs::Refusal::table_check, tree::specs::Refusal::given, tree::specs::Refusal::next))]
pub fn check_columns(columns: &Columns<'_>) -> Result<(), Refusal>
    ensures { result ≡ check_outcome (seen columns.now) }
{
    if !rows::count_ok(columns) {
        return Err(Refusal::BadCount);
    }
    let bad = rows::first_bad(columns);
    if bad < columns.count {
        return Err(Refusal::UnsoundRow(bad));
    }
    Ok(())
}

// The same of five columns and a count.
pub fn check(
    key: &[usize],
    size: &[usize],
    level: &[usize],
    kind: &[usize],
    name: &[usize],
    count: usize,
) -> Result<(), Refusal>
    ensures { result ≡ check_outcome
        (table_of key.now size.now level.now
        kind.now name.now count) }
{
    check_columns(&Columns {
        key,
        size,
        level,
        kind,
        name,
        count,
    })
}

// Where the row of a key stands, or refusal 9; for calls that have checked the table.
#[tactic(auto, unfolding(tree::specs::Outcome::located))]
pub fn locate(columns: &Columns<'_>, key_wanted: usize) -> Result<Located, Refusal>
    requires { Sound (seen columns.now) }
    ensures { result ≡ located columns.now.key.now columns.now.level.now columns.now.count key_wanted }
{
    let row = keys::row_of(columns.key, columns.count, key_wanted);
    if row < columns.count {
        return Ok(located::where_is(columns.level, row));
    }
    Err(Refusal::UnknownKey)
}

// Where the row of a key stands, or refusal 1, 2 or 9.
#[tactic(auto, using(tree::proofs::SoundLaws::table_passes), unfolding(tree::specs::Outcome::find_outcome, tree::specs::Outcome::check_outcome, tree::specs::Refusal::next))]
pub fn find(
    key: &[usize],
    size: &[usize],
    level: &[usize],
    kind: &[usize],
    name: &[usize],
    count: usize,
    key_wanted: usize,
) -> Result<Located, Refusal>
    ensures { result ≡ find_outcome
        (table_of key.now size.now level.now
        kind.now name.now count) key_wanted }
{
    let columns = Columns {
        key,
        size,
        level,
        kind,
        name,
        count,
    };
    check_columns(&columns)?;
    locate(&columns, key_wanted)
}
