// The least row of a table that is not sound: RULES 01, "The table".
#![tactic(auto)]

ghost use Rattle.std.specs.Prelude.{◌≡◌, ◌<◌, ◌≤◌, length};
ghost use Rattle.tree.specs.Table.{seen, shortest, count_ok};
ghost use Rattle.tree.specs.Sound.{beside_key_ok, first_bad};
ghost use Rattle.tree.specs.Rules.{InUse};
ghost use Rattle.keys.specs.Chain.{Empty, Chained};
ghost use Rattle.keys.specs.SameChains.{Same};
ghost use Rattle.rows.specs.FirstBad.{first_bad_beside_key};

use keys::Chains;
use rules::{kind_ok, level_ok, name_ok, size_ok};
use tree::Columns;

mod one_pass; // one_pass.rt: all rules of all rows in one pass

// The length of the shortest column.
#[tactic(auto, unfolding(tree::specs::Table::shortest))]
pub fn shortest(columns: &Columns<'_>) -> usize
    ensures { result ≡ shortest (seen columns.now) }
{
    let nodes = columns.kind.len().min(columns.name.len());
    let shape = columns.size.len().min(columns.level.len().min(nodes));
    columns.key.len().min(shape)
}

// Whether the count is 1 to 4,096 and no column is shorter.
#[tactic(auto, unfolding(tree::specs::Table::count_ok))]
pub fn count_ok(columns: &Columns<'_>) -> bool
    ensures { result ≡ count_ok (seen columns.now) }
{
    let count = columns.count;
    (1 <= count) & (count <= 4096) & (count <= shortest(columns))
}

// All rules of row i but the key's.
#[tactic(auto, unfolding(tree::specs::Sound::beside_key_ok))]
fn beside_key_ok(columns: &Columns<'_>, i: usize) -> bool
    requires i_lt_count { i < columns.now.count }
    requires in_use { InUse (seen columns.now) }
    ensures { result ≡ beside_key_ok (seen columns.now) i }
{
    level_ok(columns.level, i)
        & size_ok(columns.size, columns.level, columns.count, i)
        & kind_ok(columns.size[i], columns.level[i], columns.kind[i])
        & name_ok(columns.kind[i], columns.name[i])
}

// The least row that breaks a rule other than the key's, or the count, looked for row by row.
#[tactic(auto, unfolding(crate::specs::FirstBad::first_bad_beside_key))]
fn search_row_by_row(columns: &Columns<'_>) -> usize
    requires { InUse (seen columns.now) }
    ensures { result ≡ first_bad_beside_key (seen columns.now) }
{
    basics::least(columns.count, |i| !beside_key_ok(columns, i))
}

// The least row that is not sound, or the count: by one pass where every row is sound.
#[tactic(auto, using(crate::proofs::FirstBadLaws::first_bad_min))]
pub fn first_bad(columns: &Columns<'_>) -> usize
    requires { InUse (seen columns.now) }
    ensures { result ≡ first_bad (seen columns.now) }
{
    if one_pass::passed(columns) == columns.count {
        return columns.count;
    }
    search_row_by_row(columns).min(keys::first_key(columns.key, columns.count))
}

// The same for calls that look up keys afterwards: where every row is sound, all rows are chained in the chains lent
// for it, in which none is at first.
#[tactic(auto, using(crate::proofs::FirstBadLaws::first_bad_min, crate::proofs::FirstBadLaws::first_key_le))]
pub fn first_bad_in(columns: &Columns<'_>, chains: &mut Chains<'_>) -> usize
    requires in_use { InUse (seen columns.now) }
    requires in_room { columns.now.count ≤ length chains.old.next.now }
    requires empty { Empty chains.old.shift chains.old.heads.now }
    ensures value { result ≡ first_bad (seen columns.now) }
    ensures room { length chains.new.next.now ≡ length chains.old.next.now }
    ensures same { Same chains.old chains.new }
    ensures chained_2 { result ≡ columns.now.count
        → Chained chains.new.shift columns.now.key.now chains.new.heads.now chains.new.next.now
        columns.now.count }
{
    if one_pass::passed_in(columns, chains) == columns.count {
        return columns.count;
    }
    chains.clear();
    search_row_by_row(columns).min(chains.first_key(columns.key, columns.count))
}
