// What a step checks before it looks at its room: RULES 01, refusals 1 to 7, in their order.
ghost use Rattle.std.specs.Prelude.{◌≡◌};
ghost use Rattle.tree.specs.Table.{seen};
ghost use Rattle.tree.specs.Refusal.{next, table_check, pair_check, ask_check};

use asked::check_ask;
use pairs::check_pairs;
use tree::{Ask, Columns, Refusal};

// Refusals 1 to 7.
#[tactic(auto, unfolding(tree::specs::Refusal::next, tree::specs::Outcome::check_outcome))]
pub(crate) fn check_call(
    columns: &Columns<'_>,
    role: &[usize],
    row: &[usize],
    ask: Ask,
) -> Result<(), Refusal>
    ensures { result ≡ next
        (table_check (seen columns.now))
        (next (pair_check role.now row.now columns.now.count)
        (ask_check ask)) }
{
    table::check_columns(columns)?;
    check_pairs(columns.count, role, row)?;
    check_ask(ask)
}
