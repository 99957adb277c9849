// All roles, one after the other: the pairs of one role lie together.
#![tactic(auto)]

ghost use Rattle.std.specs.Prelude.{◌≡◌, length};
ghost use Rattle.tree.specs.Pairs.{pairs_of};
ghost use Rattle.tree.specs.Kept.{kept_count};
ghost use Rattle.lone.specs.Lone.{upward as upwardOf};
ghost use Rattle.axis.specs.Role.{RoleAsk, RoleDone};
ghost use Rattle.runs.specs.StepReady.{HasRoom, Lists};
ghost use Rattle.runs.specs.Lines.{step_lines};
ghost use Rattle.lines.specs.CallWalk.{IsWalk};

use axis::one_role;
use direct::earlier;
use kept::kept_of;
use later::later_siblings;
use links::walk::Walk;
use lone::{is_upward, lone_rows};
use marks::row_set::RowSet;
use runs::call::Call;
use runs::{fill, run_end};
use scan::want::{NodeTest, want_of};
use tree::Tally;

// What all roles of the call have in common.
fn walk_of<'a>(call: &Call<'a>) -> Walk<'a>
    ensures { IsWalk call.now result }
{
    Walk {
        trees: call.trees,
        up: call.up,
        test: NodeTest {
            want: want_of(call.ask),
            kind: call.kind,
            name: call.name,
        },
        axis: call.ask.axis,
    }
}

// The rows of one role: the way up of a lone context, the siblings by functions of their own, and all else by
// `one_role`. The lone context is chosen first, so that it does not pay for what `one_role` needs; whether its way is
// `upward` is the same for all roles.
//
// It is compiled into each of the two loops. Between a loop and what writes the rows, every role would pay for a second
// call and for the registers of the siblings.
#[inline(always)]
fn role_rows(
    walk: &Walk<'_>,
    rows: &[usize],
    upward: bool,
    set: &mut RowSet,
    out: &mut [usize],
) -> usize
    requires upward_value { upward ≡ upwardOf walk.now.axis walk.now.test.want }
    requires role_ask { RoleAsk walk.now rows.now set.old out.old }
    ensures { RoleDone walk.now rows.now set.new out.old result out.new }
{
    if rows.len() == 1 && upward {
        return lone_rows(&walk.trees, walk.up, &walk.test, rows, walk.axis, out);
    }
    if walk.axis == 10 {
        return later_siblings(walk, rows, set, out);
    }
    if earlier::is_rising(walk.trees.count, walk.up, rows, walk.axis) {
        return earlier::rising_rows(&walk.trees, walk.up, &walk.test, rows, out);
    }
    one_role(walk, rows, set, out)
}

// How many lines the step has: each role's rows are written to a scratch column.
pub fn count_all(call: &Call<'_>) -> usize
    ensures { result ≡ length (step_lines call.now) }
{
    let walk = walk_of(call);
    let upward = is_upward(walk.axis, walk.test.want);
    let role = call.role;
    let row = call.row;
    let mut set = RowSet::new();
    let mut scratch = [0usize; 4096];
    let mut total = 0;
    let mut i = 0;
    // From role to role: the next one begins where the run ends.
    while i < role.len() {
        let j = run_end(role, i);
        total += role_rows(&walk, &row[i..j], upward, &mut set, &mut scratch);
        i = j;
    }
    total
}

// Writes the lines of the step to the front of the result columns; answers how many, and the kept count.
pub fn write_all(call: &Call<'_>, out_role: &mut [usize], out_row: &mut [usize]) -> Tally
    requires { HasRoom (step_lines call.now) out_role.old out_row.old }
    ensures lists { Lists (step_lines call.now) out_role.old out_row.old result.listed
        out_role.new out_row.new }
    ensures kept_value { result.kept ≡ kept_count call.now.ask.axis call.now.trees.level.now
        (pairs_of call.now.role.now call.now.row.now) }
{
    let walk = walk_of(call);
    let upward = is_upward(walk.axis, walk.test.want);
    let role = call.role;
    let row = call.row;
    let mut set = RowSet::new();
    let mut kept = 0;
    let mut m = 0;
    let mut i = 0;
    // From role to role: the next one begins where the run ends.
    while i < role.len() {
        let j = run_end(role, i);
        let rows = &row[i..j];
        kept += kept_of(&walk.trees, walk.up, rows, walk.axis);
        let part = &mut out_row[m..];
        let n = role_rows(&walk, rows, upward, &mut set, part);
        fill(&mut out_role[m..], n, role[i]);
        m += n;
        i = j;
    }
    Tally { listed: m, kept }
}
