// One location step for all roles: RULES 01, "The step". Nothing is written before it is known that all of it fits.
#![tactic(auto)]

ghost use Rattle.tree.specs.Table.{table_of, seen};
ghost use Rattle.tree.specs.Outcome.{step_outcome};
ghost use Rattle.step.specs.StepLeaves.{StepLeaves};
ghost use Rattle.runs.specs.StepReady.{CallChecked};

mod checks; // checks.rt: refusals 1 to 7
mod room; // room.rt: whether the lines fit

use lines::write_all;
use links::up_for;
use runs::call::Call;
use scan::trees::Trees;
use tree::{Ask, Columns, Refusal, Tally};

// The step of a call that refusals 1 to 7 do not apply to: writes the lines to the front of the result columns and
// tells their number and the kept count, or refuses with 8 and leaves the columns as they were.
pub fn step_known(
    columns: &Columns<'_>,
    role: &[usize],
    row: &[usize],
    ask: Ask,
    out_role: &mut [usize],
    out_row: &mut [usize],
) -> Result<Tally, Refusal>
    requires { CallChecked (seen columns.now)
        ask role.now row.now }
    ensures { StepLeaves (step_outcome (seen columns.now)
        role.now row.now ask
        out_role.old out_row.old)
        result out_role.new out_row.new }
{
    let Columns {
        key,
        size,
        level,
        kind,
        name,
        count,
    } = *columns;
    let trees = Trees { size, level, count };
    let mut up = [0usize; 4096];
    up_for(&trees, ask.axis, &mut up);
    let call = Call {
        key,
        trees,
        kind,
        name,
        up: &up,
        role,
        row,
        ask,
    };
    room::check_room(&call, out_role.len().min(out_row.len()))?;
    Ok(write_all(&call, out_role, out_row))
}

// One step: the number of results and the kept count, or a refusal from 1 to 8, which changes no column.
pub fn step(
    key: &[usize],
    size: &[usize],
    level: &[usize],
    kind: &[usize],
    name: &[usize],
    count: usize,
    role: &[usize],
    row: &[usize],
    ask: Ask,
    out_role: &mut [usize],
    out_row: &mut [usize],
) -> Result<Tally, Refusal>
    ensures { StepLeaves (step_outcome (table_of key.now size.now level.now
        kind.now name.now count)
        role.now row.now ask
        out_role.old out_row.old)
        result out_role.new out_row.new }
{
    let columns = Columns {
        key,
        size,
        level,
        kind,
        name,
        count,
    };
    checks::check_call(&columns, role, row, ask)?;
    step_known(&columns, role, row, ask, out_role, out_row)
}
