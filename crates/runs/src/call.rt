// A step's call that refusals 1 to 7 do not apply to, with what its axis follows. Whoever has one knows that.
ghost use Rattle.tree.specs.Table.{table_of};
ghost use Rattle.runs.specs.StepReady.{StepReady};

use scan::trees::Trees;
use tree::Ask;

// The columns of the table and of the pairs, what is asked, and by row what the axis follows.
#[derive(Clone, Copy)]
pub struct Call<'a> {
    pub key: &'a [usize],
    pub trees: Trees<'a>,
    pub kind: &'a [usize],
    pub name: &'a [usize],
    pub up: &'a [usize; 4096],
    pub role: &'a [usize],
    pub row: &'a [usize],
    pub ask: Ask,
    ghost ready: { StepReady (table_of key.now trees.size.now trees.level.now kind.now name.now trees.count)
        ask up.now role.now row.now },
}
