// What all roles of a step have in common: the trees, what the axis follows in them, the node test and the axis.
// Whoever has one knows that they belong together, so no function that takes it asks for that.
ghost use Rattle.std.specs.Prelude.{◌≡◌, ◌≤◌, true, length};
ghost use Rattle.tree.specs.Axis.{axis_ok};
ghost use Rattle.links.specs.Links.{UpFor};

use scan::trees::Trees;
use scan::want::NodeTest;

#[derive(Clone, Copy)]
pub struct Walk<'a> {
    pub trees: Trees<'a>,
    pub up: &'a [usize; 4096],
    pub test: NodeTest<'a>,
    pub axis: usize,
    ghost known: { axis_ok axis ≡ true },
    ghost links: { UpFor axis trees.level.now trees.count up.now },
    ghost in_kind: { trees.count ≤ length test.kind.now },
    ghost in_name: { trees.count ≤ length test.name.now },
}
