// The trees of a table: the sizes and levels of its rows, of which the first `count` are in use. Whoever has one knows
// that they are the sizes and levels of trees, so no function that takes it asks for that.
ghost use Rattle.tree.specs.Rules.{Shape};

#[derive(Clone, Copy)]
pub struct Trees<'a> {
    pub size: &'a [usize],
    pub level: &'a [usize],
    pub count: usize,
    ghost shape: { Shape size.now level.now count },
}
