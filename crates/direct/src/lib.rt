// Siblings that come out in order, and are written as they are met: RULES 01, "The step", code 11, where the
// contexts allow it, and the walk over children that code 10 takes too.
#![tactic(auto)]

pub mod children; // children.rt: the children of a row, from one of them on and before another
pub mod earlier; // earlier.rt: the earlier siblings, where the parents of the contexts do not fall
