// The axes whose rows do not come out in order: a set of rows, into which the rows of one role are put.
#![tactic(auto)]

mod walk; // walk.rt: from sibling to sibling
pub mod row_set; // row_set.rt: a set of rows
pub mod mark; // mark.rt: the axes whose rows are put into a set
