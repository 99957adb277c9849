// What an edit does to columns: rows open and close up; and the answer that tells what moved.
#![tactic(auto)]

pub mod mover; // mover.rt: a column opens for a piece, closes up, or is cleared
pub mod done; // done.rt: the answer of an edit
