// What an edit's first moved row and move say: RULES 02, E1. Whether a table of so many rows can have had such an
// edit, and where a row of it stands afterwards.
#![tactic(auto)]

pub mod checks; // checks.rt: refusals 1, 3 to 5 and 17
pub mod moved; // moved.rt: a row after the edit
