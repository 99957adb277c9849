// Deletion and rename at a row that was found in a sound table: RULES 01, "Finding and editing by key". A refusal
// leaves all columns as they were.
#![tactic(auto)]

pub mod renaming; // renaming.rt: a rename at a row
pub mod deletion; // deletion.rt: a deletion at a row
