// What an accepted edit leaves, in plain words (specs/Survives, Planted, Spare), and edits that may come in either
// order (specs/Independent, proofs/EitherOrder): theorems about the outcomes that the contracts of the three edits name,
// so no code.
#![tactic(auto)]
