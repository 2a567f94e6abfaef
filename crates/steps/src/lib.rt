// Start, fire and undo: their definitions, the tests before them, and their answers.

#![tactic(auto)]

pub mod moves; // moves.rt: the tests, and the answer to a move
