// Cells that one function lends another to work in: blank when they are lent, and left blank. Definitions, and no functions: cells are
// made blank again by `fill`.

#![tactic(auto)]
