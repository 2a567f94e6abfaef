// What waits: the reached instructions whose own expression is unknown. Where they stand, what a round has to read again, and the
// index by which it is found. Definitions and laws, with what the crates above speak of. There are no functions.

#![tactic(auto)]
