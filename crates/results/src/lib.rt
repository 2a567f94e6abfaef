// What the promises of several crates are made of, why a call is refused, and how items are copied.

#![tactic(auto)]

mod cells; // cells.rt: items that are copied into cells
mod refusal; // refusal.rt: why a call is refused

pub use cells::copy;
pub use refusal::Refusal;
