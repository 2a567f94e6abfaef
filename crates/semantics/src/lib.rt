// What a model means: actions, the assertion, firing. Definitions and theorems, with the answers that they and the crates above
// speak of.

#![tactic(auto)]

use evaluation::Manner;
use interpreter::Fault;

// Why a transition was not fired: its guard is not true, it failed, or there is a fault in the action or in the assertion.
#[derive(Clone, Copy, PartialEq, Eq, Debug)]
pub enum NotFired {
    Disabled,
    GuardFailed(Manner),
    ActionFault(Fault),
    AssertionFault(Fault),
}

// What firing comes to: the round count, or why nothing was fired.
pub type Firing = Result<usize, NotFired>;
