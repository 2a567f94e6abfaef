// The tests before start, fire and undo (01: take back), and the answer to what was done.

ghost use Rattle.std.specs.Prelude.{◌≡◌, Err};
ghost use Rattle.results.specs.Refusals.{number_of};
ghost use Rattle.semantics.specs.Meanings.{Meaning};
ghost use Rattle.standing.specs.Runs.{run_in};
ghost use Rattle.standing.specs.Runs.Answer.{refused};
ghost use Rattle.steps.specs.Answers.{seen_as, told_by};
ghost use Rattle.steps.specs.Calls as calls;
ghost use Rattle.steps.specs.Declarations.{Declares};
ghost use Rattle.steps.specs.Lent.{refused_at, refused_before, tested, answer_to};

use evaluation::Manner;
use interpreter::Fault;
use replaying::Move;
use results::Refusal;
use semantics::{Firing, NotFired};
use standing::{Declared, Run};

// 23 to 30, 38 to 40.
#[tactic(auto, unfolding(crate::specs::Calls::answer_of, results::specs::Refusals::number_of, interpreter::specs::Instructions::guard_number, interpreter::specs::Instructions::fault_number))]
fn refusal_of(reason: NotFired) -> Refusal
    ensures { refused (number_of result) ≡ calls.answer_of (Err reason) }
{
    match reason {
        NotFired::Disabled => Refusal::GuardFalse,
        NotFired::GuardFailed(Manner::ZeroDivisor) => Refusal::GuardZeroDivisor,
        NotFired::GuardFailed(Manner::TooLarge) => Refusal::GuardTooLarge,
        NotFired::ActionFault(Fault::Failure(Manner::ZeroDivisor)) => Refusal::ActionZeroDivisor,
        NotFired::ActionFault(Fault::Failure(Manner::TooLarge)) => Refusal::ActionTooLarge,
        NotFired::ActionFault(Fault::Outside) => Refusal::ActionOutside,
        NotFired::ActionFault(Fault::Conflict) => Refusal::ActionConflict,
        NotFired::AssertionFault(Fault::Failure(Manner::ZeroDivisor)) =>
            Refusal::AssertionZeroDivisor,
        NotFired::AssertionFault(Fault::Failure(Manner::TooLarge)) => Refusal::AssertionTooLarge,
        NotFired::AssertionFault(Fault::Outside) => Refusal::AssertionOutside,
        NotFired::AssertionFault(Fault::Conflict) => Refusal::AssertionConflict,
    }
}

// The answer to what was fired last: the round count, or why it was not fired. An undo answers 0, or is refused with 31.
#[tactic(auto, unfolding(crate::specs::Lent::answer_to, crate::specs::Answers::told_by, crate::specs::Calls::answer_of, results::specs::Refusals::number_of))]
pub fn answer_to(step: Move, firing: Firing) -> Result<usize, Refusal>
    ensures { seen_as (told_by step) result ≡ answer_to step firing }
{
    match step {
        Move::Start | Move::Fire(_) => firing.map_err(refusal_of),
        Move::Undo => firing.map(|_| 0).map_err(|_| Refusal::NotReplayable),
    }
}

// 20, and this refusal where n is at this end of the history.
fn test_history(
    declared: &Declared<'_>,
    run: &Run<'_>,
    end: usize,
    at_end: Refusal,
) -> Result<(), Refusal>
    ensures { (m : Meaning) → Declares m declared.now → tested result ≡ refused_at m end (number_of at_end) (run_in run.now) }
{
    run.check(declared)?;
    if run.count == end {
        return Err(at_end);
    }
    Ok(())
}

// 9, 10, then what is tried for the move: 11, 20, 21 for fire, 20, 22 for undo.
#[tactic(auto, using(crate::proofs::Declarations::rows_declared), unfolding(crate::specs::Lent::tested, crate::specs::Lent::refused_before, crate::specs::Lent::refused_by, results::specs::Refusals::number_of))]
pub fn test(declared: &Declared<'_>, run: &Run<'_>, step: Move) -> Result<(), Refusal>
    ensures { (m : Meaning) → Declares m declared.now → tested result ≡ refused_before m step (run_in run.now) }
{
    run.measure(declared)?;
    match step {
        Move::Start => Ok(()),
        Move::Fire(transition) => {
            if declared.transitions <= transition {
                return Err(Refusal::NoSuchTransition);
            }
            let end = run.history.len();
            test_history(declared, run, end, Refusal::FullHistory)
        }
        Move::Undo => test_history(declared, run, 0, Refusal::EmptyHistory),
    }
}
