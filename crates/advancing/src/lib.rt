// Start, fire and undo on a model file, checked and loaded in arrays of its size.

#![tactic(auto)]

ghost use Rattle.std.specs.Prelude.{◌≡◌};
ghost use Rattle.model.specs.Check.{verdict};
ghost use Rattle.standing.specs.Runs.{moving_run, answered};
ghost use Rattle.standing.specs.Lent.{SameRun};
ghost use Rattle.steps.specs.Calls.{step_on};
ghost use Rattle.steps.specs.Lent.{cells_left};
ghost use Rattle.steps.specs.Answers.{seen_as, told_by, on_file};

use model::{Model, Room, check};
use replaying::Move;
use results::Refusal;
use standing::MovingRun;

// Checks the model and makes the move.
#[tactic(auto, using(decoding::proofs::Sizing::enough_few, decoding::proofs::Sizing::enough_many, decoding::proofs::Sizing::enough_most), unfolding(steps::specs::Answers::on_file, model::specs::Check::answer_of))]
pub fn advance(model: &[u8], run: &mut MovingRun<'_>, step: Move) -> Result<usize, Refusal>
    ensures moved { answered (seen_as (told_by step) result) (run.new.values.now, run.new.marks.now)
        ≡ cells_left (on_file (verdict model.now) (λ m. step_on m step (moving_run run.old)) (moving_run run.old)) }
    ensures same { SameRun run.old run.new }
{
    let sizes = check::check(model)?;
    match sizes.room() {
        Room::Few => loading::advance_in::<
            { Model::FEW_NODES },
            { Model::FEW_VARIABLES },
            { Model::FEW_TRANSITIONS },
        >(model, sizes, run, step),
        Room::Many => loading::advance_in::<
            { Model::MANY_NODES },
            { Model::MANY_VARIABLES },
            { Model::MANY_TRANSITIONS },
        >(model, sizes, run, step),
        Room::Most => loading::advance_in::<
            { Model::MAX_NODES },
            { Model::MAX_VARIABLES },
            { Model::MAX_TRANSITIONS },
        >(model, sizes, run, step),
    }
}
