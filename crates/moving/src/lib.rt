// Start, fire and undo on a decoded model, as far as the values and the marks go.

#![tactic(auto)]

ghost use Rattle.std.specs.Prelude.{◌≡◌, cond, ◌≤◌, length, replicate};
ghost use Rattle.results.specs.Results.{over};
ghost use Rattle.results.specs.Results as results;
ghost use Rattle.decoding.specs.Decoding.{RoomFor};
ghost use Rattle.scratch.specs.Blank.{unknown_cell};
ghost use Rattle.engine.specs.Lent.{OnLoadedIn};
ghost use Rattle.standing.specs.Runs.{moving_run, answered};
ghost use Rattle.standing.specs.Lent.{SameRun};
ghost use Rattle.marking.specs.Marks.{marks_over};
ghost use Rattle.replaying.specs.Replays.{is_fired};
ghost use Rattle.replaying.specs.Moves.{HasEntries, moved};
ghost use Rattle.steps.specs.Calls.{step_on};
ghost use Rattle.steps.specs.Lent.{cells_left};
ghost use Rattle.steps.specs.Answers.{seen_as, told_by};

use engine::{DecodedModel, LoadedModel, Work};
use interpreter::Gathered;
use reading::Gathering;
use replaying::Move;
use results::Refusal;
use semantics::Firing;
use standing::{Declared, MovingRun, Run};
use steps::moves;

// The move over these values, worked out in arrays that are declared here.
fn replay_within<const NODES: usize, const VARIABLES: usize>(
    loaded: &LoadedModel<'_>,
    cells: &mut [Option<i32>],
    values: &mut [i32],
    run: &Run<'_>,
    step: Move,
) -> Firing
    requires { RoomFor (length loaded.now.decoded.tables.kinds.now) (length loaded.now.decoded.tables.variables.now) NODES VARIABLES
        × (cells.old ≡ replicate (length loaded.now.decoded.tables.variables.now) unknown_cell)
        × HasEntries step (length run.now.history.now) run.now.count }
    ensures moved { OnLoadedIn loaded.now.decoded.tables (λ m. results.answered result values.new ≡ moved m step run.now.history.now run.now.count values.old) }
    ensures blank { cells.new ≡ cells.old }
{
    let mut states = [0i32; VARIABLES];
    let mut given = [None; VARIABLES];
    let mut queue = [0u16; VARIABLES];
    let mut waits = [0u16; NODES];
    let count = loaded.decoded.tables.variables.len();
    let mut gathering = Gathering {
        found: Gathered::default(),
        given: &mut given[..count],
        queue: &mut queue[..count],
        queued: 0,
        waits: &mut waits[..loaded.decoded.tables.kinds.len()],
        pending: 0,
    };
    let mut work = Work {
        states: &mut states[..count],
        cells,
        gathering: &mut gathering,
    };
    replaying::replay(loaded, &mut work, values, run, step)
}

// If the move was fired to its end, the values become the new ones, and the marks those of the new values.
fn conclude(
    firing: Firing,
    decoded: &DecodedModel<'_>,
    new: &[i32],
    cells: &mut [Option<i32>],
    run: &mut MovingRun<'_>,
)
    requires { (length new.now ≡ length decoded.now.tables.variables.now) × (length decoded.now.tables.variables.now ≤ length run.old.values.now)
        × (length decoded.now.tables.guards.now ≤ length run.old.marks.now) × (cells.old ≡ replicate (length decoded.now.tables.variables.now) unknown_cell) }
    ensures stored { run.new.values.now ≡ cond (is_fired firing) (over new.now run.old.values.now) run.old.values.now }
    ensures marked { OnLoadedIn decoded.now.tables (λ m.
        run.new.marks.now ≡ cond (is_fired firing) (marks_over m (over new.now run.old.values.now) run.old.marks.now) run.old.marks.now) }
    ensures same { SameRun run.old run.new }
{
    if firing.is_err() {
        return;
    }
    let values = &mut *run.values;
    let marks = &mut *run.marks;
    results::copy(new, &mut values[..new.len()]);
    marking::refresh(decoded, values, cells, marks);
}

// The tests, then the move on a copy of the values: they are replaced only if nothing is refused.
pub fn dispatch<const NODES: usize, const VARIABLES: usize>(
    loaded: &LoadedModel<'_>,
    run: &mut MovingRun<'_>,
    step: Move,
) -> Result<usize, Refusal>
    requires { RoomFor (length loaded.now.decoded.tables.kinds.now) (length loaded.now.decoded.tables.variables.now) NODES VARIABLES }
    ensures moved { OnLoadedIn loaded.now.decoded.tables (λ m.
        answered (seen_as (told_by step) result) (run.new.values.now, run.new.marks.now) ≡ cells_left (step_on m step (moving_run run.old))) }
    ensures same { SameRun run.old run.new }
{
    let tables = &loaded.decoded.tables;
    let lent = run.shared();
    moves::test(&Declared::from(tables), &lent, step)?;
    let count = tables.variables.len();
    let mut cells = [None; VARIABLES];
    let mut copy = [0i32; VARIABLES];
    let cells = &mut cells[..count];
    let copy = &mut copy[..count];
    results::copy(&lent.values[..count], copy);
    let firing = replay_within::<NODES, VARIABLES>(loaded, cells, copy, &lent, step);
    conclude(firing, &loaded.decoded, copy, cells, run);
    moves::answer_to(step, firing)
}
