// Guards, firing and starting, on a decoded model and lent values.

#![tactic(auto)]

ghost use Rattle.std.specs.Prelude.{◌≡◌, ◌≤◌, pos, length, take, replicate};
ghost use Rattle.results.specs.Results.{answered};
ghost use Rattle.expressions.specs.Cells.{valuation_of};
ghost use Rattle.semantics.specs.Meanings.{guard_over};
ghost use Rattle.semantics.specs.Firing.{fired, begun};
ghost use Rattle.reading.specs.Readings.{SameCells};
ghost use Rattle.propagation.specs.Lent.{BlankIn, BlankCellsIn};
ghost use Rattle.engine.specs.Cells.{AllHeld, admission, LeftByChanging};
ghost use Rattle.engine.specs.Lent.{LoadedIn, OnLoadedIn, BlankFiringIn, SameWork};

use crate::{DecodedModel, LoadedModel, Work};
use evaluation::Evaluation;
use reading::Gathering;
use rounds::IndexedTables;
use semantics::{Firing, NotFired};
use syntax::Cursor;

// The guard of a transition over cells.
pub fn guard(decoded: &DecodedModel<'_>, cells: &[Option<i32>], transition: usize) -> Evaluation
    ensures { (d : LoadedIn decoded.now.tables) → result ≡ guard_over d.decoded.system transition (valuation_of cells.now) }
{
    let tables = &decoded.tables;
    let Some(place) = tables.guards.get(transition) else {
        return Evaluation::Unknown;
    };
    let at = usize::from(*place);
    expressions::evaluate(tables.kinds, tables.parameters, cells, Cursor { at }).evaluation
}

// As many of the values lent as there are cells are held as cells; nothing is done where they are too few.
fn hold(values: &[i32], cells: &mut [Option<i32>])
    ensures { length cells.old ≤ length values.now → AllHeld (length cells.old) values.now cells.new }
{
    if let Some(values) = values.get(..cells.len()) {
        propagation::overwrite(values, cells);
    }
}

// What the guard makes of a firing.
#[tactic(auto, unfolding(crate::specs::Cells::admission, evaluation::specs::Meaning::is_true))]
fn admit(guard: Evaluation) -> Result<(), NotFired>
    ensures { result ≡ admission guard }
{
    match guard {
        guard if guard.is_true() => Ok(()),
        Evaluation::Failed(manner) => Err(NotFired::GuardFailed(manner)),
        _ => Err(NotFired::Disabled),
    }
}

// Guard and action over the values of all variables, held as cells: where the firing goes on, the new states are the first of those worked in.
fn change_states(
    decoded: &DecodedModel<'_>,
    work: &mut Work<'_, '_>,
    values: &[i32],
    transition: usize,
) -> Result<(), NotFired>
    requires { (length decoded.now.tables.variables.now ≤ length values.now → AllHeld (length decoded.now.tables.variables.now) values.now work.old.cells.now)
        × (work.old.states.now ≡ replicate (length decoded.now.tables.variables.now) (pos 0))
        × BlankIn decoded.now.tables work.old.gathering.now }
    ensures changed { OnLoadedIn decoded.now.tables (λ m. LeftByChanging m transition values.now work.new.states.now result) }
    ensures blank { BlankIn decoded.now.tables work.new.gathering.now }
    ensures same { SameWork work.old work.new }
{
    let tables = &decoded.tables;
    let state_count = tables.model.sizes.states;
    let variable_count = tables.model.sizes.variables();
    if values.len() < variable_count {
        return Err(NotFired::Disabled);
    }
    let states = &mut *work.states;
    let cells = &mut *work.cells;
    let gathering = &mut *work.gathering;
    let evaluation = guard(decoded, cells, transition);
    admit(evaluation)?;
    results::copy(&values[..state_count], &mut states[..state_count]);
    let action = tables.action_at(transition);
    if let Err(fault) = propagation::act(
        tables,
        cells,
        gathering,
        action,
        &mut states[..state_count],
    ) {
        states.fill(0);
        return Err(NotFired::ActionFault(fault));
    }
    Ok(())
}

// The states take these values, then the assertion.
pub fn begin_from(
    loaded: &LoadedModel<'_>,
    states: &[i32],
    cells: &mut [Option<i32>],
    gathering: &mut Gathering<'_>,
    values: &mut [i32],
) -> Firing
    requires { BlankCellsIn loaded.now.decoded.tables cells.old gathering.old }
    ensures begun { OnLoadedIn loaded.now.decoded.tables (λ m. answered result values.new ≡ begun m states.now values.old) }
    ensures blank { BlankCellsIn loaded.now.decoded.tables cells.new gathering.new }
    ensures same { SameCells gathering.old gathering.new }
{
    let state_count = loaded.decoded.tables.model.sizes.states;
    let variable_count = loaded.decoded.tables.model.sizes.variables();
    if values.len() < variable_count {
        return Err(NotFired::Disabled);
    }
    if states.len() != state_count {
        return Err(NotFired::Disabled);
    }
    let indexed = IndexedTables {
        tables: &loaded.decoded.tables,
        index: &loaded.index,
    };
    let count = propagation::propagate(
        &indexed,
        states,
        cells,
        gathering,
        &mut values[state_count..variable_count],
    )
    .map_err(NotFired::AssertionFault)?;
    results::copy(states, &mut values[..state_count]);
    Ok(count)
}

// The states take the first of the values worked in, then the assertion.
pub fn begin(loaded: &LoadedModel<'_>, work: &mut Work<'_, '_>, values: &mut [i32]) -> Firing
    requires { BlankCellsIn loaded.now.decoded.tables work.old.cells.now work.old.gathering.now }
    ensures begun { OnLoadedIn loaded.now.decoded.tables (λ m. answered result values.new ≡ begun m (take m.states work.old.states.now) values.old) }
    ensures blank { BlankCellsIn loaded.now.decoded.tables work.new.cells.now work.new.gathering.now }
    ensures states { work.new.states.now ≡ work.old.states.now }
    ensures same { SameWork work.old work.new }
{
    let states = &mut *work.states;
    let cells = &mut *work.cells;
    let gathering = &mut *work.gathering;
    let Some(states) = states.get(..loaded.decoded.tables.model.sizes.states) else {
        return Err(NotFired::Disabled);
    };
    begin_from(loaded, states, cells, gathering, values)
}

// Guard, action, assertion; nothing is recorded.
pub fn fire(
    loaded: &LoadedModel<'_>,
    work: &mut Work<'_, '_>,
    values: &mut [i32],
    transition: usize,
) -> Firing
    requires { BlankFiringIn loaded.now.decoded.tables work.old }
    ensures fired { OnLoadedIn loaded.now.decoded.tables (λ m. answered result values.new ≡ fired m transition values.old) }
    ensures blank { BlankFiringIn loaded.now.decoded.tables work.new }
    ensures same { SameWork work.old work.new }
{
    hold(values, work.cells);
    let changed = change_states(&loaded.decoded, work, values, transition);
    work.cells.fill(None);
    changed?;
    let firing = begin(loaded, work, values);
    work.states.fill(0);
    firing
}
