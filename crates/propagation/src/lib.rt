// Actions, and the assertion over states.

#![tactic(auto)]

ghost use Rattle.std.specs.Prelude.{◌≡◌, ◌≤◌, length, replicate};
ghost use Rattle.results.specs.Results.{answered, over};
ghost use Rattle.scratch.specs.Blank.{unknown_cell};
ghost use Rattle.model.specs.Trees as trees;
ghost use Rattle.variables.specs.Rows.{firsts_in};
ghost use Rattle.interpreter.specs.Gathering.{fault_in};
ghost use Rattle.expressions.specs.Cells.{valuation_of};
ghost use Rattle.semantics.specs.Actions as actions;
ghost use Rattle.semantics.specs.Propagation.{settled_from, settle};
ghost use Rattle.semantics.specs.Propagation.Reached.{reached};
ghost use Rattle.reading.specs.Readings.{SameCells};
ghost use Rattle.rounds.specs.Lent.{AssertionHeld, RestingIn};
ghost use Rattle.propagation.specs.Cells.{cells_of, held_or, flows_by_settling, CountWithin, changed_by, states_by_acting};
ghost use Rattle.propagation.specs.Lent.{Emptied, FitsIn, BlankIn, BlankCellsIn, PropagationHeld, ActionHeld};

use interpreter::{Fault, Gathered};
use reading::{Gathering, Reading};
use rounds::IndexedTables;
use tables::Tables;
use variables::VariableRow;

// The first cells become these values. Cells are taken by number, here and in `fill` and `replace`: of those that are lent one by one to a
// `zip` nothing is known afterwards.
pub fn overwrite(values: &[i32], cells: &mut [Option<i32>])
    requires { length values.now ≤ length cells.old }
    ensures { cells.new ≡ over (cells_of values.now) cells.old }
{
    for (i, value) in values.iter().enumerate() {
        cells[i] = Some(*value);
    }
}

// Variables that are unknown take their first values.
fn fill(variables: &[VariableRow], cells: &mut [Option<i32>])
    requires { length variables.now ≤ length cells.old }
    ensures { cells.new ≡ over (cells_of (held_or cells.old (firsts_in variables.now))) cells.old }
{
    for (i, row) in variables.iter().enumerate() {
        cells[i].get_or_insert(row.first);
    }
}

// Values become what their cells hold, where they hold anything.
fn replace(cells: &[Option<i32>], values: &mut [i32])
    requires { length values.old ≤ length cells.now }
    ensures { values.new ≡ held_or cells.now values.old }
{
    for (i, value) in values.iter_mut().enumerate() {
        *value = cells[i].unwrap_or(*value);
    }
}

// The states take the values given to them, unless there is a fault.
fn change(found: Gathered, given: &[Option<i32>], states: &mut [i32]) -> Result<(), Fault>
    requires { length states.old ≤ length given.now }
    ensures { answered result states.new ≡ changed_by (fault_in found) states.old given.now }
{
    rounds::fault_in(found)?;
    replace(given, states);
    Ok(())
}

// What was gathered in is blank again.
fn clear(gathering: &mut Gathering<'_>)
    ensures blank { (gathering.new.given.now ≡ replicate (length gathering.old.given.now) unknown_cell)
        × (gathering.new.queue.now ≡ replicate (length gathering.old.queue.now) 0) × (gathering.new.waits.now ≡ replicate (length gathering.old.waits.now) 0) }
    ensures emptied { Emptied gathering.new }
    ensures same { SameCells gathering.old gathering.new }
{
    gathering.begin();
    gathering.given.fill(None);
    gathering.queue.fill(0);
    gathering.waits.fill(0);
}

// After the rounds: flows still unknown take their first values, and what still waits is read once more. The flows are written only where
// that finds no fault. The marks still count, so the gathering does not begin again.
fn finish(
    tables: &Tables<'_>,
    states: usize,
    cells: &mut [Option<i32>],
    gathering: &mut Gathering<'_>,
    flows: &mut [i32],
    count: usize,
) -> Result<usize, Fault>
    requires { PropagationHeld tables.now states (length flows.old) × FitsIn tables.now cells.old gathering.old
        × ((a : AssertionHeld tables.now) → RestingIn tables.now a cells.old gathering.old count) }
    ensures settled { (p : PropagationHeld tables.now states (length flows.old))
        → answered result flows.new ≡ flows_by_settling states flows.old (settled_from (trees.variables p.assertion.system) p.assertion.system.assertion (reached count (valuation_of cells.old))) }
    ensures same { SameCells gathering.old gathering.new }
{
    fill(tables.variables, cells);
    results::copy(cells, gathering.given);
    gathering.found = Gathered::default();
    gathering.queued = 0;
    // The tables are lent again, for as long as the cells are.
    let reading = Reading {
        tables: &*tables,
        cells,
        round: (count + 1) as u16,
    };
    rounds::scan(&reading, gathering);
    rounds::fault_in(gathering.found)?;
    replace(&cells[states..tables.variables.len()], flows);
    Ok(count)
}

// The assertion over these states: the rounds, then the end. The cells that it works in are left as they come.
fn settle_flows(
    indexed: &IndexedTables<'_>,
    states: &[i32],
    cells: &mut [Option<i32>],
    gathering: &mut Gathering<'_>,
    flows: &mut [i32],
) -> Result<usize, Fault>
    requires { PropagationHeld indexed.now.tables.now (length states.now) (length flows.old) × BlankCellsIn indexed.now.tables.now cells.old gathering.old }
    ensures settled { (p : PropagationHeld indexed.now.tables.now (length states.now) (length flows.old))
        → answered result flows.new ≡ flows_by_settling (length states.now) flows.old (settle p.assertion.system states.now) }
    ensures bounded { CountWithin (length flows.old) result }
    ensures same { SameCells gathering.old gathering.new }
{
    overwrite(states, cells);
    overwrite(states, gathering.given);
    let count = rounds::rounds(indexed, cells, gathering)?;
    finish(indexed.tables, states.len(), cells, gathering, flows, count)
}

// The assertion over these states: the flows are written only when it settles.
pub fn propagate(
    indexed: &IndexedTables<'_>,
    states: &[i32],
    cells: &mut [Option<i32>],
    gathering: &mut Gathering<'_>,
    flows: &mut [i32],
) -> Result<usize, Fault>
    requires { PropagationHeld indexed.now.tables.now (length states.now) (length flows.old) × BlankCellsIn indexed.now.tables.now cells.old gathering.old }
    ensures settled { (p : PropagationHeld indexed.now.tables.now (length states.now) (length flows.old))
        → answered result flows.new ≡ flows_by_settling (length states.now) flows.old (settle p.assertion.system states.now) }
    ensures bounded { CountWithin (length flows.old) result }
    ensures blank { BlankCellsIn indexed.now.tables.now cells.new gathering.new }
    ensures emptied { Emptied gathering.new }
    ensures same { SameCells gathering.old gathering.new }
{
    let settled = settle_flows(indexed, states, cells, gathering, flows);
    cells.fill(None);
    clear(gathering);
    settled
}

// An action over the values of all variables: the states, the old ones at first, change together.
pub fn act(
    tables: &Tables<'_>,
    cells: &[Option<i32>],
    gathering: &mut Gathering<'_>,
    action: usize,
    states: &mut [i32],
) -> Result<(), Fault>
    requires { ActionHeld tables.now cells.now states.old action × BlankIn tables.now gathering.old }
    ensures acted { (a : ActionHeld tables.now cells.now states.old action)
        → answered result states.new ≡ states_by_acting states.old (actions.act a.system a.action a.values) }
    ensures blank { BlankIn tables.now gathering.new }
    ensures emptied { Emptied gathering.new }
    ensures same { SameCells gathering.old gathering.new }
{
    gathering.begin();
    let reading = Reading {
        tables,
        cells,
        round: 1,
    };
    reading.gather(gathering, action);
    let changed = change(gathering.found, gathering.given, states);
    clear(gathering);
    changed
}
