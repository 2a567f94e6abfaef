// Starting from the initial states, and firing transitions one after another, on a decoded model.

#![tactic(auto)]

ghost use Rattle.std.specs.Prelude.{◌≡◌, length, Ok};
ghost use Rattle.results.specs.Results.{answered};
ghost use Rattle.semantics.specs.Firing.{begun};
ghost use Rattle.engine.specs.Lent.{OnLoadedIn, BlankFiringIn, SameWork};
ghost use Rattle.replaying.specs.Replays.{initial};
ghost use Rattle.replaying.specs.Moves.{HasEntries, fired_all, moved};

use engine::{LoadedModel, Work, transitions};
use semantics::Firing;
use standing::Run;

// What is done with the values and the marks of a run. It is matched on where it is tested, carried out and answered: three closures for
// each would be no plainer.
#[derive(Clone, Copy, PartialEq, Eq, Debug)]
pub enum Move {
    Start,
    Fire(usize),
    Undo,
}

// The initial states, and the assertion over them.
fn start(loaded: &LoadedModel<'_>, work: &mut Work<'_, '_>, values: &mut [i32]) -> Firing
    requires { BlankFiringIn loaded.now.decoded.tables work.old }
    ensures begun { OnLoadedIn loaded.now.decoded.tables (λ m. answered result values.new ≡ begun m (initial m) values.old) }
    ensures blank { BlankFiringIn loaded.now.decoded.tables work.new }
    ensures same { SameWork work.old work.new }
{
    let s = loaded.decoded.tables.model.sizes.states;
    variables::first_values(&loaded.decoded.tables.variables[..s], work.states);
    let firing = transitions::begin(loaded, work, values);
    work.states.fill(0);
    firing
}

// These transitions after what made so many rounds, one after another up to the first that is refused.
fn refire(
    loaded: &LoadedModel<'_>,
    work: &mut Work<'_, '_>,
    values: &mut [i32],
    entries: &[u16],
    rounds: usize,
) -> Firing
    requires { BlankFiringIn loaded.now.decoded.tables work.old }
    ensures fired { OnLoadedIn loaded.now.decoded.tables (λ m. answered result values.new ≡ fired_all m entries.now (answered (Ok rounds) values.old)) }
    ensures blank { BlankFiringIn loaded.now.decoded.tables work.new }
    ensures same { SameWork work.old work.new }
{
    let mut count = rounds;
    for transition in entries {
        let transition = usize::from(*transition);
        count = transitions::fire(loaded, work, values, transition)?;
    }
    Ok(count)
}

// The move over these values: a start, a fire, or a start and the transitions recorded but the last.
pub fn replay(
    loaded: &LoadedModel<'_>,
    work: &mut Work<'_, '_>,
    values: &mut [i32],
    run: &Run<'_>,
    step: Move,
) -> Firing
    requires { BlankFiringIn loaded.now.decoded.tables work.old
        × HasEntries step (length run.now.history.now) run.now.count }
    ensures moved { OnLoadedIn loaded.now.decoded.tables (λ m. answered result values.new ≡ moved m step run.now.history.now run.now.count values.old) }
    ensures blank { BlankFiringIn loaded.now.decoded.tables work.new }
    ensures same { SameWork work.old work.new }
{
    match step {
        Move::Start => start(loaded, work, values),
        Move::Fire(transition) => transitions::fire(loaded, work, values, transition),
        Move::Undo => {
            let rounds = start(loaded, work, values)?;
            let entries = &run.history[..run.count.saturating_sub(1)];
            refire(loaded, work, values, entries, rounds)
        }
    }
}
