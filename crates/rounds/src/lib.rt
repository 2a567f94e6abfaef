// The rounds of the assertion, reading again only what waits and mentions what became known.

#![tactic(auto)]

ghost use Rattle.std.specs.Prelude.{◌≡◌, Option, IfOk, false, ℕ, suc, ◌<◌, ◌≤◌, ℤ, length, take, drop, replicate};
ghost use mathlib.Core.List.{List, Memᴰ};
ghost use Rattle.model.specs.Trees as trees;
ghost use Rattle.interpreter.specs.Gathering.{fault_in};
ghost use Rattle.expressions.specs.Cells.{valuation_of};
ghost use Rattle.semantics.specs.Propagation as propagation_specs;
ghost use Rattle.waiting.specs.Marks.{mark_count};
ghost use Rattle.reading.specs.Readings.{SameCells};
ghost use Rattle.rounds.specs.Cells.{ending, finding_of, reached_in};
ghost use Rattle.rounds.specs.Rounds.{Pending, Queued, Done};
ghost use Rattle.rounds.specs.Lent.{AssertionHeld, IndexHeld, FittingIn, UnderWay, StillWakingIn, PassedIn, RestingIn, TurnIn, ReadyIn, SomeReadyIn};

use evaluation::Manner;
use interpreter::{Fault, Gathered};
use reading::{Gathering, Reading};
use tables::{Index, Tables};

// The tables of a model, and the index of its assertion.
#[derive(Clone, Copy)]
pub struct IndexedTables<'a> {
    pub tables: &'a Tables<'a>,
    pub index: &'a Index<'a>,
    pub ghost held: { IndexHeld tables.now index.now },
}

// A reading, and the index of the assertion that it reads.
#[derive(Clone, Copy)]
struct IndexedReading<'a> {
    reading: Reading<'a>,
    index: &'a Index<'a>,
    ghost held: { IndexHeld reading.tables.now index.now },
}

// The fault found: a zero divisor, too large, outside, a conflict, in this order.
#[tactic(auto, unfolding(crate::specs::Cells::finding_of, interpreter::specs::Gathering::fault_in))]
pub fn fault_in(found: Gathered) -> Result<(), Fault>
    ensures { result ≡ finding_of (fault_in found) }
{
    if found.zero_divisor {
        return Err(Fault::Failure(Manner::ZeroDivisor));
    }
    if found.too_large {
        return Err(Fault::Failure(Manner::TooLarge));
    }
    if found.outside {
        return Err(Fault::Outside);
    }
    if found.conflict {
        return Err(Fault::Conflict);
    }
    Ok(())
}

// The cells of the flows in the queue from `done` on become what was given. The queue names them in any order, so they are set by number.
fn apply(gathering: &Gathering<'_>, done: usize, cells: &mut [Option<i32>])
    requires { Pending gathering.now.queue.now done gathering.now.queued cells.old gathering.now.given.now
        × Queued gathering.now.queue.now gathering.now.queued (length gathering.now.given.now) × (done ≤ gathering.now.queued) }
    ensures { cells.new ≡ gathering.now.given.now }
{
    for flow in &gathering.queue[done..gathering.queued] {
        let x = usize::from(*flow);
        cells[x] = gathering.given[x];
    }
}

// The instruction at the place is read, if it waits since an earlier round.
fn visit(reading: &Reading<'_>, gathering: &mut Gathering<'_>, at: usize)
    requires { UnderWay reading.now gathering.old × (at < length reading.now.tables.now.kinds.now) }
    ensures still { StillWakingIn reading.now gathering.old gathering.new }
    ensures done { Done reading.now.round gathering.new.waits.now at }
    ensures same { SameCells gathering.old gathering.new }
{
    let stamp = gathering.waits[at];
    if stamp == 0 || stamp == reading.round {
        return;
    }
    reading.gather(gathering, at);
}

impl IndexedReading<'_> {
    // What waits and mentions the variable is read, from the first mention on.
    fn wake(&self, gathering: &mut Gathering<'_>, variable: usize)
        requires { UnderWay self.now.reading gathering.old × (variable < length self.now.reading.tables.now.variables.now) }
        ensures still { StillWakingIn self.now.reading gathering.old gathering.new }
        ensures passed { PassedIn self.now.reading gathering.new variable }
        ensures same { SameCells gathering.old gathering.new }
    {
        let index = self.index;
        let nodes = self.reading.tables.kinds.len();
        let mut mention = usize::from(index.heads[variable]);
        // Each mention tells the next, so there is no sequence to go over.
        while mention < nodes {
            if gathering.pending == 0 {
                return;
            }
            let owner = usize::from(index.owners[mention]);
            visit(&self.reading, gathering, owner);
            mention = usize::from(index.mentions[mention]);
        }
    }

    // What waits and mentions a flow in the queue is read, for those from `done` on. The queue grows meanwhile, so it is read by place.
    fn wake_all(&self, gathering: &mut Gathering<'_>, done: usize)
        requires { UnderWay self.now.reading gathering.old
            × Queued gathering.old.queue.now gathering.old.queued (length self.now.reading.tables.now.variables.now) × (done ≤ gathering.old.queued) }
        ensures still { StillWakingIn self.now.reading gathering.old gathering.new }
        ensures passed { (x : ℕ) → Memᴰ x (drop done (take gathering.old.queued gathering.old.queue.now)) → PassedIn self.now.reading gathering.new x }
        ensures same { SameCells gathering.old gathering.new }
    {
        for k in done..gathering.queued {
            let variable = usize::from(gathering.queue[k]);
            self.wake(gathering, variable);
        }
    }
}

// Everything that waits since an earlier round is read, from the assertion on. A reading changes the marks, so they are asked by place.
pub fn scan(reading: &Reading<'_>, gathering: &mut Gathering<'_>)
    requires { UnderWay reading.now gathering.old }
    ensures still { StillWakingIn reading.now gathering.old gathering.new }
    ensures done { (p : ℕ) → reading.now.tables.now.model.assertion ≤ p → p < length reading.now.tables.now.kinds.now → Done reading.now.round gathering.new.waits.now p }
    ensures same { SameCells gathering.old gathering.new }
{
    if gathering.pending == 0 {
        return;
    }
    let tables = reading.tables;
    for at in tables.model.assertion..tables.kinds.len() {
        visit(reading, gathering, at);
    }
}

// One round: the first reads the assertion, a later one what waits and mentions a flow that the last made known. The queue and the marks go on
// from round to round, so nothing begins here but what is found.
fn read_round(
    indexed: &IndexedTables<'_>,
    cells: &mut [Option<i32>],
    gathering: &mut Gathering<'_>,
    round: u16,
    done: usize,
)
    requires { SomeReadyIn indexed.now.tables.now cells.old gathering.old round done × FittingIn indexed.now.tables.now cells.old gathering.old }
    ensures turn { (start : List (Option ℤ)) → ReadyIn indexed.now.tables.now start cells.old gathering.old round done
        → TurnIn indexed.now.tables.now start cells.new gathering.new round gathering.old.queued }
    ensures applied { cells.new ≡ gathering.old.given.now }
    ensures same { SameCells gathering.old gathering.new }
{
    gathering.found = Gathered::default();
    let tables = indexed.tables;
    if round == 1 {
        let reading = Reading {
            tables,
            cells,
            round,
        };
        reading.gather(gathering, tables.model.assertion);
        return;
    }
    apply(gathering, done, cells);
    let reading = Reading {
        tables,
        cells,
        round,
    };
    let indexed = IndexedReading {
        reading,
        index: indexed.index,
    };
    indexed.wake_all(gathering, done);
}

// Rounds over the cells until one sets nothing, or a fault is met: how many were made.
pub fn rounds(
    indexed: &IndexedTables<'_>,
    cells: &mut [Option<i32>],
    gathering: &mut Gathering<'_>,
) -> Result<usize, Fault>
    requires { AssertionHeld indexed.now.tables.now
        × FittingIn indexed.now.tables.now cells.old (record gathering.old { queued = 0; pending = 0 })
        × (gathering.old.waits.now ≡ replicate (length indexed.now.tables.now.kinds.now) 0) × (gathering.old.given.now ≡ cells.old) }
    ensures reached { (a : AssertionHeld indexed.now.tables.now)
        → (reached_in result cells.new ≡ propagation_specs.rounds (trees.variables a.system) a.system.assertion (suc (length a.system.flows)) 0 (valuation_of cells.old))
        × ((count : ℕ) → result ≡ Ok count → RestingIn indexed.now.tables.now a cells.new gathering.new count) }
    ensures found { (finding_of (fault_in gathering.new.found) ≡ ending result) × IfOk result (λ _. gathering.new.found.fresh ≡ false) }
    ensures counted { Queued gathering.new.queue.now gathering.new.queued (length indexed.now.tables.now.variables.now)
        × (gathering.new.pending ≡ mark_count gathering.new.waits.now) }
    ensures same { SameCells gathering.old gathering.new }
{
    gathering.begin();
    let mut round: u16 = 1;
    let mut done = 0;
    // The form that 01 names: a loop that yields its outcome by break.
    loop {
        let queued = gathering.queued;
        read_round(indexed, cells, gathering, round, done);
        done = queued;
        if let Err(fault) = fault_in(gathering.found) {
            break Err(fault);
        }
        if !gathering.found.fresh {
            break Ok(usize::from(round));
        }
        round += 1;
    }
}
