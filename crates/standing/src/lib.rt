// Does a run hold: number 20, and the check of the values behind it.

#![tactic(auto)]

ghost use Rattle.std.specs.Prelude.{◌≡◌, ◌<◌, ℕ, true, false, IfSome, IfOk, IfErr, map, length};
ghost use Rattle.results.specs.declared.refusal.Refusal.TheVariants.{InvalidRun};
ghost use Rattle.standing.specs.Runs.{run, run_in, moving_run};
ghost use Rattle.standing.specs.Holding.{ends_of, first_outside, looked_at, all_below, history_holds, marks_within, holds_declared, IsEnough, IsShort, declared_by};

use results::Refusal;
use tables::Tables;
use variables::VariableRow;

// How many marks there are: 0, 1 and 2.
const MARKS: usize = 3;

// A run as it is lent: its values, the marks it holds, the transitions recorded, and how many of these count.
#[derive(Clone, Copy)]
pub struct Run<'a> {
    pub values: &'a [i32],
    pub marks: &'a [u8],
    pub history: &'a [u16],
    pub count: usize,
}

// A run as it is lent to a move: values and marks to be changed; the history and the count are read, and follow its answer.
#[derive(Drop)]
pub struct MovingRun<'a> {
    pub values: &'a mut [i32],
    pub marks: &'a mut [u8],
    pub history: &'a [u16],
    pub count: usize,
}

// What the tests of a call on a run ask of a model: how many transitions it has, and the rows of its variables.
#[derive(Clone, Copy)]
pub struct Declared<'a> {
    pub transitions: usize,
    pub variables: &'a [VariableRow],
}

impl<'a> From<&Tables<'a>> for Declared<'a> {
    ghost from_gives = { λ tables declared. declared ≡ declared_by tables.now };

    // What the tables of a decoded model declare.
    fn from(tables: &Tables<'a>) -> Declared<'a> {
        Declared {
            transitions: tables.guards.len(),
            variables: tables.variables,
        }
    }
}

// What a check of values found: the first variable outside its ends or none, and how many values it looked at.
#[derive(Clone, Copy, PartialEq, Eq, Debug)]
pub struct RangeCheck {
    pub outside: Option<usize>,
    pub looked: usize,
}

// The first variable outside its ends finishes the check; no value after that one is looked at. A value that is missing is outside.
// By a loop: the test of a `find` would look at the second slice too, and owe a contract, which is longer.
pub fn check_ranges(variables: &[VariableRow], values: &[i32]) -> RangeCheck
    ensures outside { result.outside ≡ first_outside (map ends_of variables.now) values.now 0 }
    ensures looked { result.looked ≡ looked_at (length variables.now) (first_outside (map ends_of variables.now) values.now 0) }
{
    let mut looked = 0;
    for (variable, row) in variables.iter().enumerate() {
        looked += 1; // this one too, whatever its value is
        if !values
            .get(variable)
            .is_some_and(|value| row.is_within(*value))
        {
            return RangeCheck {
                outside: Some(variable),
                looked,
            };
        }
    }
    RangeCheck {
        outside: None,
        looked,
    }
}

// Is the number of each cell below the bound? A cell is a byte or a wider number; in the clause `number` tells each cell's.
pub fn all_below<T: Copy + Into<usize>>(bound: usize, cells: &[T]) -> bool
    ensures { (number : T → ℕ) → ((cell : T) (n : ℕ) → T.converts cell n → n ≡ number cell)
        → result ≡ all_below bound (map number cells.now) }
{
    cells.iter().all(|cell| (*cell).into() < bound)
}

impl<'a> Run<'a> {
    // The run of these slices and this count, one by one, as C lends them.
    pub fn new(values: &'a [i32], marks: &'a [u8], history: &'a [u16], count: usize) -> Run<'a>
        ensures { run_in result ≡ run values.now marks.now history.now count }
    {
        Run {
            values,
            marks,
            history,
            count,
        }
    }
}

impl MovingRun<'_> {
    // The run as it is before the move.
    pub fn shared(&self) -> Run<'_>
        ensures { run_in result ≡ moving_run self.now }
    {
        Run::new(self.values, self.marks, self.history, self.count)
    }
}

impl Run<'_> {
    // Are there a value for each variable and a mark for each transition: 9, 10.
    pub fn measure(&self, declared: &Declared<'_>) -> Result<(), Refusal>
        ensures enough { IfOk result (λ _. IsEnough declared.now (run_in self.now)) }
        ensures short { IfErr result (λ e. IsShort declared.now (run_in self.now) e) }
    {
        if self.values.len() < declared.variables.len() {
            return Err(Refusal::ShortValues);
        }
        if self.marks.len() < declared.transitions {
            return Err(Refusal::ShortSlice);
        }
        Ok(())
    }

    // Is the count within the history, and is every recorded entry a transition.
    fn history_holds(&self, transitions: usize) -> bool
        ensures { result ≡ history_holds transitions self.now.count self.now.history.now }
    {
        self.count <= self.history.len() && all_below(transitions, &self.history[..self.count])
    }

    // Is every mark of a transition 0, 1 or 2; every mark, if there are fewer than transitions.
    fn marks_hold(&self, transitions: usize) -> bool
        ensures { result ≡ marks_within transitions self.now.marks.now }
    {
        all_below(MARKS, &self.marks[..transitions.min(self.marks.len())])
    }

    // Does the run hold: 20 if it does not.
    pub fn check(&self, declared: &Declared<'_>) -> Result<(), Refusal>
        ensures held { IfOk result (λ _. holds_declared declared.now (run_in self.now) ≡ true) }
        ensures stale { IfErr result (λ e. (e ≡ InvalidRun) × (holds_declared declared.now (run_in self.now) ≡ false)) }
    {
        let transitions = declared.transitions;
        let holds = self.history_holds(transitions)
            && self.marks_hold(transitions)
            && check_ranges(declared.variables, self.values)
                .outside
                .is_none();
        if holds {
            Ok(())
        } else {
            Err(Refusal::InvalidRun)
        }
    }
}
