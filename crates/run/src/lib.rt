// The calls on a run.

#![tactic(auto)]

ghost use Rattle.std.specs.Prelude.{◌≡◌};
ghost use Rattle.run.specs.Promises.{CheckPromise, StartPromise, FirePromise, UndoPromise, MarksPromise, ValuePromise, PickPromise, FirstOutsidePromise, PerformPromise};
ghost use Rattle.run.specs.Lent.{store_in, SameCells};
ghost use Rattle.run.specs.Lists.{Promise};
ghost use Rattle.run.specs.declared.Call.TheVariants.{Start, Fire, Undo, Marks};
ghost use Rattle.standing.specs.Runs.{run_in, answered};
ghost use Rattle.standing.specs.Runs.Answer.{rounds, done};
ghost use Rattle.steps.specs.Answers.{seen_as};

use model::Sizes;
use replaying::Move;
use results::Refusal;
use standing::{MovingRun, RangeCheck, Run};

// A call, with its transition or variable number.
#[derive(Clone, Copy, PartialEq, Eq, Debug)]
pub enum Call {
    Check,
    Start,
    Fire(usize),
    Undo,
    Marks,
    Value(usize),
    Pick,
    FirstOutside,
}

// What a call answers that is not refused: the round count, that it was done, a value, the five sizes, the transition picked or none,
// what a check of the values found.
#[derive(Clone, Copy, PartialEq, Eq, Debug)]
pub enum Answer {
    Rounds(usize),
    Done,
    Number(i32),
    Sizes(Sizes),
    Picked(Option<usize>),
    Outside(RangeCheck),
}

// All that is lent to be changed: the run, and the slice that the marks call copies into.
#[derive(Drop)]
pub struct Store<'a> {
    pub values: &'a mut [i32],
    pub marks: &'a mut [u8],
    pub history: &'a mut [u16],
    pub n: &'a mut usize,
    pub buffer: &'a mut [u8],
}

impl Store<'_> {
    // The run, as the calls that only read are lent it.
    pub fn run(&self) -> Run<'_>
        ensures { run_in result ≡ (store_in self.now).run }
    {
        Run::new(self.values, self.marks, self.history, *self.n)
    }

    // The start of the run.
    pub fn start(&mut self, model: &[u8]) -> Result<usize, Refusal>
        ensures performed { Promise model.now Start (store_in self.old) (answered (seen_as rounds result) (store_in self.new)) }
        ensures same { SameCells self.old self.new }
    {
        start(model, self.values, self.marks, self.n)
    }

    // A transition of the run.
    pub fn fire(&mut self, model: &[u8], transition: usize) -> Result<usize, Refusal>
        ensures performed { Promise model.now (Fire transition) (store_in self.old) (answered (seen_as rounds result) (store_in self.new)) }
        ensures same { SameCells self.old self.new }
    {
        fire(
            model,
            self.values,
            self.marks,
            self.history,
            self.n,
            transition,
        )
    }

    // The last recorded transition taken back.
    pub fn undo(&mut self, model: &[u8]) -> Result<(), Refusal>
        ensures performed { Promise model.now Undo (store_in self.old) (answered (seen_as (λ _. done) result) (store_in self.new)) }
        ensures same { SameCells self.old self.new }
    {
        // A part that is only read beside others that are lent to be changed is named first, here and below: no rule covers it else.
        let history = &mut *self.history;
        undo(model, self.values, self.marks, history, self.n)
    }

    // The marks call, into the buffer. Not by `run`, which borrows the buffer too.
    pub fn copy_marks(&mut self, model: &[u8]) -> Result<(), Refusal>
        ensures performed { Promise model.now Marks (store_in self.old) (answered (seen_as (λ _. done) result) (store_in self.new)) }
        ensures same { SameCells self.old self.new }
    {
        let values = &mut *self.values;
        let marks = &mut *self.marks;
        let history = &mut *self.history;
        let n = *self.n;
        self::marks(model, &Run::new(values, marks, history, n), self.buffer)
    }
}

// The check of a model: its five sizes.
pub fn check(model: &[u8]) -> Result<Sizes, Refusal>
    ensures { CheckPromise model.now result }
{
    model::check::check(model)
}

// States initial, then the assertion; n = 0, and the marks of the guards. The history is not lent.
// Here and in the next two the slices are lent one by one, as C lends them.
pub fn start(
    model: &[u8],
    values: &mut [i32],
    marks: &mut [u8],
    n: &mut usize,
) -> Result<usize, Refusal>
    ensures { StartPromise model.now values.old marks.old n.old result
        values.new marks.new n.new }
{
    let mut run = MovingRun {
        values,
        marks,
        history: &[],
        count: 0,
    };
    let rounds = advancing::advance(model, &mut run, Move::Start)?;
    *n = 0;
    Ok(rounds)
}

// Guard, action, assertion, then the transition at place n of the history, n one higher, and the marks of the guards.
pub fn fire(
    model: &[u8],
    values: &mut [i32],
    marks: &mut [u8],
    history: &mut [u16],
    n: &mut usize,
    transition: usize,
) -> Result<usize, Refusal>
    ensures { FirePromise model.now values.old marks.old history.old n.old transition result
        values.new marks.new history.new n.new }
{
    let count = *n;
    let mut run = MovingRun {
        values,
        marks,
        history,
        count,
    };
    let rounds = advancing::advance(model, &mut run, Move::Fire(transition))?;
    history[count] = transition as u16;
    *n = count + 1;
    Ok(rounds)
}

// Back to the values before the last recorded transition (01: take back), and to their marks.
pub fn undo(
    model: &[u8],
    values: &mut [i32],
    marks: &mut [u8],
    history: &[u16],
    n: &mut usize,
) -> Result<(), Refusal>
    ensures { UndoPromise model.now values.old marks.old history.now n.old result
        values.new marks.new n.new }
{
    let count = *n;
    let mut run = MovingRun {
        values,
        marks,
        history,
        count,
    };
    advancing::advance(model, &mut run, Move::Undo)?;
    *n = count - 1;
    Ok(())
}

// The marks that the run holds, copied, whatever its guards come to; start, fire and undo leave those of the guards.
pub fn marks(model: &[u8], run: &Run<'_>, buffer: &mut [u8]) -> Result<(), Refusal>
    ensures { MarksPromise model.now (run_in run.now) buffer.old result buffer.new }
{
    inspection::marks(model, run, buffer)
}

// The value of a variable.
pub fn value(model: &[u8], run: &Run<'_>, variable: usize) -> Result<i32, Refusal>
    ensures { ValuePromise model.now (run_in run.now) variable result }
{
    inspection::value(model, run, variable)
}

// The fireable transition with the lowest number, or none exactly if no guard is true.
pub fn pick(model: &[u8], run: &Run<'_>) -> Result<Option<usize>, Refusal>
    ensures { PickPromise model.now (run_in run.now) result }
{
    picking::pick(model, run)
}

// The first variable whose value is outside its ends or none, and how many values were looked at. The values alone are lent.
pub fn first_outside(model: &[u8], values: &[i32]) -> Result<RangeCheck, Refusal>
    ensures { FirstOutsidePromise model.now values.now result }
{
    inspection::first_outside(model, values)
}

// One call, given by value.
pub fn perform(call: Call, model: &[u8], store: &mut Store<'_>) -> Result<Answer, Refusal>
    ensures performed { PerformPromise model.now call (store_in store.old) result (store_in store.new) }
    ensures same { SameCells store.old store.new }
{
    match call {
        Call::Check => check(model).map(Answer::Sizes),
        Call::Start => store.start(model).map(Answer::Rounds),
        Call::Fire(transition) => store.fire(model, transition).map(Answer::Rounds),
        Call::Undo => store.undo(model).map(|()| Answer::Done),
        Call::Marks => store.copy_marks(model).map(|()| Answer::Done),
        Call::Value(variable) => value(model, &store.run(), variable).map(Answer::Number),
        Call::Pick => pick(model, &store.run()).map(Answer::Picked),
        Call::FirstOutside => first_outside(model, store.run().values).map(Answer::Outside),
    }
}
