// The calls on a run, on a text, on a model and on a log for C: 0 and the results, or the number of the refusal and nothing that was
// lent changed.

#![tactic(auto, using(crate::proofs::Coding::seen), unfolding(crate::specs::Codes::code_of, crate::specs::Codes::code_in, crate::specs::Codes::coded_sizes, crate::specs::Codes::picked_or, crate::specs::Codes::outside_or, results::specs::Refusals::number_of))]

ghost use Rattle.std.specs.Prelude.{◌≡◌};
ghost use Rattle.capi.specs.Codes.{code_in, value_or, found_over};
ghost use Rattle.capi.specs.Promises.{CheckCoded, StartCoded, FireCoded, UndoCoded, MarksCoded, ValueCoded, PickCoded, FirstOutsideCoded, TextCoded, SynchroniseCoded, RewriteCoded, WindowsCoded, handed};

use results::Refusal;
use standing::Run;
use syntax::Tree;
use windows::Question;

// How many sizes a model has.
const SIZE_CELLS: usize = 5;

// The code of an answer: the number of the refusal, else 0.
#[tactic(auto, unfolding(crate::specs::Codes::code_in))]
fn code(answer: Result<(), Refusal>) -> u8
    ensures { result ≡ code_in answer }
{
    match answer {
        Err(refusal) => refusal.number(),
        Ok(()) => 0,
    }
}

// The code of an answer, whose value is handed out; where it is refused, what stood there stays.
#[tactic(auto, unfolding(crate::specs::Codes::code_in, crate::specs::Codes::value_or))]
fn hand<T: Copy>(answer: Result<T, Refusal>, cell: &mut T) -> u8
    ensures code { result ≡ code_in answer }
    ensures value { cell.new ≡ value_or cell.old answer }
{
    match answer {
        Err(refusal) => refusal.number(),
        Ok(value) => {
            *cell = value;
            0
        }
    }
}

// What was found, and 1; where there is none the cell stays, and 0.
#[tactic(auto, unfolding(crate::specs::Codes::found_over))]
fn hand_out(place: Option<usize>, cell: &mut usize, found: &mut u8)
    ensures { found_over cell.old place ≡ (cell.new, found.new) }
{
    *cell = place.unwrap_or(*cell);
    *found = u8::from(place.is_some());
}

// The five sizes, S F E T N, over the cells for them; under 5 cells is 10.
fn check_into(model: &[u8], sizes: &mut [u32]) -> Result<(), Refusal>
    ensures { CheckCoded model.now sizes.old (code_in result) sizes.new }
{
    let found = run::check(model)?;
    if sizes.len() < SIZE_CELLS {
        return Err(Refusal::ShortSlice);
    }
    sizes[..SIZE_CELLS].copy_from_slice(&[
        found.states as u32,
        found.flows as u32,
        found.events as u32,
        found.transitions as u32,
        found.nodes as u32,
    ]);
    Ok(())
}

// The five sizes, S F E T N; under 5 cells is 10.
#[unsafe(no_mangle)]
pub extern "C" fn gts_check(model: &[u8], sizes: &mut [u32]) -> u8
    ensures { CheckCoded model.now sizes.old result sizes.new }
{
    code(check_into(model, sizes))
}

// Start, with the round count.
#[unsafe(no_mangle)]
pub extern "C" fn gts_start(
    model: &[u8],
    values: &mut [i32],
    marks: &mut [u8],
    n: &mut usize,
    rounds: &mut usize,
) -> u8
    ensures { StartCoded model.now values.old marks.old n.old rounds.old result
        values.new marks.new n.new rounds.new }
{
    hand(run::start(model, values, marks, n), rounds)
}

// Fire of a transition, with the round count.
#[unsafe(no_mangle)]
pub extern "C" fn gts_fire(
    model: &[u8],
    values: &mut [i32],
    marks: &mut [u8],
    history: &mut [u16],
    n: &mut usize,
    transition: usize,
    rounds: &mut usize,
) -> u8
    ensures { FireCoded model.now values.old marks.old history.old n.old transition rounds.old result
        values.new marks.new history.new n.new rounds.new }
{
    hand(
        run::fire(model, values, marks, history, n, transition),
        rounds,
    )
}

// Undo of the last recorded transition.
#[unsafe(no_mangle)]
pub extern "C" fn gts_undo(
    model: &[u8],
    values: &mut [i32],
    marks: &mut [u8],
    history: &[u16],
    n: &mut usize,
) -> u8
    ensures { UndoCoded model.now values.old marks.old history.now n.old result
        values.new marks.new n.new }
{
    code(run::undo(model, values, marks, history, n))
}

// The marks that the run holds, copied, whatever its guards come to; start, fire and undo leave those of the guards.
#[unsafe(no_mangle)]
pub extern "C" fn gts_marks(
    model: &[u8],
    values: &[i32],
    marks: &[u8],
    history: &[u16],
    n: usize,
    buffer: &mut [u8],
) -> u8
    ensures { MarksCoded model.now values.now marks.now history.now n buffer.old result buffer.new }
{
    let run = Run::new(values, marks, history, n);
    code(run::marks(model, &run, buffer))
}

// The value of a variable.
#[unsafe(no_mangle)]
pub extern "C" fn gts_value(
    model: &[u8],
    values: &[i32],
    marks: &[u8],
    history: &[u16],
    n: usize,
    variable: usize,
    value: &mut i32,
) -> u8
    ensures { ValueCoded model.now values.now marks.now history.now n variable value.old result value.new }
{
    let run = Run::new(values, marks, history, n);
    hand(run::value(model, &run, variable), value)
}

// The lowest transition whose guard is true, over what stood in the cells.
fn pick_into(
    model: &[u8],
    run: &Run<'_>,
    transition: &mut usize,
    found: &mut u8,
) -> Result<(), Refusal>
    ensures { PickCoded model.now run.now.values.now run.now.marks.now run.now.history.now run.now.count
        transition.old found.old (code_in result) transition.new found.new }
{
    let picked = run::pick(model, run)?;
    hand_out(picked, transition, found);
    Ok(())
}

// The lowest transition whose guard is true: found is 1; where there is none found is 0 and the transition stays.
#[unsafe(no_mangle)]
pub extern "C" fn gts_pick(
    model: &[u8],
    values: &[i32],
    marks: &[u8],
    history: &[u16],
    n: usize,
    transition: &mut usize,
    found: &mut u8,
) -> u8
    ensures { PickCoded model.now values.now marks.now history.now n transition.old found.old result
        transition.new found.new }
{
    let run = Run::new(values, marks, history, n);
    code(pick_into(model, &run, transition, found))
}

// The first variable whose value is outside its ends and the count, over what stood in the cells.
fn first_outside_into(
    model: &[u8],
    values: &[i32],
    variable: &mut usize,
    found: &mut u8,
    looked: &mut usize,
) -> Result<(), Refusal>
    ensures { FirstOutsideCoded model.now values.now variable.old found.old looked.old (code_in result)
        variable.new found.new looked.new }
{
    let check = run::first_outside(model, values)?;
    *looked = check.looked;
    hand_out(check.outside, variable, found);
    Ok(())
}

// The first variable whose value is outside its ends: found is 1; where there is none found is 0 and the variable stays. looked is how
// many values were looked at.
#[unsafe(no_mangle)]
pub extern "C" fn gts_first_outside(
    model: &[u8],
    values: &[i32],
    variable: &mut usize,
    found: &mut u8,
    looked: &mut usize,
) -> u8
    ensures { FirstOutsideCoded model.now values.now variable.old found.old looked.old result
        variable.new found.new looked.new }
{
    code(first_outside_into(model, values, variable, found, looked))
}

// The nodes of a text, with their count.
#[unsafe(no_mangle)]
pub extern "C" fn gts_text(
    model: &[u8],
    text: &[u8],
    kinds: &mut [u8],
    parameters: &mut [i32],
    count: &mut usize,
) -> u8
    ensures { TextCoded model.now text.now kinds.old parameters.old count.old result
        kinds.new parameters.new count.new }
{
    hand(texts::write_nodes(model, text, kinds, parameters), count)
}

// The model with one transition more, which fires others together, with its length in bytes.
#[unsafe(no_mangle)]
pub extern "C" fn gts_synchronise(
    model: &[u8],
    mandatory: &[usize],
    optional: &[usize],
    out: &mut [u8],
    new_len: &mut usize,
) -> u8
    ensures { SynchroniseCoded model.now mandatory.now optional.now out.old new_len.old result
        out.new new_len.new }
{
    let answer = synchronisation::synchronise(model, mandatory, optional, out);
    hand(answer, new_len)
}

// An old file in the layout that every call reads, with its length in bytes.
#[unsafe(no_mangle)]
pub extern "C" fn gts_rewrite(old: &[u8], out: &mut [u8], new_len: &mut usize) -> u8
    ensures { RewriteCoded old.now out.old new_len.old result out.new new_len.new }
{
    hand(rewriting::rewrite(old, out), new_len)
}

// Windows over a log: for every row how many rows of its window make the condition true, the largest value of the number there, and 1, or 0
// and 0 where there is none; with the number of rows.
#[unsafe(no_mangle)]
pub extern "C" fn gts_windows(
    model: &[u8],
    condition_kinds: &[u8],
    condition_parameters: &[i32],
    number_kinds: &[u8],
    number_parameters: &[i32],
    window: usize,
    rows: &[i32],
    figures: &mut [i32],
    count: &mut usize,
) -> u8
    ensures { WindowsCoded model.now (handed condition_kinds.now condition_parameters.now) (handed number_kinds.now number_parameters.now)
        window rows.now figures.old count.old result figures.new count.new }
{
    let question = Question {
        condition: Tree {
            kinds: condition_kinds,
            parameters: condition_parameters,
        },
        number: Tree {
            kinds: number_kinds,
            parameters: number_parameters,
        },
        window,
        log: rows,
    };
    hand(windows::report(model, &question, figures), count)
}
