// Marks, value and the check of the values: on a model file.

#![tactic(auto)]

ghost use Rattle.std.specs.Prelude.{◌≡◌, ◌+◌, ◌≤◌, Ok, length};
ghost use Rattle.model.specs.Sizes.{max_nodes};
ghost use Rattle.model.specs.Check.{verdict, answer_of};
ghost use Rattle.decoding.specs.Decoding.{RoomFor};
ghost use Rattle.standing.specs.Runs.{run_in, answered};
ghost use Rattle.standing.specs.Runs.Answer.{done, number};
ghost use Rattle.steps.specs.Answers.{seen_as, on_file, on_file_answer};
ghost use Rattle.inspection.specs.Asked.{DeclaredIn, told_outside};
ghost use Rattle.inspection.specs.Queries as queries;

use decoding::file::AcceptedFile;
use model::{Model, Room, Sizes, check};
use results::Refusal;
use standing::{Declared, RangeCheck, Run};
use variables::VariableRow;

// What an accepted model of these sizes declares, its variables decoded in the cells that are lent.
fn declarations<'a, const NODES: usize>(
    model: &[u8],
    sizes: Sizes,
    rows: &'a mut [VariableRow],
) -> Declared<'a>
    requires accepted { answer_of (verdict model.now) ≡ Ok sizes }
    requires room { (sizes.nodes ≤ NODES) × (NODES ≤ max_nodes) × (sizes.states + sizes.flows ≤ length rows.old) }
    ensures { DeclaredIn (verdict model.now) result }
{
    let file = AcceptedFile {
        bytes: model,
        sizes,
    };
    decoding::rows_in::<NODES>(&file, rows);
    Declared {
        transitions: sizes.transitions,
        variables: &rows[..sizes.variables()],
    }
}

// 9, 10 for the marks held and for the slice lent, 20, then the marks that the run holds, copied: of an accepted model of these sizes, here
// and in the next two. None is inlined: the arrays of all three sizes would stand on the stack at once.
#[tactic(auto, using(steps::proofs::Declarations::rows_declared), unfolding(steps::specs::Answers::on_file, crate::specs::Queries::marks, results::specs::Refusals::number_of))]
#[inline(never)]
fn marks_in<const NODES: usize, const VARIABLES: usize>(
    model: &[u8],
    sizes: Sizes,
    run: &Run<'_>,
    buffer: &mut [u8],
) -> Result<(), Refusal>
    requires accepted { answer_of (verdict model.now) ≡ Ok sizes }
    requires room { RoomFor sizes.nodes (sizes.states + sizes.flows) NODES VARIABLES }
    ensures { answered (seen_as (λ _. done) result) buffer.new
        ≡ on_file (verdict model.now) (λ m. queries.marks m (run_in run.now) buffer.old) buffer.old }
{
    let mut rows = [VariableRow::BLANK; VARIABLES];
    let declared = declarations::<NODES>(model, sizes, &mut rows);
    run.measure(&declared)?;
    let transitions = declared.transitions;
    if buffer.len() < transitions {
        return Err(Refusal::ShortSlice);
    }
    run.check(&declared)?;
    results::copy(&run.marks[..transitions], &mut buffer[..transitions]);
    Ok(())
}

// 9, 10, 12, 20, then the value of a variable.
#[tactic(auto, using(steps::proofs::Declarations::rows_declared), unfolding(steps::specs::Answers::on_file_answer, crate::specs::Queries::value, results::specs::Refusals::number_of))]
#[inline(never)]
fn value_in<const NODES: usize, const VARIABLES: usize>(
    model: &[u8],
    sizes: Sizes,
    run: &Run<'_>,
    variable: usize,
) -> Result<i32, Refusal>
    requires accepted { answer_of (verdict model.now) ≡ Ok sizes }
    requires room { RoomFor sizes.nodes (sizes.states + sizes.flows) NODES VARIABLES }
    ensures { seen_as number result
        ≡ on_file_answer (verdict model.now) (λ m. queries.value m variable (run_in run.now)) }
{
    let mut rows = [VariableRow::BLANK; VARIABLES];
    let declared = declarations::<NODES>(model, sizes, &mut rows);
    run.measure(&declared)?;
    let values = &run.values[..declared.variables.len()];
    let value = values.get(variable).ok_or(Refusal::NoSuchVariable)?;
    run.check(&declared)?;
    Ok(*value)
}

// 9, then the first variable outside its ends, or none.
#[tactic(auto, using(standing::proofs::Holding::outside_rows), unfolding(steps::specs::Answers::on_file_answer, crate::specs::Queries::range_check, results::specs::Refusals::number_of))]
#[inline(never)]
fn first_outside_in<const NODES: usize, const VARIABLES: usize>(
    model: &[u8],
    sizes: Sizes,
    values: &[i32],
) -> Result<RangeCheck, Refusal>
    requires accepted { answer_of (verdict model.now) ≡ Ok sizes }
    requires room { RoomFor sizes.nodes (sizes.states + sizes.flows) NODES VARIABLES }
    ensures { seen_as told_outside result
        ≡ on_file_answer (verdict model.now) (λ m. queries.range_check m values.now) }
{
    let mut rows = [VariableRow::BLANK; VARIABLES];
    let declared = declarations::<NODES>(model, sizes, &mut rows);
    if values.len() < declared.variables.len() {
        return Err(Refusal::ShortValues);
    }
    Ok(standing::check_ranges(declared.variables, values))
}

// The marks that the run holds, copied.
#[tactic(auto, using(decoding::proofs::Sizing::enough_few, decoding::proofs::Sizing::enough_many, decoding::proofs::Sizing::enough_most), unfolding(steps::specs::Answers::on_file, model::specs::Check::answer_of))]
pub fn marks(model: &[u8], run: &Run<'_>, buffer: &mut [u8]) -> Result<(), Refusal>
    ensures { answered (seen_as (λ _. done) result) buffer.new
        ≡ on_file (verdict model.now) (λ m. queries.marks m (run_in run.now) buffer.old) buffer.old }
{
    let sizes = check::check(model)?;
    match sizes.room() {
        Room::Few => marks_in::<{ Model::FEW_NODES }, { Model::FEW_VARIABLES }>(
            model, sizes, run, buffer,
        ),
        Room::Many => marks_in::<{ Model::MANY_NODES }, { Model::MANY_VARIABLES }>(
            model, sizes, run, buffer,
        ),
        Room::Most => marks_in::<{ Model::MAX_NODES }, { Model::MAX_VARIABLES }>(
            model, sizes, run, buffer,
        ),
    }
}

// The value of a variable.
#[tactic(auto, using(decoding::proofs::Sizing::enough_few, decoding::proofs::Sizing::enough_many, decoding::proofs::Sizing::enough_most), unfolding(steps::specs::Answers::on_file_answer, model::specs::Check::answer_of))]
pub fn value(model: &[u8], run: &Run<'_>, variable: usize) -> Result<i32, Refusal>
    ensures { seen_as number result
        ≡ on_file_answer (verdict model.now) (λ m. queries.value m variable (run_in run.now)) }
{
    let sizes = check::check(model)?;
    match sizes.room() {
        Room::Few => value_in::<{ Model::FEW_NODES }, { Model::FEW_VARIABLES }>(
            model, sizes, run, variable,
        ),
        Room::Many => value_in::<{ Model::MANY_NODES }, { Model::MANY_VARIABLES }>(
            model, sizes, run, variable,
        ),
        Room::Most => value_in::<{ Model::MAX_NODES }, { Model::MAX_VARIABLES }>(
            model, sizes, run, variable,
        ),
    }
}

// The check of the values: the first variable outside its ends, or none.
#[tactic(auto, using(decoding::proofs::Sizing::enough_few, decoding::proofs::Sizing::enough_many, decoding::proofs::Sizing::enough_most), unfolding(steps::specs::Answers::on_file_answer, model::specs::Check::answer_of))]
pub fn first_outside(model: &[u8], values: &[i32]) -> Result<RangeCheck, Refusal>
    ensures { seen_as told_outside result
        ≡ on_file_answer (verdict model.now) (λ m. queries.range_check m values.now) }
{
    let sizes = check::check(model)?;
    match sizes.room() {
        Room::Few => first_outside_in::<{ Model::FEW_NODES }, { Model::FEW_VARIABLES }>(
            model, sizes, values,
        ),
        Room::Many => first_outside_in::<{ Model::MANY_NODES }, { Model::MANY_VARIABLES }>(
            model, sizes, values,
        ),
        Room::Most => first_outside_in::<{ Model::MAX_NODES }, { Model::MAX_VARIABLES }>(
            model, sizes, values,
        ),
    }
}
