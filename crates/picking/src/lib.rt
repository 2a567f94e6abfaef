// Pick: the lowest transition whose guard is true, on a model file.

#![tactic(auto)]

ghost use Rattle.std.specs.Prelude.{◌≡◌, Ok, length};
ghost use Rattle.model.specs.Check.{verdict, answer_of};
ghost use Rattle.decoding.specs.Decoding.{Enough};
ghost use Rattle.engine.specs.Lent.{OnLoadedIn};
ghost use Rattle.standing.specs.Runs.{run_in};
ghost use Rattle.standing.specs.Runs.Answer.{picked};
ghost use Rattle.steps.specs.Answers.{seen_as, on_file_answer};
ghost use Rattle.inspection.specs.Queries as queries;

use decoding::Decoding;
use decoding::file::AcceptedFile;
use engine::{DecodedModel, transitions};
use model::{Model, Room, Sizes, check};
use results::Refusal;
use standing::{Declared, Run};

// 9, 10, 20, then the first transition whose guard is true, whatever the marks held; the guards after it are not looked at.
fn pick_loaded(
    decoded: &DecodedModel<'_>,
    run: &Run<'_>,
    cells: &mut [Option<i32>],
) -> Result<Option<usize>, Refusal>
    requires { length cells.old ≡ length decoded.now.tables.variables.now }
    ensures { OnLoadedIn decoded.now.tables (λ m. seen_as picked result ≡ queries.pick m (run_in run.now)) }
{
    let tables = &decoded.tables;
    let declared = Declared::from(tables);
    run.measure(&declared)?;
    run.check(&declared)?;
    let count = tables.variables.len();
    propagation::overwrite(&run.values[..count], cells);
    // By a loop: a `find` was tried, and what its test ensures was out of reach of the proof.
    for transition in 0..declared.transitions {
        let guard = transitions::guard(decoded, cells, transition);
        if marking::mark_of(guard) == 1 {
            return Ok(Some(transition));
        }
    }
    Ok(None)
}

// Decodes an accepted model of these sizes, and works the guards out. Not inlined: the arrays of all three sizes would stand on the stack
// at once.
#[inline(never)]
fn pick_in<const NODES: usize, const VARIABLES: usize, const TRANSITIONS: usize>(
    model: &[u8],
    sizes: Sizes,
    run: &Run<'_>,
) -> Result<Option<usize>, Refusal>
    requires accepted { answer_of (verdict model.now) ≡ Ok sizes }
    requires room { Enough sizes NODES VARIABLES TRANSITIONS }
    ensures { seen_as picked result ≡ on_file_answer (verdict model.now) (λ m. queries.pick m (run_in run.now)) }
{
    let mut arrays = Decoding::<NODES, VARIABLES, TRANSITIONS>::BLANK;
    let mut cells = [None; VARIABLES];
    let file = AcceptedFile {
        bytes: model,
        sizes,
    };
    let ready = arrays.decode(&file);
    let tables = arrays.tables(model, ready);
    let decoded = DecodedModel { tables };
    pick_loaded(&decoded, run, &mut cells[..sizes.variables()])
}

// The lowest transition whose guard is true, or none.
#[tactic(auto, using(decoding::proofs::Sizing::enough_few, decoding::proofs::Sizing::enough_many, decoding::proofs::Sizing::enough_most), unfolding(steps::specs::Answers::on_file_answer, model::specs::Check::answer_of))]
pub fn pick(model: &[u8], run: &Run<'_>) -> Result<Option<usize>, Refusal>
    ensures { seen_as picked result ≡ on_file_answer (verdict model.now) (λ m. queries.pick m (run_in run.now)) }
{
    let sizes = check::check(model)?;
    match sizes.room() {
        Room::Few => pick_in::<
            { Model::FEW_NODES },
            { Model::FEW_VARIABLES },
            { Model::FEW_TRANSITIONS },
        >(model, sizes, run),
        Room::Many => pick_in::<
            { Model::MANY_NODES },
            { Model::MANY_VARIABLES },
            { Model::MANY_TRANSITIONS },
        >(model, sizes, run),
        Room::Most => pick_in::<
            { Model::MAX_NODES },
            { Model::MAX_VARIABLES },
            { Model::MAX_TRANSITIONS },
        >(model, sizes, run),
    }
}
