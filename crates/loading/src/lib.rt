// A checked model decoded and indexed in arrays that are declared here, and a move made on it.

#![tactic(auto)]

ghost use Rattle.std.specs.Prelude.{Ok, ◌≡◌, length};
ghost use Rattle.model.specs.Check.{verdict, answer_of};
ghost use Rattle.decoding.specs.Decoding.{RoomFor, Enough};
ghost use Rattle.engine.specs.Lent.{OnLoadedIn};
ghost use Rattle.standing.specs.Runs.{moving_run, answered};
ghost use Rattle.standing.specs.Lent.{SameRun};
ghost use Rattle.steps.specs.Calls.{step_on};
ghost use Rattle.steps.specs.Lent.{cells_left};
ghost use Rattle.steps.specs.Answers.{seen_as, told_by, on_file};

use decoding::Decoding;
use decoding::file::AcceptedFile;
use engine::{DecodedModel, LoadedModel};
use model::Sizes;
use replaying::Move;
use results::Refusal;
use standing::MovingRun;
use syntax::whole::WholeTree;
use tables::Index;

// Finds the index of a decoded model, and makes the move.
fn advance_decoded<const NODES: usize, const VARIABLES: usize>(
    decoded: &DecodedModel<'_>,
    run: &mut MovingRun<'_>,
    step: Move,
) -> Result<usize, Refusal>
    requires { RoomFor (length decoded.now.tables.kinds.now) (length decoded.now.tables.variables.now) NODES VARIABLES }
    ensures moved { OnLoadedIn decoded.now.tables (λ m.
        answered (seen_as (told_by step) result) (run.new.values.now, run.new.marks.now) ≡ cells_left (step_on m step (moving_run run.old))) }
    ensures same { SameRun run.old run.new }
{
    let tables = &decoded.tables;
    let nodes = tables.kinds.len();
    let mut heads = [0u16; VARIABLES];
    let mut mentions = [0u16; NODES];
    let mut owners = [0u16; NODES];
    let heads = &mut heads[..tables.variables.len()];
    let mentions = &mut mentions[..nodes];
    let owners = &mut owners[..nodes];
    let tree = WholeTree {
        kinds: tables.kinds,
        parameters: tables.parameters,
    };
    indexing::index(&tree, tables.model.assertion, heads, mentions, owners);
    let loaded = LoadedModel {
        decoded: *decoded,
        index: Index {
            heads,
            mentions,
            owners,
        },
    };
    moving::dispatch::<NODES, VARIABLES>(&loaded, run, step)
}

// Decodes an accepted model of these sizes, and makes the move on it. The file is made here: of a slice in a struct that is lent it is not
// told that each cell is a byte. Not inlined: the arrays of all three sizes would stand on the stack at once.
#[tactic(auto, using(decoding::proofs::InUse::decoded_used, decoding::proofs::InUse::kinds_lent, decoding::proofs::InUse::rows_lent))]
#[inline(never)]
pub fn advance_in<const NODES: usize, const VARIABLES: usize, const TRANSITIONS: usize>(
    model: &[u8],
    sizes: Sizes,
    run: &mut MovingRun<'_>,
    step: Move,
) -> Result<usize, Refusal>
    requires accepted { answer_of (verdict model.now) ≡ Ok sizes }
    requires room { Enough sizes NODES VARIABLES TRANSITIONS }
    ensures moved { answered (seen_as (told_by step) result) (run.new.values.now, run.new.marks.now)
        ≡ cells_left (on_file (verdict model.now) (λ m. step_on m step (moving_run run.old)) (moving_run run.old)) }
    ensures same { SameRun run.old run.new }
{
    let mut arrays = Decoding::<NODES, VARIABLES, TRANSITIONS>::BLANK;
    let file = AcceptedFile {
        bytes: model,
        sizes,
    };
    let ready = arrays.decode(&file);
    let tables = arrays.tables(model, ready);
    let decoded = DecodedModel { tables };
    advance_decoded::<NODES, VARIABLES>(&decoded, run, step)
}
