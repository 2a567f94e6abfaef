// The check of a model file, and of an expression handed outside a model.

ghost use Rattle.std.specs.Prelude.{◌≡◌, ◌+◌, ◌≤◌, Ok, Some};
ghost use Rattle.model.specs.Sizes.{max_nodes, max_variables, sized};
ghost use Rattle.model.specs.Walk.{outcome, scope_of, transition_at};
ghost use Rattle.model.specs.Check.{max_depth, walked_in, verdict, byte_verdict, verdict_of_layout, answer_of, expression_given, given_answer};

use super::{Layout, Model, Room, Sizes, Sort, header, walk};
use results::Refusal;
use syntax::{Cursor, Tree};
use walk::Walker;

// The walk over the nodes of a file whose sizes have been read, in arrays that are declared here.
#[tactic(auto, using(crate::proofs::Bytes::file_length))]
fn walk_file<const NODES: usize, const VARIABLES: usize>(
    layout: Layout,
    model: &[u8],
    sizes: Sizes,
) -> Result<Cursor, Refusal>
    requires read { (layout.width ≤ 2) × (sized layout model.now ≡ Ok sizes) }
    requires room { (sizes.nodes ≤ NODES) × (sizes.states + sizes.flows ≤ VARIABLES) × (NODES ≤ max_nodes) × (VARIABLES ≤ max_variables) }
    ensures { result ≡ outcome (walked_in layout model.now sizes) }
{
    let mut cells = [0i32; NODES];
    let nodes = sizes.nodes;
    let header = layout.header();
    let past = header + nodes;
    let parameters = &mut cells[..nodes];
    header::parameters_in(model, past, parameters);
    let tree = Tree {
        kinds: &model[header..past],
        parameters,
    };
    walk::system::<VARIABLES>(&tree, sizes)
}

// The check of a model file by a layout.
#[tactic(auto, using(crate::proofs::Verdicts::file_answer))]
fn check_by(layout: Layout, model: &[u8]) -> Result<Sizes, Refusal>
    requires { (1 ≤ layout.width) × (layout.width ≤ 2) × (layout.max_nodes ≤ max_nodes) × (layout.max_variables ≤ max_variables) }
    ensures { result ≡ answer_of (verdict_of_layout layout model.now) }
{
    let sizes = header::read_sizes(layout, model)?;
    match sizes.room() {
        Room::Few => walk_file::<{ Model::FEW_NODES }, { Model::FEW_VARIABLES }>(
            layout, model, sizes,
        )?,
        Room::Many => walk_file::<{ Model::MANY_NODES }, { Model::MANY_VARIABLES }>(
            layout, model, sizes,
        )?,
        Room::Most => walk_file::<{ Model::MAX_NODES }, { Model::MAX_VARIABLES }>(
            layout, model, sizes,
        )?,
    };
    Ok(sizes)
}

// The check of a model file: its five sizes, or what refuses it.
pub fn check(model: &[u8]) -> Result<Sizes, Refusal>
    ensures { result ≡ answer_of (verdict model.now) }
{
    check_by(Layout::FILE, model)
}

// The check of an old file, each of whose sizes S, F, E, T stands in one byte.
pub fn check_byte_layout(model: &[u8]) -> Result<Sizes, Refusal>
    ensures { result ≡ answer_of (byte_verdict model.now) }
{
    check_by(Layout::BYTE, model)
}

// The check of an expression handed outside a model, over variables of these sorts.
#[tactic(auto, using(crate::proofs::Verdicts::given_outcome))]
pub fn check_over_sorts(tree: &Tree, sorts: &[Sort], wanted: Sort) -> Result<(), Refusal>
    ensures { result ≡ given_answer (expression_given tree.now.kinds.now tree.now.parameters.now sorts.now (Some wanted)) }
{
    if tree.kinds.len() != tree.parameters.len() {
        return Err(Refusal::WrongLength);
    }
    let walker = Walker {
        tree: *tree,
        sorts,
        targets: 0..0,
    };
    let next = walker.expression(Model::MAX_DEPTH, Some(wanted), Cursor::empty())?;
    if next.at < tree.kinds.len() {
        return Err(Refusal::NodesLeftOver);
    }
    Ok(())
}

// The check of a transition that stands at place `at` among these nodes, over variables of these sorts, the first `states` of
// them states: what refuses it, or the place after it.
#[tactic(auto, using(crate::proofs::Walking::row_none, crate::proofs::Walking::row_more))]
pub fn check_transition(
    tree: &Tree,
    sorts: &[Sort],
    events: usize,
    states: usize,
    at: usize,
) -> Result<Cursor, Refusal>
    ensures { result ≡ outcome (transition_at tree.now.kinds.now tree.now.parameters.now events (scope_of sorts.now 0 states) max_depth at) }
{
    let walker = Walker {
        tree: *tree,
        sorts,
        targets: 0..states,
    };
    // As a row of one, so that `transition` keeps its one caller and is compiled into it.
    walker.transitions(events, 1, Cursor { at })
}
