// An accepted file, decoded for the layers above, and the check of an expression handed outside a model.

#![tactic(auto)]

ghost use Rattle.std.specs.Prelude.{◌≡◌, List, ◌++◌, ℕ, ◌+◌, ◌<◌, ◌≤◌, ℤ, length, drop, Some};
ghost use Rattle.results.specs.Results.{answered, over};
ghost use Rattle.model.specs.Trees as trees;
ghost use Rattle.model.specs.Trees.{Transition, System, sorts_of};
ghost use Rattle.model.specs.Sizes.{file_layout, max_nodes};
ghost use Rattle.model.specs.Check.{kinds_in, parameters_in, verdict};
ghost use Rattle.model.specs.Check.Verdict.{accepted};
ghost use Rattle.model.specs.Standing.{size_of_transitions};
ghost use Rattle.variables.specs.Rows.{variable_rows};
ghost use Rattle.decoding.specs.NextPlaces.{children_by, following, filled};
ghost use Rattle.decoding.specs.Decoding.{Enough, EnoughCells, LentOf, VariablesRead, arrays, arrays_in, assertion_place, decoded_over, guard_places, nexts_of_transitions, sorts_after, transitions_place};
ghost use Rattle.decoding.specs.Outside.{given_after};

use file::AcceptedFile;
use kinds::Kind;
use model::{Model, Sizes, Sort, check, header};
use results::Refusal;
use syntax::whole::WholeTree;
use syntax::{Tree, nodes};
use tables::Tables;
use variables::VariableRow;

pub mod file; // file.rt: a file that the check accepts

// The arrays that a file is decoded to, with cells for so many nodes, variables and transitions.
#[derive(Drop)]
pub struct Decoding<const NODES: usize, const VARIABLES: usize, const TRANSITIONS: usize> {
    pub parameters: [i32; NODES],
    pub variables: [VariableRow; VARIABLES],
    pub nexts: [u16; NODES],
    pub guards: [u16; TRANSITIONS],
}

// The sorts of the variables from the first node on, as many as there are cells. A Boolean is one node, a number three.
// Not one walk with `read_variables`: the sorts are asked of the kinds alone.
pub fn sorts_in(kinds: &[u8], sorts: &mut [Sort])
    requires { (ps : List ℤ) × VariablesRead kinds.now ps (length sorts.old) }
    ensures { (ps : List ℤ) (read : VariablesRead kinds.now ps (length sorts.old)) → sorts.new ≡ sorts_of read.variables }
{
    let mut at = 0;
    for sort in sorts.iter_mut() {
        if kinds::stands_for(kinds[at], Kind::BooleanVariable) {
            *sort = Sort::Boolean;
            at += 1;
        } else {
            *sort = Sort::Number;
            at += 3;
        }
    }
}

// The variables from the first node on, as many as there are cells: their rows, and the place after them. The three nodes of
// a number are its low end, its high end and its first value.
#[tactic(auto, using(crate::proofs::StoredVariables::node_left, crate::proofs::StoredVariables::nodes_left))]
fn read_variables(tree: &WholeTree, variables: &mut [VariableRow]) -> usize
    requires { VariablesRead tree.now.kinds.now tree.now.parameters.now (length variables.old) }
    ensures { (read : VariablesRead tree.now.kinds.now tree.now.parameters.now (length variables.old)) →
        (result ≡ read.next) × (variables.new ≡ variable_rows read.variables) }
{
    let mut at = 0;
    for row in variables.iter_mut() {
        let parameter = tree.parameters[at];
        if kinds::stands_for(tree.kinds[at], Kind::BooleanVariable) {
            *row = VariableRow {
                low: 0,
                high: 1,
                first: parameter,
            };
            at += 1;
        } else {
            let high = tree.parameters[at + 1];
            let first = tree.parameters[at + 2];
            *row = VariableRow {
                low: parameter,
                high,
                first,
            };
            at += 3;
        }
    }
    at
}

// The number of children of a node.
fn children_of(kind: u8, parameter: i32) -> usize
    ensures { result ≡ children_by kind parameter }
{
    if kinds::stands_for(kind, Kind::Block) {
        return nodes::magnitude(parameter);
    }
    usize::from(kinds::row_of(kind).children)
}

// The place reached from place `from` by following so many entries, none of them past the last.
fn follow(nexts: &[u16], count: usize, from: usize) -> usize
    requires { from < 65536 }
    ensures { (result ≡ following nexts.now (length nexts.now) count from) × (result < 65536) }
{
    let mut here = from;
    for _ in 0..count {
        let Some(next) = nexts.get(here) else {
            return here;
        };
        here = usize::from(*next);
    }
    here
}

// The place after each node with its children, from the last node to the first.
fn next_places(tree: &WholeTree, nexts: &mut [u16])
    requires { (length tree.now.kinds.now < 65536) × (length nexts.old ≡ length tree.now.kinds.now) }
    ensures { nexts.new ≡ filled tree.now.kinds.now tree.now.parameters.now (length tree.now.kinds.now) nexts.old }
{
    for at in (0..nexts.len()).rev() {
        let children = children_of(tree.kinds[at], tree.parameters[at]);
        let after = follow(nexts, children, at + 1);
        nexts[at] = after as u16;
    }
}

// The places of the guards of so many transitions from place `from` on, and the place after them.
fn guard_places(nexts: &[u16], count: usize, from: usize, guards: &mut [u16]) -> usize
    requires { (count ≤ length guards.old) × (length nexts.now < 65536) }
    ensures { (ts : List Transition) (rest : List ℕ) → length ts ≡ count → drop from nexts.now ≡ nexts_of_transitions ts from ++ rest →
        (result ≡ from + size_of_transitions ts) × (guards.new ≡ over (guard_places ts from) guards.old) }
{
    let mut at = from;
    for guard in guards[..count].iter_mut() {
        let Some(next) = nexts.get(at) else {
            return at;
        };
        *guard = (at + 1) as u16;
        at = usize::from(*next);
    }
    at
}

// The parameters and the variables of an accepted file; the place of its first transition.
fn decode_variables(
    file: &AcceptedFile<'_>,
    parameters: &mut [i32],
    variables: &mut [VariableRow],
) -> usize
    requires { (file.now.sizes.nodes ≤ length parameters.old) × (file.now.sizes.states + file.now.sizes.flows ≤ length variables.old) }
    ensures { (t : System) → verdict file.now.bytes.now ≡ accepted file.now.sizes t →
        (result ≡ transitions_place t)
        × (parameters.new ≡ over (parameters_in file_layout file.now.sizes.nodes file.now.bytes.now) parameters.old)
        × (variables.new ≡ over (variable_rows (trees.variables t)) variables.old) }
{
    let sizes = file.sizes;
    let nodes = sizes.nodes;
    header::parameters_in(file.bytes, Model::HEADER + nodes, &mut parameters[..nodes]);
    let tree = WholeTree {
        kinds: kinds_of(file.bytes, nodes),
        parameters: &parameters[..nodes],
    };
    read_variables(&tree, &mut variables[..sizes.variables()])
}

// The decoding of an accepted file, into slices of any lengths that are enough for it.
pub fn decode_in(
    file: &AcceptedFile<'_>,
    parameters: &mut [i32],
    variables: &mut [VariableRow],
    nexts: &mut [u16],
    guards: &mut [u16],
) -> Model
    requires { EnoughCells file.now.sizes (length parameters.old) (length variables.old) (length nexts.old) (length guards.old) }
    ensures sizes { result.sizes ≡ file.now.sizes }
    ensures decoded { (t : System) → verdict file.now.bytes.now ≡ accepted file.now.sizes t →
        (result.assertion ≡ assertion_place t)
        × (arrays parameters.new variables.new nexts.new guards.new
        ≡ decoded_over file.now.bytes.now file.now.sizes t
        (arrays parameters.old variables.old nexts.old guards.old)) }
{
    let sizes = file.sizes;
    let nodes = sizes.nodes;
    let transitions = decode_variables(file, parameters, variables);
    let tree = WholeTree {
        kinds: kinds_of(file.bytes, nodes),
        parameters: &parameters[..nodes],
    };
    next_places(&tree, &mut nexts[..nodes]);
    let assertion = guard_places(nexts, sizes.transitions, transitions, guards);
    Model { sizes, assertion }
}

impl<const NODES: usize, const VARIABLES: usize, const TRANSITIONS: usize> Decoding<
    NODES,
    VARIABLES,
    TRANSITIONS,
> {
    // What stands in the arrays before a file is decoded.
    pub const BLANK: Self = Decoding {
        parameters: [0; NODES],
        variables: [VariableRow::BLANK; VARIABLES],
        nexts: [0; NODES],
        guards: [0; TRANSITIONS],
    };

    // The decoding of an accepted file, into cells that are enough for it.
    pub fn decode(&mut self, file: &AcceptedFile<'_>) -> Model
        requires { Enough file.now.sizes NODES VARIABLES TRANSITIONS }
        ensures sizes { result.sizes ≡ file.now.sizes }
        ensures decoded { (t : System) → verdict file.now.bytes.now ≡ accepted file.now.sizes t →
            (result.assertion ≡ assertion_place t)
            × (arrays_in self.new ≡ decoded_over file.now.bytes.now file.now.sizes t (arrays_in self.old)) }
    {
        decode_in(
            file,
            &mut self.parameters,
            &mut self.variables,
            &mut self.nexts,
            &mut self.guards,
        )
    }

    // The parts of the arrays that a model is decoded to, as they are lent.
    pub fn tables<'a>(&'a self, model: &'a [u8], decoded: Model) -> Tables<'a>
        requires { Enough decoded.sizes NODES VARIABLES TRANSITIONS }
        ensures { LentOf model.now (arrays_in self.now) decoded result }
    {
        let sizes = decoded.sizes;
        let nodes = sizes.nodes;
        Tables {
            model: decoded,
            kinds: kinds_of(model, nodes),
            parameters: &self.parameters[..nodes],
            variables: &self.variables[..sizes.variables()],
            nexts: &self.nexts[..nodes],
            guards: &self.guards[..sizes.transitions],
        }
    }
}

// The kinds of a file with so many nodes.
fn kinds_of(model: &[u8], nodes: usize) -> &[u8]
    ensures { result.now ≡ kinds_in file_layout nodes model.now }
{
    let rest = model.get(Model::HEADER..).unwrap_or(&[]);
    &rest[..nodes.min(rest.len())]
}

// The check of a model file, and the sorts of an accepted one's variables, which depend on its kinds alone.
pub fn sorts_of(model: &[u8], sorts: &mut [Sort; Model::MAX_VARIABLES]) -> Result<Sizes, Refusal>
    ensures { answered result sorts.new ≡ sorts_after (verdict model.now) sorts.old }
{
    let sizes = check::check(model)?;
    let kinds = kinds_of(model, sizes.nodes);
    sorts_in(kinds, &mut sorts[..sizes.variables()]);
    Ok(sizes)
}

// The rows of an accepted file's variables, whose parameters stand in an array that is declared here.
pub fn rows_in<const NODES: usize>(file: &AcceptedFile<'_>, variables: &mut [VariableRow])
    requires { (file.now.sizes.nodes ≤ NODES) × (NODES ≤ max_nodes) × (file.now.sizes.states + file.now.sizes.flows ≤ length variables.old) }
    ensures { (t : System) → verdict file.now.bytes.now ≡ accepted file.now.sizes t → variables.new ≡ over (variable_rows (trees.variables t)) variables.old }
{
    let mut parameters = [0i32; NODES];
    decode_variables(file, &mut parameters, variables);
}

// The check of an expression handed outside a model: the model's refusal, or the expression's over the model's variables.
pub fn check_expression(model: &[u8], tree: &Tree, wanted: Sort) -> Result<(), Refusal>
    ensures { result ≡ given_after (verdict model.now) tree.now.kinds.now tree.now.parameters.now (Some wanted) }
{
    let mut sorts = [Sort::Boolean; Model::MAX_VARIABLES];
    match sorts_of(model, &mut sorts) {
        Err(refusal) => Err(refusal),
        Ok(found) => check::check_over_sorts(tree, &sorts[..found.variables()], wanted),
    }
}
