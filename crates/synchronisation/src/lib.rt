// Events that happen together: a model with one transition more, which fires mandatory and optional ones at once.

#![tactic(auto)]

ghost use Rattle.std.specs.Prelude.{◌≡◌, ◌&&◌, Ok, length};
ghost use Rattle.results.specs.Results.{answered};
ghost use Rattle.model.specs.Trees.{variables, sorts_of};
ghost use Rattle.model.specs.Check.{verdict, answer_of};
ghost use Rattle.decoding.specs.Decoding.{Enough};
ghost use Rattle.synchronisation.specs.Synchronisations.{is_empty, together, extended_into, synchronised_in, synchronised_by};
ghost use Rattle.synchronisation.specs.Members.{may_fit, SystemIn, JoinIn, ExtensionStands, joined_system};

use decoding::Decoding;
use decoding::file::AcceptedFile;
use model::{Layout, Model, Room, Sizes, Sort, check};
use nodes::{Members, Sheet};
use results::Refusal;
use syntax::Tree;
use tables::Tables;
use tapes::Tape;

mod nodes; // nodes.rt: the nodes of the new model

impl Members<'_> {
    // Are both lists empty?
    #[tactic(auto, using(crate::proofs::Lists::is_empty_lem))]
    fn is_empty(&self) -> bool
        ensures { result ≡ (is_empty self.now.mandatory.now && is_empty self.now.optional.now) }
    {
        self.mandatory.is_empty() && self.optional.is_empty()
    }
}

// Can the new model keep the limits, by the sizes of the old one and the numbers of members? Each member has at least one node.
#[tactic(auto, unfolding(crate::specs::Members::may_fit))]
fn may_fit(sizes: Sizes, members: &Members<'_>) -> bool
    ensures { result ≡ may_fit sizes (length members.now.mandatory.now) (length members.now.optional.now) }
{
    sizes.events < Model::SIZE_BOUND - 1
        && sizes.transitions < Model::SIZE_BOUND - 1
        && members.mandatory.len() <= Model::MAX_NODES
        && members.optional.len() <= Model::MAX_NODES
}

// Writes the new model, whose nodes are given, if its new transition is not too deep and the slice has room.
#[tactic(auto, using(crate::proofs::Extending::slice_short))]
fn write(
    sizes: Sizes,
    assertion: usize,
    tree: &Tree<'_>,
    sorts: &[Sort],
    out: &mut [u8],
) -> Result<usize, Refusal>
    requires { ExtensionStands sizes assertion tree.now.kinds.now tree.now.parameters.now sorts.now }
    ensures { (e : ExtensionStands sizes assertion tree.now.kinds.now tree.now.parameters.now sorts.now)
        → answered result out.new ≡ extended_into e.system e.transition out.old }
{
    check::check_transition(tree, sorts, sizes.events, sizes.states, assertion).map_err(
        |_| Refusal::LimitPassed,
    )?;
    let length = Model::HEADER + Layout::NODE_WIDTH * sizes.nodes;
    if out.len() < length {
        return Err(Refusal::LimitPassed);
    }
    encoding::write_file(sizes, tree, out);
    Ok(length)
}

// The new model of members that are there: 36, or its bytes and their number.
#[tactic(auto, unfolding(crate::specs::Members::may_fit))]
fn extend(
    tables: &Tables<'_>,
    sorts: &[Sort],
    members: &Members<'_>,
    out: &mut [u8],
) -> Result<usize, Refusal>
    requires { (j : JoinIn tables.now members.now) × (sorts.now ≡ sorts_of (variables (joined_system j))) }
    ensures { (j : JoinIn tables.now members.now) → sorts.now ≡ sorts_of (variables (joined_system j))
        → answered result out.new
        ≡ extended_into (joined_system j) (together (joined_system j).events j.members.mandatory j.members.optional) out.old }
{
    let sizes = tables.model.sizes;
    if !may_fit(sizes, members) {
        return Err(Refusal::LimitPassed);
    }
    let mut kinds = [0u8; nodes::ROOM];
    let mut parameters = [0i32; nodes::ROOM];
    let tables = *tables;
    // Tapes by literals: with `Tape::new` it is told of each, and no longer seen, that the sheet is blank.
    let mut sheet = Sheet {
        tables,
        kinds: Tape {
            cells: &mut kinds,
            at: 0,
        },
        parameters: Tape {
            cells: &mut parameters,
            at: 0,
        },
    };
    sheet.put_system(members);
    let count = sheet.kinds.at;
    if Model::MAX_NODES < count {
        return Err(Refusal::LimitPassed);
    }
    let sizes = Sizes {
        events: sizes.events + 1,
        transitions: sizes.transitions + 1,
        nodes: count,
        ..sizes
    };
    let kinds = sheet.kinds.cells;
    let parameters = sheet.parameters.cells;
    let tree = Tree {
        kinds: &kinds[..count],
        parameters: &parameters[..count],
    };
    write(sizes, tables.model.assertion, &tree, sorts, out)
}

// 35, 11, then the new model of the members.
fn join(
    tables: &Tables<'_>,
    sorts: &[Sort],
    members: &Members<'_>,
    out: &mut [u8],
) -> Result<usize, Refusal>
    requires { SystemIn tables.now sorts.now }
    ensures { (s : SystemIn tables.now sorts.now)
        → answered result out.new
        ≡ synchronised_in s.loaded.decoded.system members.now.mandatory.now members.now.optional.now out.old }
{
    if members.is_empty() {
        return Err(Refusal::NoMembers);
    }
    let transitions = tables.guards.len();
    if !standing::all_below(transitions, members.mandatory) {
        return Err(Refusal::NoSuchTransition);
    }
    if !standing::all_below(transitions, members.optional) {
        return Err(Refusal::NoSuchTransition);
    }
    extend(tables, sorts, members, out)
}

// The same of an accepted model of these sizes, decoded in arrays that are declared here. Not inlined, as in inspection.
#[inline(never)]
fn synchronise_in<const NODES: usize, const VARIABLES: usize, const TRANSITIONS: usize>(
    model: &[u8],
    sizes: Sizes,
    members: &Members<'_>,
    out: &mut [u8],
) -> Result<usize, Refusal>
    requires accepted { answer_of (verdict model.now) ≡ Ok sizes }
    requires room { Enough sizes NODES VARIABLES TRANSITIONS }
    ensures { answered result out.new
        ≡ synchronised_by (verdict model.now) members.now.mandatory.now members.now.optional.now out.old }
{
    let mut arrays = Decoding::<NODES, VARIABLES, TRANSITIONS>::BLANK;
    let mut sorts = [Sort::Boolean; VARIABLES];
    let file = AcceptedFile {
        bytes: model,
        sizes,
    };
    let ready = arrays.decode(&file);
    let tables = arrays.tables(model, ready);
    let sorts = &mut sorts[..sizes.variables()];
    decoding::sorts_in(tables.kinds, sorts);
    join(&tables, sorts, members, out)
}

// The model with one transition more, which fires the mandatory ones and those of the optional ones that can: its bytes in the first
// cells, and how many they are.
#[tactic(auto, using(decoding::proofs::Sizing::enough_few, decoding::proofs::Sizing::enough_many, decoding::proofs::Sizing::enough_most), unfolding(crate::specs::Synchronisations::synchronised_by, model::specs::Check::answer_of))]
pub fn synchronise(
    model: &[u8],
    mandatory: &[usize],
    optional: &[usize],
    out: &mut [u8],
) -> Result<usize, Refusal>
    ensures { answered result out.new
        ≡ synchronised_by (verdict model.now) mandatory.now optional.now out.old }
{
    let sizes = check::check(model)?;
    let members = Members {
        mandatory,
        optional,
    };
    match sizes.room() {
        Room::Few => synchronise_in::<
            { Model::FEW_NODES },
            { Model::FEW_VARIABLES },
            { Model::FEW_TRANSITIONS },
        >(model, sizes, &members, out),
        Room::Many => synchronise_in::<
            { Model::MANY_NODES },
            { Model::MANY_VARIABLES },
            { Model::MANY_TRANSITIONS },
        >(model, sizes, &members, out),
        Room::Most => synchronise_in::<
            { Model::MAX_NODES },
            { Model::MAX_VARIABLES },
            { Model::MAX_TRANSITIONS },
        >(model, sizes, &members, out),
    }
}
