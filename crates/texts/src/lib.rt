// Guards and other expressions typed as text: their nodes.

#![tactic(auto)]

ghost use Rattle.std.specs.Prelude.{◌≡◌, ◌≤◌, length};
ghost use Rattle.results.specs.Results.{answered};
ghost use Rattle.model.specs.Sizes.{max_variables};
ghost use Rattle.model.specs.Check.{verdict};
ghost use Rattle.composition.specs.Parts.{SameCells};
ghost use Rattle.texts.specs.Texts.{slices, typed_over, typed_in};

use composition::{Cells, Nodes};
use kinds::Sort;
use model::Model;
use parser::Source;
use results::Refusal;

// The most bytes of a text.
pub const MAX_TEXT: usize = 200;

// The least cells of each slice: every text has room.
pub const MIN_NODES: usize = composition::MAX_NODES;

// The nodes of a text over variables of these sorts.
#[tactic(auto, unfolding(crate::specs::Texts::typed_over, crate::specs::Texts::meant_by, crate::specs::Texts::written_into))]
fn write_over(text: &[u8], sorts: &[Sort], cells: &mut Cells<'_>) -> Result<usize, Refusal>
    requires { length sorts.now ≤ max_variables }
    ensures typed { answered result (slices cells.new.kinds.now cells.new.parameters.now)
        ≡ typed_over sorts.now text.now (slices cells.old.kinds.now cells.old.parameters.now) }
    ensures same { SameCells cells.old cells.new }
{
    if MAX_TEXT < text.len() {
        return Err(Refusal::TextTooLarge);
    }
    if cells.kinds.len() < MIN_NODES {
        return Err(Refusal::ShortSlice);
    }
    if cells.parameters.len() < MIN_NODES {
        return Err(Refusal::ShortSlice);
    }
    let mut nodes = Nodes::new();
    let source = Source { text, sorts };
    let part = source.parse(&mut nodes).ok_or(Refusal::NotInGrammar)?;
    if !part.below {
        return Err(Refusal::NoSuchVariable);
    }
    if part.sort.is_none() {
        return Err(Refusal::TypesDoNotFit);
    }
    if Model::MAX_DEPTH < usize::from(part.depth) {
        return Err(Refusal::TextTooLarge);
    }
    cells.write(&nodes);
    Ok(nodes.len())
}

// The nodes of a text, of either type, at the beginning of the two slices, and how many they are. The slices are lent one by one, as C
// lends them.
#[tactic(auto, unfolding(crate::specs::Texts::typed_in, decoding::specs::Decoding::sorts_after))]
pub fn write_nodes(
    model: &[u8],
    text: &[u8],
    kinds: &mut [u8],
    parameters: &mut [i32],
) -> Result<usize, Refusal>
    ensures { answered result (slices kinds.new parameters.new)
        ≡ typed_in (verdict model.now) text.now (slices kinds.old parameters.old) }
{
    let mut sorts = [Sort::Boolean; Model::MAX_VARIABLES];
    let sizes = decoding::sorts_of(model, &mut sorts)?;
    let mut cells = Cells { kinds, parameters };
    write_over(text, &sorts[..sizes.variables()], &mut cells)
}
