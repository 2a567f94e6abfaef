// The bytes of a model file, from its sizes and the kinds and parameters of its nodes.

#![tactic(auto)]

ghost use Rattle.std.specs.Prelude.{◌≡◌, ◌≤◌};
ghost use Rattle.model.specs.Nodes.{little_bytes, parameter_bytes};
ghost use Rattle.model.specs.Sizes.{file_layout, header_bytes};
ghost use Rattle.encoding.specs.Files.{file_bytes};
ghost use Rattle.tapes.specs.Tapes.{tape, tape_in, put_all};

use model::{Layout, Model, Sizes};
use syntax::Tree;
use tapes::Tape;

// Writes a number in so many bytes, low byte first.
#[tactic(auto, using(crate::proofs::Numbers::low_bytes))]
fn put_number(tape: &mut Tape<'_, u8>, number: usize, width: usize)
    requires { width ≤ 8 }
    ensures put { tape_in tape.new ≡ put_all (little_bytes width number) (tape_in tape.old) }
    ensures same_cells { tape.new.cells.ghost_name ≡ tape.old.cells.ghost_name }
{
    tape.put(&number.to_le_bytes()[..width]);
}

// Writes a parameter in four bytes.
#[tactic(auto, using(crate::proofs::Numbers::signed_bytes))]
fn put_parameter(tape: &mut Tape<'_, u8>, parameter: i32)
    ensures put { tape_in tape.new ≡ put_all (parameter_bytes parameter) (tape_in tape.old) }
    ensures same_cells { tape.new.cells.ghost_name ≡ tape.old.cells.ghost_name }
{
    tape.put(&parameter.to_le_bytes());
}

// Writes the five numbers of the header.
#[tactic(auto, using(crate::proofs::Files::header_put))]
pub fn put_header(tape: &mut Tape<'_, u8>, sizes: Sizes)
    ensures put { tape_in tape.new ≡ put_all (header_bytes file_layout sizes) (tape_in tape.old) }
    ensures same_cells { tape.new.cells.ghost_name ≡ tape.old.cells.ghost_name }
{
    put_number(tape, sizes.states, Model::SIZE_WIDTH);
    put_number(tape, sizes.flows, Model::SIZE_WIDTH);
    put_number(tape, sizes.events, Model::SIZE_WIDTH);
    put_number(tape, sizes.transitions, Model::SIZE_WIDTH);
    put_number(tape, sizes.nodes, Layout::NODES_WIDTH);
}

// Writes the header, the kinds and the parameters.
#[tactic(auto, using(crate::proofs::Files::file_put, tapes::proofs::Tapes::pieces_done))]
fn put_file(tape: &mut Tape<'_, u8>, sizes: Sizes, tree: &Tree<'_>)
    ensures put { tape_in tape.new ≡ put_all (file_bytes sizes tree.now.kinds.now tree.now.parameters.now) (tape_in tape.old) }
    ensures same_cells { tape.new.cells.ghost_name ≡ tape.old.cells.ghost_name }
{
    put_header(tape, sizes);
    tape.put(tree.kinds);
    for parameter in tree.parameters {
        put_parameter(tape, *parameter);
    }
}

// Writes a model file from the first cell on; the place after it. What has no room is not written.
pub fn write_file(sizes: Sizes, tree: &Tree<'_>, out: &mut [u8]) -> usize
    ensures { tape out.new result ≡ put_all (file_bytes sizes tree.now.kinds.now tree.now.parameters.now) (tape out.old 0) }
{
    let mut file = Tape::new(out);
    put_file(&mut file, sizes, tree);
    file.at
}
