// The bytes of a model file: sizes and parameters.

ghost use Rattle.std.specs.Prelude.{◌≡◌, ◌+◌, ◌*◌, ◌^◌, ◌≤◌, ◌<◌, length};
ghost use Rattle.model.specs.Check.{signed, parameters_at};
ghost use Rattle.model.specs.Nodes.{parameter_width};
ghost use Rattle.model.specs.Sizes.{little_at, sized, sizes_in, header_of};

use super::{Layout, Sizes};
use results::Refusal;

// The number in so many bytes from place `at` on, low byte first.
pub fn number(bytes: &[u8], at: usize, width: usize) -> usize
    requires width { width ≤ 8 }
    requires within { at + width ≤ length bytes.now }
    ensures value { result ≡ little_at bytes.now at width }
    ensures upper_bound { result < 256 ^ width }
{
    let mut widened = [0u8; 8];
    widened[..width].copy_from_slice(&bytes[at..at + width]);
    u64::from_le_bytes(widened) as usize
}

// The five sizes.
#[tactic(auto, using(crate::proofs::Bytes::sizes_read))]
fn sizes_in(layout: Layout, model: &[u8]) -> Sizes
    requires { (1 ≤ layout.width) × (layout.width ≤ 2) × (header_of layout ≤ length model.now) }
    ensures { result ≡ sizes_in layout model.now }
{
    let width = layout.width;
    Sizes {
        states: number(model, 0, width),
        flows: number(model, width, width),
        events: number(model, 2 * width, width),
        transitions: number(model, 3 * width, width),
        nodes: number(model, 4 * width, Layout::NODES_WIDTH),
    }
}

// Refusals 1, 2, 37, 3, or the five sizes.
#[tactic(auto, using(crate::proofs::Bytes::refused_1, crate::proofs::Bytes::refused_2, crate::proofs::Bytes::refused_37, crate::proofs::Bytes::refused_3, crate::proofs::Bytes::read_whole, crate::proofs::Bytes::nodes_small, crate::proofs::Bytes::variables_small))]
pub fn read_sizes(layout: Layout, model: &[u8]) -> Result<Sizes, Refusal>
    requires { (1 ≤ layout.width) × (layout.width ≤ 2) }
    ensures { result ≡ sized layout model.now }
{
    let header = layout.header();
    if model.len() < header {
        return Err(Refusal::ShortFile);
    }
    let sizes = sizes_in(layout, model);
    let nodes = sizes.nodes;
    if layout.max_nodes < nodes {
        return Err(Refusal::TooManyNodes);
    }
    if layout.max_variables < sizes.variables() {
        return Err(Refusal::TooManyVariables);
    }
    if model.len() != header + Layout::NODE_WIDTH * nodes {
        return Err(Refusal::WrongLength);
    }
    Ok(sizes)
}

// The parameter in the four bytes from place `at` on.
pub fn parameter_in(model: &[u8], at: usize) -> i32
    requires { at + parameter_width ≤ length model.now }
    ensures { result ≡ signed (little_at model.now at parameter_width) }
{
    i32::from_le_bytes([model[at], model[at + 1], model[at + 2], model[at + 3]])
}

// The parameters from place `from` on, as many as there are cells.
pub fn parameters_in(model: &[u8], from: usize, parameters: &mut [i32])
    requires { from + parameter_width * length parameters.old ≤ length model.now }
    ensures { parameters.new ≡ parameters_at model.now from (length parameters.old) }
{
    for (i, parameter) in parameters.iter_mut().enumerate() {
        *parameter = parameter_in(model, from + Layout::PARAMETER_WIDTH * i);
    }
}
