// The model file: the check.

#![tactic(auto)]

ghost use Rattle.std.specs.Prelude.{◌≡◌, ◌+◌, ◌*◌, ◌^◌, ◌<◌, ◌≤◌};
ghost use Rattle.model.specs.Sizes.{header_of};
ghost use Rattle.model.specs.Room.{room_of};

pub mod check; // check.rt: the check of a file, and of an expression handed outside a model
pub mod header; // header.rt: the sizes and the parameters
mod walk; // walk.rt: expressions, instructions, variables, transitions

use syntax::Cursor;

// What an expression handed outside a model must yield.
pub use kinds::Sort;

// How a file is laid out: the bytes of each of S, F, E, T, the most nodes, and the most variables.
#[derive(Clone, Copy, PartialEq, Eq, Debug)]
pub struct Layout {
    pub width: usize,
    pub max_nodes: usize,
    pub max_variables: usize,
}

impl Layout {
    // The layout that every call reads.
    pub const FILE: Layout = Layout {
        width: Model::SIZE_WIDTH,
        max_nodes: Model::MAX_NODES,
        max_variables: Model::MAX_VARIABLES,
    };

    // The layout of an old file, whose sizes S, F, E, T are a byte each: twice 255 variables at most.
    pub const BYTE: Layout = Layout {
        width: 1,
        max_nodes: 4000,
        max_variables: 510,
    };

    // The bytes of N.
    pub const NODES_WIDTH: usize = 2;

    // The bytes of a parameter.
    pub const PARAMETER_WIDTH: usize = 4;

    // The bytes of a node: its kind and its parameter.
    pub const NODE_WIDTH: usize = 5;

    // The bytes before the kinds: S, F, E, T, then N.
    pub fn header(self) -> usize
        requires { self.width ≤ 2 }
        ensures { result ≡ header_of self }
    {
        4 * self.width + Layout::NODES_WIDTH
    }
}

// The five sizes S, F, E, T, N.
#[derive(Clone, Copy, PartialEq, Eq, Debug)]
pub struct Sizes {
    pub states: usize,
    pub flows: usize,
    pub events: usize,
    pub transitions: usize,
    pub nodes: usize,
}

impl Sizes {
    // The variables: states, then flows.
    pub fn variables(self) -> usize
        requires { self.states + self.flows < 2 ^ 64 }
        ensures { result ≡ self.states + self.flows }
    {
        self.states + self.flows
    }

    // How many cells are enough for a model of these sizes.
    #[tactic(auto, unfolding(crate::specs::Room::room_of))]
    pub fn room(self) -> Room
        requires { self.states + self.flows < 2 ^ 64 }
        ensures { result ≡ room_of self }
    {
        let variables = self.variables();
        if self.nodes <= Model::FEW_NODES && variables <= Model::FEW_VARIABLES {
            Room::Few
        } else if self.nodes <= Model::MANY_NODES && variables <= Model::MANY_VARIABLES {
            Room::Many
        } else {
            Room::Most
        }
    }
}

// How many cells are enough for a model: arrays are declared of three sizes, since each of their cells is set at every call.
#[derive(Clone, Copy, PartialEq, Eq, Debug)]
pub enum Room {
    Few,
    Many,
    Most,
}

// A decoded model: its sizes and the place of its assertion.
#[derive(Clone, Copy, PartialEq, Eq, Debug)]
pub struct Model {
    pub sizes: Sizes,
    pub assertion: usize,
}

// The limits, and the widths of the header.
impl Model {
    pub const MAX_NODES: usize = 12000;

    pub const MAX_DEPTH: usize = 32;

    pub const MAX_VARIABLES: usize = 4000;

    // A transition has three nodes at least, and the assertion one.
    pub const MAX_TRANSITIONS: usize = 3999;

    // A model takes few cells up to here.
    pub const FEW_NODES: usize = 1024;

    pub const FEW_VARIABLES: usize = 256;

    // As many as so few nodes can have.
    pub const FEW_TRANSITIONS: usize = 341;

    // And many up to here, as every old file does.
    pub const MANY_NODES: usize = 4096;

    pub const MANY_VARIABLES: usize = 1024;

    pub const MANY_TRANSITIONS: usize = 1365;

    // The bytes of each of S, F, E, T.
    pub const SIZE_WIDTH: usize = 2;

    // Each of S, F, E, T is below it.
    pub const SIZE_BOUND: usize = 65536;

    // The bytes before the kinds.
    pub const HEADER: usize = 10;
}

// What a walk over a variable tells: its sort, ends and first value, and the place of the next node. The check reads the sort and the place
// alone; the others are what its promise says of the nodes.
#[derive(Clone, Copy, PartialEq, Eq, Debug)]
pub struct Declaration {
    pub sort: Sort,
    pub low: i32,
    pub high: i32,
    pub first: i32,
    pub next: Cursor,
}
