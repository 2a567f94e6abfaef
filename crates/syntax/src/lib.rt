// The nodes of a model file: the node that is due.

#![tactic(auto)]

pub mod nodes; // nodes.rt: the node that is due, with the moved cursor
pub mod whole; // whole.rt: a tree with a parameter for each kind

// A tree as its nodes in prefix order: the kind of each, and its parameter.
#[derive(Clone, Copy)]
pub struct Tree<'a> {
    pub kinds: &'a [u8],
    pub parameters: &'a [i32],
}

// A place among the nodes.
#[derive(Clone, Copy, PartialEq, Eq, Debug)]
pub struct Cursor {
    pub at: usize,
}

// A node that was read: its kind, its parameter and the place of the next. The kind is the byte that the file has, of which the readings
// speak: with a `Kind` here each of them would need a second node and a step between the two.
#[derive(Clone, Copy, PartialEq, Eq, Debug)]
pub struct Node {
    pub kind: u8,
    pub parameter: i32,
    pub next: Cursor,
}
