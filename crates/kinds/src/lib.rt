// The kinds of nodes, and the table of kinds: where a kind may stand, how many children it has, what it yields.

#![tactic(auto)]

ghost use Rattle.std.specs.Prelude.{◌≡◌, eqb};
ghost use Rattle.kinds.specs.Kinds.{code_of, operand_sort, operator_of, row_of};

use evaluation::Operator;

mod kind; // kind.rt: the kinds and their bytes
mod table; // table.rt: the row of every byte

pub use kind::{Kind, UnknownKind};

// The place where a kind may stand.
#[derive(Clone, Copy, PartialEq, Eq, Debug)]
pub enum Place {
    // 01's row says of every byte where it may stand, and this is its own answer for most: an Option of a place would say no more.
    Nowhere,
    Variable,
    HighEnd,
    FirstValue,
    Transition,
    Instruction,
    Expression,
}

// What an expression yields, and a variable holds.
#[derive(Clone, Copy, PartialEq, Eq, Debug)]
pub enum Sort {
    Boolean,
    Number,
}

// A row of the table of kinds. No result: the kind alone does not tell.
#[derive(Clone, Copy, PartialEq, Eq, Debug)]
pub struct Row {
    pub place: Place,
    pub children: u8,
    pub result: Option<Sort>,
}

// The row of a kind byte.
pub fn row_of(kind: u8) -> Row
    ensures { result ≡ row_of kind }
{
    table::ROWS[usize::from(kind)]
}

// Does the byte stand for this kind.
pub fn stands_for(byte: u8, kind: Kind) -> bool
    ensures { result ≡ eqb byte (code_of kind) }
{
    byte == kind as u8
}

// The sort of the operands of an operator, by the byte, as its node holds it; of another byte the answer means nothing.
pub fn operand_sort(kind: u8) -> Sort
    ensures { result ≡ operand_sort kind }
{
    Kind::try_from(kind).map_or(Sort::Number, Kind::operand_sort)
}

// The operator of a kind with two operands; it and the one before differ in what they call. Of another byte the answer means nothing: who
// asks knows the kind, and an Option would be taken apart again at every evaluation.
pub fn operator_of(kind: u8) -> Operator
    ensures { result ≡ operator_of kind }
{
    Kind::try_from(kind).map_or(Operator::Equivalence, Kind::operator)
}
