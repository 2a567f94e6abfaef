// The kinds of nodes.

ghost use Rattle.std.specs.Prelude.{◌≡◌};
ghost use Rattle.kinds.specs.Kinds.{Decodes, code_of, operand_sort, operator_of};

use super::Sort;
use evaluation::Operator;

// What a node is, with the byte that stands for it.
#[derive(Clone, Copy, PartialEq, Eq, Debug)]
pub enum Kind {
    // A Boolean variable, with its first value.
    BooleanVariable = 1,
    // The low end of a number variable, its first node.
    LowEnd = 2,
    // Its high end.
    HighEnd = 3,
    // Its first value.
    FirstValue = 4,
    Transition = 5,
    Skip = 16,
    Assignment = 17,
    IfThen = 18,
    Block = 19,
    // A number.
    Numeral = 32,
    // A Boolean.
    Truth = 33,
    Variable = 34,
    Negation = 35,
    Conjunction = 36,
    Disjunction = 37,
    // Of numbers.
    Equality = 38,
    Less = 39,
    LessOrEqual = 40,
    Sum = 41,
    Difference = 42,
    Product = 43,
    Quotient = 44,
    Remainder = 45,
    // If-then-else.
    Conditional = 46,
    // Of Booleans.
    Equivalence = 47,
}

// A byte that stands for no kind.
#[derive(Clone, Copy, PartialEq, Eq, Debug)]
pub struct UnknownKind(pub u8);

impl TryFrom<u8> for Kind {
    type Error = UnknownKind;

    ghost try_from_gives = { Decodes };

    // Here alone a byte becomes a kind.
    fn try_from(byte: u8) -> Result<Kind, UnknownKind> {
        match byte {
            1 => Ok(Kind::BooleanVariable),
            2 => Ok(Kind::LowEnd),
            3 => Ok(Kind::HighEnd),
            4 => Ok(Kind::FirstValue),
            5 => Ok(Kind::Transition),
            16 => Ok(Kind::Skip),
            17 => Ok(Kind::Assignment),
            18 => Ok(Kind::IfThen),
            19 => Ok(Kind::Block),
            32 => Ok(Kind::Numeral),
            33 => Ok(Kind::Truth),
            34 => Ok(Kind::Variable),
            35 => Ok(Kind::Negation),
            36 => Ok(Kind::Conjunction),
            37 => Ok(Kind::Disjunction),
            38 => Ok(Kind::Equality),
            39 => Ok(Kind::Less),
            40 => Ok(Kind::LessOrEqual),
            41 => Ok(Kind::Sum),
            42 => Ok(Kind::Difference),
            43 => Ok(Kind::Product),
            44 => Ok(Kind::Quotient),
            45 => Ok(Kind::Remainder),
            46 => Ok(Kind::Conditional),
            47 => Ok(Kind::Equivalence),
            _ => Err(UnknownKind(byte)),
        }
    }
}

impl Kind {
    // The byte that stands for it. No `u8::from`: the name says which number it is.
    pub fn code(self) -> u8
        ensures { result ≡ code_of self }
    {
        self as u8
    }

    // The sort of the operands of an operator; of another kind the answer means nothing.
    #[tactic(auto, unfolding(crate::specs::Kinds::operand_sort))]
    pub fn operand_sort(self) -> Sort
        ensures { result ≡ operand_sort (code_of self) }
    {
        match self {
            Kind::Negation | Kind::Conjunction | Kind::Disjunction | Kind::Equivalence =>
                Sort::Boolean,
            _ => Sort::Number,
        }
    }

    // The operator of a kind with two operands; of another the answer means nothing.
    #[tactic(auto, unfolding(crate::specs::Kinds::operator_of))]
    pub fn operator(self) -> Operator
        ensures { result ≡ operator_of (code_of self) }
    {
        match self {
            Kind::Conjunction => Operator::Conjunction,
            Kind::Disjunction => Operator::Disjunction,
            Kind::Equality => Operator::Equality,
            Kind::Less => Operator::Less,
            Kind::LessOrEqual => Operator::LessOrEqual,
            Kind::Sum => Operator::Sum,
            Kind::Difference => Operator::Difference,
            Kind::Product => Operator::Product,
            Kind::Quotient => Operator::Quotient,
            Kind::Remainder => Operator::Remainder,
            _ => Operator::Equivalence,
        }
    }
}
