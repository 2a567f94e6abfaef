// Evaluations (01: readings), the operators, and the arithmetic of single operators over whole numbers of 32 bits.

#![tactic(auto)]

ghost use Rattle.std.specs.Prelude.{◌≡◌, MatchOption, ◌+ℤ◌, ◌-ℤ◌, ◌*ℤ◌};
ghost use Rattle.std.specs.Int.Signed.{lt_z, le_z, quot_z, rem_z};
ghost use Rattle.evaluation.specs.Numbers.{checked, eq_z, boolean};
ghost use Rattle.evaluation.specs.Meaning.{divided, is_true};

// Why an expression failed (02, A8: its manner): a divisor is 0, or a number is beyond 32 bits.
#[derive(Clone, Copy, PartialEq, Eq, Debug)]
pub enum Manner {
    ZeroDivisor,
    TooLarge,
}

// What an expression evaluates to; a Boolean is 0 or 1. These are three, and a Result of an Option would say no more.
#[derive(Clone, Copy, PartialEq, Eq, Debug)]
pub enum Evaluation {
    Unknown,
    Failed(Manner),
    Value(i32),
}

impl Evaluation {
    // Is this the value true.
    #[tactic(auto, unfolding(crate::specs::Meaning::is_true))]
    pub fn is_true(self) -> bool
        ensures { result ≡ is_true self }
    {
        matches!(self, Evaluation::Value(1))
    }
}

// The operators with two operands.
#[derive(Clone, Copy, PartialEq, Eq, Debug)]
pub enum Operator {
    Conjunction,
    Disjunction,
    Equality,
    Less,
    LessOrEqual,
    Sum,
    Difference,
    Product,
    Quotient,
    Remainder,
    Equivalence,
}

// What dividing by 0 comes to.
const BY_ZERO: Evaluation = Evaluation::Failed(Manner::ZeroDivisor);

// What a checked operator made of two numbers, or too large.
fn held(v: Option<i32>) -> Evaluation
    ensures { MatchOption v (result ≡ Evaluation.Failed Manner.TooLarge) (λ x. result ≡ Evaluation.Value x) }
{
    v.map_or(Evaluation::Failed(Manner::TooLarge), Evaluation::Value)
}

// A Boolean is 0 or 1.
fn truth(b: bool) -> Evaluation
    ensures { result ≡ Evaluation.Value (boolean b) }
{
    Evaluation::Value(i32::from(b))
}

// Each operator below is a function in a line, or two: as arms of the one match that calls them they would carry no promise of their own.

// Of numbers, and of Booleans.
pub fn equal(x: i32, y: i32) -> Evaluation
    ensures { result ≡ Evaluation.Value (boolean (eq_z x y)) }
{
    truth(x == y)
}

pub fn less(x: i32, y: i32) -> Evaluation
    ensures { result ≡ Evaluation.Value (boolean (lt_z x y)) }
{
    truth(x < y)
}

pub fn less_or_equal(x: i32, y: i32) -> Evaluation
    ensures { result ≡ Evaluation.Value (boolean (le_z x y)) }
{
    truth(x <= y)
}

pub fn sum(x: i32, y: i32) -> Evaluation
    ensures { result ≡ checked (x +ℤ y) }
{
    held(x.checked_add(y))
}

pub fn difference(x: i32, y: i32) -> Evaluation
    ensures { result ≡ checked (x -ℤ y) }
{
    held(x.checked_sub(y))
}

pub fn product(x: i32, y: i32) -> Evaluation
    ensures { result ≡ checked (x *ℤ y) }
{
    held(x.checked_mul(y))
}

// By 0 it failed; of the least number by -1 it is too large.
pub fn quotient(x: i32, y: i32) -> Evaluation
    ensures { result ≡ divided quot_z x y }
{
    if y == 0 {
        return BY_ZERO;
    }
    held(x.checked_div(y))
}

// By 0 it failed; of the least number by -1 it is 0, where `checked_rem` has nothing.
pub fn remainder(x: i32, y: i32) -> Evaluation
    ensures { result ≡ divided rem_z x y }
{
    if y == 0 {
        return BY_ZERO;
    }
    Evaluation::Value(x.wrapping_rem(y))
}
