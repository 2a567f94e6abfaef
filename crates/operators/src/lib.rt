// The operators on evaluations: and, or, not and if-then-else, and every other operator by its own arithmetic.

#![tactic(auto)]

ghost use Rattle.std.specs.Prelude.{◌≡◌, false, cond, ◌||◌, ℤ, MatchOption};
ghost use Rattle.evaluation.specs.Numbers.{eq_z};
ghost use Rattle.evaluation.specs.Meaning.{calculated, decisive, decision, decides, operated, negated, is_unknown, agree, chosen};

use evaluation::{Evaluation, Manner, Operator};

// The operator at two values: and, or where neither decides. The one match over all operators, which it is there for.
fn calculate(op: Operator, x: i32, y: i32) -> Evaluation
    ensures { result ≡ calculated op x y }
{
    match op {
        Operator::Conjunction => Evaluation::Value(1),
        Operator::Disjunction => Evaluation::Value(0),
        Operator::Equality | Operator::Equivalence => evaluation::equal(x, y),
        Operator::Less => evaluation::less(x, y),
        Operator::LessOrEqual => evaluation::less_or_equal(x, y),
        Operator::Sum => evaluation::sum(x, y),
        Operator::Difference => evaluation::difference(x, y),
        Operator::Product => evaluation::product(x, y),
        Operator::Quotient => evaluation::quotient(x, y),
        Operator::Remainder => evaluation::remainder(x, y),
    }
}

// The value that decides the operator alone, and is then its answer: false of and, true of or.
fn deciding(op: Operator) -> Option<i32>
    ensures { MatchOption result ((v : ℤ) → decisive op v ≡ false) (λ d. (d ≡ decision op) × ((v : ℤ) → decisive op v ≡ eq_z v d)) }
{
    match op {
        Operator::Conjunction => Some(0),
        Operator::Disjunction => Some(1),
        _ => None,
    }
}

// Does this value decide the operator?
fn is_decisive(op: Operator, v: i32) -> bool
    ensures { result ≡ decisive op v }
{
    match deciding(op) {
        Some(d) if v == d => true,
        _ => false,
    }
}

// Does this operand decide the operator, whatever the other one is?
#[tactic(auto, unfolding(evaluation::specs::Meaning::decides))]
pub fn decides(op: Operator, operand: Evaluation) -> bool
    ensures { result ≡ decides op operand }
{
    match operand {
        Evaluation::Value(v) => is_decisive(op, v),
        _ => false,
    }
}

// One operand is a value, the other is unknown or failed.
fn beside(op: Operator, v: i32, other: Evaluation) -> Evaluation
    ensures { result ≡ cond (decisive op v) (Evaluation.Value (decision op)) other }
{
    match deciding(op) {
        Some(d) if v == d => Evaluation::Value(d),
        _ => other,
    }
}

// Both operands are values.
fn at_values(op: Operator, x: i32, y: i32) -> Evaluation
    ensures { result ≡ operated op (Evaluation.Value x) (Evaluation.Value y) }
{
    match deciding(op) {
        Some(d) if x == d || y == d => Evaluation::Value(d),
        _ => calculate(op, x, y),
    }
}

// The manner where both operands failed: a zero divisor wins.
#[tactic(auto, using(evaluation::proofs::Laws::zero_divisor_wins, crate::proofs::Operators::other_manner))]
fn winning_manner(m: Manner, n: Manner) -> Manner
    ensures { (op : Operator) → operated op (Evaluation.Failed m) (Evaluation.Failed n) ≡ Evaluation.Failed result }
{
    match m {
        Manner::ZeroDivisor => Manner::ZeroDivisor,
        Manner::TooLarge => n,
    }
}

// An operator with two operands. Four arms with a value: the checker has no rule for one that reads a value where another takes that operand whole.
pub fn operate(op: Operator, a: Evaluation, b: Evaluation) -> Evaluation
    ensures { result ≡ operated op a b }
{
    match (a, b) {
        (Evaluation::Value(x), Evaluation::Value(y)) => at_values(op, x, y),
        (Evaluation::Value(v), Evaluation::Failed(m)) => beside(op, v, Evaluation::Failed(m)),
        (Evaluation::Failed(m), Evaluation::Value(v)) => beside(op, v, Evaluation::Failed(m)),
        (Evaluation::Value(v), Evaluation::Unknown) => beside(op, v, Evaluation::Unknown),
        (Evaluation::Unknown, Evaluation::Value(v)) => beside(op, v, Evaluation::Unknown),
        (Evaluation::Failed(m), Evaluation::Failed(n)) => Evaluation::Failed(winning_manner(m, n)),
        _ => Evaluation::Unknown,
    }
}

// Not.
pub fn negate(a: Evaluation) -> Evaluation
    ensures { result ≡ negated a }
{
    match a {
        Evaluation::Value(v) => evaluation::equal(v, 0),
        other => other,
    }
}

// Two branches under a condition that has no value: the value on which they agree, else unknown if one is, else `otherwise`.
fn undecided(a: Evaluation, b: Evaluation, otherwise: Evaluation) -> Evaluation
    ensures { result ≡ cond (agree a b) a (cond (is_unknown a || is_unknown b) Evaluation.Unknown otherwise) }
{
    match (a, b) {
        (Evaluation::Unknown, _) | (_, Evaluation::Unknown) => Evaluation::Unknown,
        (Evaluation::Value(x), Evaluation::Value(y)) if x == y => Evaluation::Value(x),
        _ => otherwise,
    }
}

// If-then-else.
pub fn choose(condition: Evaluation, a: Evaluation, b: Evaluation) -> Evaluation
    ensures { result ≡ chosen condition a b }
{
    match condition {
        Evaluation::Unknown => undecided(a, b, Evaluation::Unknown),
        Evaluation::Failed(m) => undecided(a, b, Evaluation::Failed(m)),
        Evaluation::Value(_) => { if condition.is_true() { a } else { b } }
    }
}
