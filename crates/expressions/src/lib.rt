// What an expression comes to, over cells.

#![tactic(auto)]

ghost use Rattle.std.specs.Prelude.{◌≡◌, List, ◌+◌, ◌<◌, ℤ, get_or};
ghost use Rattle.evaluation.specs.Meaning.{chosen};
ghost use Rattle.kinds.specs.Kinds.{children_of};
ghost use Rattle.model.specs.Trees.{Expression};
ghost use Rattle.model.specs.Standing.{ExpressionAt, size_of_expression};
ghost use Rattle.expressions.specs.Expressions.{evaluation_of};
ghost use Rattle.expressions.specs.Expressions as expressions;
ghost use Rattle.expressions.specs.Cells.{valuation_of, evaluated_as, negation_kind, ExpressionStands, KindsStand, BranchesStand};

use evaluation::Evaluation;
use kinds::Kind;
use syntax::{Cursor, nodes};

// An evaluation (01: reading) with the cursor after the expression.
#[derive(Clone, Copy)]
pub struct Evaluated {
    pub evaluation: Evaluation,
    pub next: Cursor,
}

// The bytes of kinds of expressions; those before negation have no children, which a byte tells by its order alone. A match on the kinds
// themselves makes an evaluation slower by a twentieth.
const VARIABLE: u8 = Kind::Variable as u8;

const NEGATION: u8 = Kind::Negation as u8;

const CONDITIONAL: u8 = Kind::Conditional as u8;

// The variable with this number.
#[tactic(auto, unfolding(crate::specs::Cells::cell_value, crate::specs::Expressions::evaluation_of))]
fn variable(cells: &[Option<i32>], number: usize) -> Evaluation
    ensures { result ≡ evaluation_of (valuation_of cells.now number) }
{
    match cells.get(number) {
        Some(Some(value)) => Evaluation::Value(*value),
        _ => Evaluation::Unknown,
    }
}

// An expression without children, at place `at`: a number, a truth value or a variable.
fn leaf(kinds: &[u8], parameters: &[i32], cells: &[Option<i32>], at: usize) -> Evaluated
    requires { ExpressionStands kinds.now parameters.now at × (get_or kinds.now at 0 < negation_kind) }
    ensures { (e : Expression) → ExpressionAt kinds.now parameters.now e at
        → result ≡ evaluated_as (expressions.evaluate e (valuation_of cells.now)) (at + size_of_expression e) }
{
    let parameter = parameters[at];
    let next = Cursor { at: at + 1 };
    if kinds[at] == VARIABLE {
        return Evaluated {
            evaluation: variable(cells, nodes::magnitude(parameter)),
            next,
        };
    }
    Evaluated {
        evaluation: Evaluation::Value(parameter),
        next,
    }
}

// How many children the node of an expression has.
#[tactic(auto, using(crate::proofs::Skipping::counted), unfolding(kinds::specs::Kinds::children_of))]
fn children(kind: u8) -> u8
    ensures { result ≡ children_of kind }
{
    kinds::row_of(kind).children
}

// The place after the expression at place `at`: its nodes are counted, none is evaluated.
fn past(kinds: &[u8], at: usize) -> usize
    requires { KindsStand kinds.now at }
    ensures { (ps : List ℤ) (e : Expression) → ExpressionAt kinds.now ps e at → result ≡ at + size_of_expression e }
{
    let mut here = at;
    let mut due: usize = 1;
    // Which node comes next is known only once this one is read, so there is no sequence to go over.
    while 0 < due {
        due = due - 1 + usize::from(children(kinds[here]));
        here += 1;
    }
    here
}

// What was evaluated, with the cursor after the expression that stands there.
fn passing_over(kinds: &[u8], evaluated: Evaluated) -> Evaluated
    requires { KindsStand kinds.now evaluated.next.at }
    ensures same { result.evaluation ≡ evaluated.evaluation }
    ensures place { (ps : List ℤ) (e : Expression) → ExpressionAt kinds.now ps e evaluated.next.at
        → result.next.at ≡ evaluated.next.at + size_of_expression e }
{
    Evaluated {
        next: Cursor {
            at: past(kinds, evaluated.next.at),
        },
        ..evaluated
    }
}

// The expression at the cursor. Where the first operand decides, the second is passed over. A child that is a leaf is evaluated without a
// further call of this function. The slices are handed on as copies: a parameter that is handed on itself is copied to memory at each
// call, that of a leaf included. They are not lent as one: over a `&Tree` an evaluation takes 2 to 5 percent more, over a struct of the
// three slices 8 to 13.
#[cycle(conditional_evaluate)]
pub fn evaluate(
    kinds: &[u8],
    parameters: &[i32],
    cells: &[Option<i32>],
    cursor: Cursor,
) -> Evaluated
    requires { ExpressionStands kinds.now parameters.now cursor.at }
    ensures { (e : Expression) → ExpressionAt kinds.now parameters.now e cursor.at
        → result ≡ evaluated_as (expressions.evaluate e (valuation_of cells.now)) (cursor.at + size_of_expression e) }
{
    let at = cursor.at;
    let kind = kinds[at];
    if kind < NEGATION {
        return leaf(kinds, parameters, cells, at);
    }
    let child = at + 1;
    let own_kinds = kinds;
    let own_parameters = parameters;
    let own_cells = cells;
    let first = if kinds[child] < NEGATION {
        leaf(kinds, parameters, cells, child)
    } else {
        evaluate(own_kinds, own_parameters, own_cells, Cursor { at: child })
    };
    if kind == NEGATION {
        return Evaluated {
            evaluation: operators::negate(first.evaluation),
            ..first
        };
    }
    if kind == CONDITIONAL {
        return conditional(kinds, parameters, cells, first.evaluation, first.next);
    }
    let operator = kinds::operator_of(kind);
    let place = first.next.at;
    if operators::decides(operator, first.evaluation) {
        return passing_over(kinds, first);
    }
    let second = if kinds[place] < NEGATION {
        leaf(kinds, parameters, cells, place)
    } else {
        evaluate(own_kinds, own_parameters, own_cells, first.next)
    };
    Evaluated {
        evaluation: operators::operate(operator, first.evaluation, second.evaluation),
        ..second
    }
}

// The two branches of a conditional at the cursor, whose condition came to this. Where the condition has a value, the branch that
// is not chosen is not evaluated.
#[cycle(conditional_evaluate)]
fn conditional(
    kinds: &[u8],
    parameters: &[i32],
    cells: &[Option<i32>],
    condition: Evaluation,
    cursor: Cursor,
) -> Evaluated
    requires { BranchesStand kinds.now parameters.now cursor.at }
    ensures { (a b : Expression) → ExpressionAt kinds.now parameters.now a cursor.at
        → ExpressionAt kinds.now parameters.now b (cursor.at + size_of_expression a)
        → result ≡ evaluated_as (chosen condition (expressions.evaluate a (valuation_of cells.now)) (expressions.evaluate b (valuation_of cells.now)))
        (cursor.at + size_of_expression a + size_of_expression b) }
{
    if let Evaluation::Value(_) = condition {
        if condition.is_true() {
            let first = evaluate(kinds, parameters, cells, cursor);
            return passing_over(kinds, first);
        }
        let second = Cursor {
            at: past(kinds, cursor.at),
        };
        return evaluate(kinds, parameters, cells, second);
    }
    let first = evaluate(kinds, parameters, cells, cursor);
    let second = evaluate(kinds, parameters, cells, first.next);
    Evaluated {
        evaluation: operators::choose(condition, first.evaluation, second.evaluation),
        ..second
    }
}
