// Windows over a log: for every row how many rows of its window make a condition true, and the largest value of a number there.

#![tactic(auto)]

ghost use Rattle.std.specs.Prelude.{◌≡◌, ◌+◌, ◌*◌, ◌/◌, ◌<◌, ◌≤◌, Ok, length, map};
ghost use Rattle.results.specs.Results.{answered, over};
ghost use Rattle.model.specs.Trees.{Expression, System, variables};
ghost use Rattle.model.specs.Standing.{ExpressionAt};
ghost use Rattle.model.specs.Check.{verdict, answer_of};
ghost use Rattle.model.specs.Check.Verdict.{accepted};
ghost use Rattle.decoding.specs.Decoding.{RoomFor};
ghost use Rattle.decoding.specs.Outside.{handed_in};
ghost use Rattle.standing.specs.Holding.{ends_of};
ghost use Rattle.expressions.specs.Expressions as expressions;
ghost use Rattle.expressions.specs.Expressions.{known_from};
ghost use Rattle.expressions.specs.Cells.{ExpressionStands, valuation_of};
ghost use Rattle.windows.specs.Logs.{max_window, rows_over, all_within, evaluations};
ghost use Rattle.windows.specs.Reports.{figures_over, reported_over, reported_in};
ghost use Rattle.windows.specs.Sliding.{left_behind};
ghost use Rattle.windows.specs.Lent.{Asked, AllFit, HasRoom, CanCount, IsEmpty, Passed, GoneBy, queues_in, counted_rows, checked_question};

use decoding::file::AcceptedFile;
use evaluation::Evaluation;
use model::{Model, Room, Sizes, Sort, check};
use results::Refusal;
use sliding::Sliding;
use syntax::{Cursor, Tree};
use variables::VariableRow;

mod queue; // queue.rt: a queue of rows in a ring
mod sliding; // sliding.rt: the window that slides over the rows

// The most rows of a window.
pub const MAX_WINDOW: usize = 1000;

// The cells of a row that are written.
const FIGURES: usize = 3;

// What is asked of a log: the Boolean expression and the number expression, how many rows a window has, and the log, each row of which is a
// value for every variable.
#[derive(Clone, Copy)]
pub struct Question<'a> {
    pub condition: Tree<'a>,
    pub number: Tree<'a>,
    pub window: usize,
    pub log: &'a [i32],
}

// How many rows of so many values there are: 41 where there are no windows over them.
fn count_rows(question: &Question<'_>, width: usize) -> Result<usize, Refusal>
    ensures { result ≡ counted_rows width question.now.window (length question.now.log.now) }
{
    let window = question.window;
    if window == 0 || MAX_WINDOW < window || width == 0 {
        return Err(Refusal::NoWindows);
    }
    let cells = question.log.len();
    if cells % width != 0 {
        return Err(Refusal::NoWindows);
    }
    Ok(cells / width)
}

// Is every value of every row within its ends?
fn all_within(variables: &[VariableRow], rows: &[i32]) -> bool
    requires { 0 < length variables.now }
    ensures { result ≡ all_within (map ends_of variables.now) (rows_over (length variables.now) rows.now) }
{
    rows.chunks_exact(variables.len()).all(|row| {
        standing::check_ranges(variables, row).outside.is_none()
    })
}

// What the expression at the first node comes to over cells.
fn evaluate(tree: &Tree<'_>, cells: &[Option<i32>]) -> Evaluation
    requires { ExpressionStands tree.now.kinds.now tree.now.parameters.now 0 }
    ensures { (e : Expression) → ExpressionAt tree.now.kinds.now tree.now.parameters.now e 0 → result ≡ expressions.evaluate e (valuation_of cells.now) }
{
    expressions::evaluate(tree.kinds, tree.parameters, cells, Cursor::empty()).evaluation
}

// A row goes by: both expressions are evaluated over it, once; it enters when the row that is left behind has left.
fn pass(
    question: &Question<'_>,
    row: usize,
    values: &[i32],
    cells: &mut [Option<i32>],
    sliding: &mut Sliding,
)
    requires asked { Asked question.now }
    requires cells { length values.now ≡ length cells.old }
    requires fits { AllFit sliding.old }
    requires room { HasRoom (left_behind question.now.window row (queues_in sliding.old)) × CanCount sliding.old }
    ensures passed { (a : Asked question.now) → Passed question.now.window row
        (expressions.evaluate a.condition (known_from values.now)) (expressions.evaluate a.number (known_from values.now)) sliding.old sliding.new }
{
    propagation::overwrite(values, cells);
    let truth = evaluate(&question.condition, cells).is_true();
    let number = evaluate(&question.number, cells);
    sliding.leave_behind(question.window, row);
    sliding.enter(row, truth, number);
}

// The figures of every row, as the rows go by one after another.
fn slide(
    question: &Question<'_>,
    cells: &mut [Option<i32>],
    sliding: &mut Sliding,
    figures: &mut [i32],
)
    requires asked { Asked question.now }
    requires sizes { (0 < length cells.old) × (0 < question.now.window) × (question.now.window ≤ max_window)
        × (3 * (length question.now.log.now / length cells.old) ≤ length figures.old) }
    requires empty { IsEmpty sliding.old.trues × IsEmpty sliding.old.values }
    ensures figures { (a : Asked question.now) → figures.new
        ≡ over (figures_over question.now.window a.condition a.number (length cells.old) question.now.log.now) figures.old }
    ensures gone_by { (a : Asked question.now) → GoneBy question.now.window
        (evaluations a.condition (rows_over (length cells.old) question.now.log.now))
        (evaluations a.number (rows_over (length cells.old) question.now.log.now))
        (length question.now.log.now / length cells.old) sliding.new }
{
    for (row, values) in question.log.chunks_exact(cells.len()).enumerate() {
        pass(question, row, values, cells, sliding);
        let at = FIGURES * row;
        figures[at..at + FIGURES].copy_from_slice(&sliding.figures());
    }
}

// 41, 10, 20, then the figures over these variables.
fn report_over(
    question: &Question<'_>,
    variables: &[VariableRow],
    cells: &mut [Option<i32>],
    figures: &mut [i32],
) -> Result<usize, Refusal>
    requires asked { Asked question.now }
    requires cells { length cells.old ≡ length variables.now }
    ensures { (a : Asked question.now) → answered result figures.new
        ≡ reported_over (map ends_of variables.now) a.condition a.number question.now.window question.now.log.now figures.old }
{
    let count = count_rows(question, variables.len())?;
    if figures.len() / FIGURES < count {
        return Err(Refusal::ShortSlice);
    }
    if !all_within(variables, question.log) {
        return Err(Refusal::InvalidRun);
    }
    let mut sliding = Sliding::EMPTY;
    slide(question, cells, &mut sliding, figures);
    Ok(count)
}

// The same of an accepted model of these sizes, whose variables are decoded in an array that is declared here. Not inlined: the arrays of
// all three sizes would stand on the stack at once.
#[inline(never)]
fn report_in<const NODES: usize, const VARIABLES: usize>(
    model: &[u8],
    sizes: Sizes,
    question: &Question<'_>,
    figures: &mut [i32],
) -> Result<usize, Refusal>
    requires accepted { answer_of (verdict model.now) ≡ Ok sizes }
    requires room { RoomFor sizes.nodes (sizes.states + sizes.flows) NODES VARIABLES }
    requires asked { Asked question.now }
    ensures { (a : Asked question.now) (t : System) → verdict model.now ≡ accepted sizes t → answered result figures.new
        ≡ reported_over (variables t) a.condition a.number question.now.window question.now.log.now figures.old }
{
    let mut declared = [VariableRow::BLANK; VARIABLES];
    let mut cells = [None; VARIABLES];
    let file = AcceptedFile {
        bytes: model,
        sizes,
    };
    decoding::rows_in::<NODES>(&file, &mut declared);
    let count = sizes.variables();
    report_over(question, &declared[..count], &mut cells[..count], figures)
}

// The check of the model, of the condition and of the number, in this order.
fn check_question(model: &[u8], question: &Question<'_>) -> Result<Sizes, Refusal>
    ensures { result ≡ checked_question (verdict model.now) (handed_in question.now.condition) (handed_in question.now.number) }
{
    let mut sorts = [Sort::Boolean; Model::MAX_VARIABLES];
    let sizes = decoding::sorts_of(model, &mut sorts)?;
    let sorts = &sorts[..sizes.variables()];
    check::check_over_sorts(&question.condition, sorts, Sort::Boolean)?;
    check::check_over_sorts(&question.number, sorts, Sort::Number)?;
    Ok(sizes)
}

// For every row three cells: in how many of its window's rows the condition is true, the largest value of the number there, and 1, or 0 and
// 0 where there is none; cells past them stay. It answers how many rows there are; or the model's refusal, the condition's, the number's,
// 41, 10 or 20, with every cell as it was.
pub fn report(model: &[u8], question: &Question<'_>, figures: &mut [i32]) -> Result<usize, Refusal>
    ensures { answered result figures.new
        ≡ reported_in (verdict model.now) (handed_in question.now.condition) (handed_in question.now.number)
        question.now.window question.now.log.now figures.old }
{
    let sizes = check_question(model, question)?;
    match sizes.room() {
        Room::Few => report_in::<{ Model::FEW_NODES }, { Model::FEW_VARIABLES }>(
            model, sizes, question, figures,
        ),
        Room::Many => report_in::<{ Model::MANY_NODES }, { Model::MANY_VARIABLES }>(
            model, sizes, question, figures,
        ),
        Room::Most => report_in::<{ Model::MAX_NODES }, { Model::MAX_VARIABLES }>(
            model, sizes, question, figures,
        ),
    }
}
