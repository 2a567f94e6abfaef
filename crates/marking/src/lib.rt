// The marks of the guards over the values of a run.

#![tactic(auto)]

ghost use Rattle.std.specs.Prelude.{◌≡◌, ◌≤◌, length, replicate};
ghost use Rattle.scratch.specs.Blank.{unknown_cell};
ghost use Rattle.engine.specs.Lent.{OnLoadedIn};
ghost use Rattle.marking.specs.Marks.{mark_of, marks_over};

use engine::{DecodedModel, transitions};
use evaluation::Evaluation;

// 1 true, 0 false, 2 failed.
#[tactic(auto, unfolding(crate::specs::Marks::mark_of), using(crate::proofs::MarksWritten::marked_by_truth))]
pub fn mark_of(guard: Evaluation) -> u8
    ensures { result ≡ mark_of guard }
{
    match guard {
        Evaluation::Failed(_) => 2,
        _ => u8::from(guard.is_true()),
    }
}

// The mark of each guard over the values, into its cell; the cells past the last transition's stay.
pub fn refresh(
    decoded: &DecodedModel<'_>,
    values: &[i32],
    cells: &mut [Option<i32>],
    marks: &mut [u8],
)
    requires variables_in_bounds { (length decoded.now.tables.variables.now ≤ length values.now) × (length decoded.now.tables.guards.now ≤ length marks.old)
        × (cells.old ≡ replicate (length decoded.now.tables.variables.now) unknown_cell) }
    ensures marked { OnLoadedIn decoded.now.tables (λ m. marks.new ≡ marks_over m values.now marks.old) }
    ensures blank { cells.new ≡ cells.old }
{
    let tables = &decoded.tables;
    let count = tables.variables.len();
    propagation::overwrite(&values[..count], cells);
    for (transition, mark) in marks[..tables.guards.len()].iter_mut().enumerate() {
        *mark = mark_of(transitions::guard(decoded, cells, transition));
    }
    cells.fill(None);
}
