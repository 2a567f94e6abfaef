// Instructions over cells, with marks of what waits and a queue of the flows that become known.

#![tactic(auto)]

ghost use Rattle.std.specs.Prelude.{◌≡◌, List, ℕ, ◌<◌, ◌≤◌, ℤ, length};
ghost use Rattle.variables.specs.Rows.{lows_in, highs_in};
ghost use Rattle.model.specs.Trees.{Expression, Instruction};
ghost use Rattle.model.specs.Trees.Instruction.{assign, if_then};
ghost use Rattle.expressions.specs.Cells.{valuation_of};
ghost use Rattle.interpreter.specs.Gathering.{nothing_found};
ghost use Rattle.interpreter.specs.Cells.{AssignmentStands, TestStands};
ghost use Rattle.reading.specs.Readings.{held_in, marking, noted, giving, walked, walked_by, read_in, walked_in, Whole, SameCells, InstructionIn, ReadableIn};

use evaluation::Evaluation;
use interpreter::Gathered;
use kinds::Kind;
use syntax::{Cursor, nodes};
use tables::Tables;
use variables::VariableRow;

// The bytes of two kinds. A match on the kinds themselves makes a reading slower.
const ASSIGNMENT: u8 = Kind::Assignment as u8;

const IF_THEN: u8 = Kind::IfThen as u8;

// What readings gather, in cells that are lent: what was found, the values given, the flows that became known, the first `queued` of the
// queue, and the marks of what waits, `pending` of them set. There is no invariant: at the beginning of a reading the counts are 0 whatever the
// marks are. A mark is a round, and 0 where nothing waits: an Option would take twice the memory, of a `NonZero` too, and memory is fixed.
// The queue is no tape: that leaves out what has no room, and here it is told that there is room.
#[derive(Drop)]
pub struct Gathering<'a> {
    pub found: Gathered,
    pub given: &'a mut [Option<i32>],
    pub queue: &'a mut [u16],
    pub queued: usize,
    pub waits: &'a mut [u16],
    pub pending: usize,
}

impl Gathering<'_> {
    // Nothing is found, and of the queue and the marks nothing counts, as at the beginning of a reading.
    pub fn begin(&mut self)
        ensures { self.new ≡ record self.old { found = nothing_found; queued = 0; pending = 0 } }
    {
        self.found = Gathered::default();
        self.queued = 0;
        self.pending = 0;
    }

    // The instruction at place `at` is marked as waiting since a round, or, by 0, as not waiting.
    fn mark(&mut self, at: usize, stamp: u16)
        requires { (at < length self.old.waits.now) × Whole self.old }
        ensures marked { held_in self.new ≡ marking at stamp (held_in self.old) }
        ensures whole { Whole self.new }
        ensures same { SameCells self.old self.new }
    {
        self.pending -= usize::from(self.waits[at] != 0);
        self.pending += usize::from(stamp != 0);
        self.waits[at] = stamp;
    }

    // What came of the own expression of the instruction at place `at`: it waits where that is unknown, and something may have failed.
    #[tactic(auto, unfolding(crate::specs::Readings::found_by, waiting::specs::Marks::stamp_of))]
    fn note(&mut self, at: usize, round: u16, evaluation: Evaluation)
        requires { (at < length self.old.waits.now) × Whole self.old }
        ensures noted { held_in self.new ≡ noted evaluation at round (held_in self.old) }
        ensures whole { Whole self.new }
        ensures same { SameCells self.old self.new }
    {
        match evaluation {
            Evaluation::Unknown => self.mark(at, round),
            Evaluation::Failed(manner) => {
                self.mark(at, 0);
                self.found.fail(manner);
            }
            Evaluation::Value(_) => self.mark(at, 0),
        }
    }

    // An active assignment gives the variable a value; a variable that had none is queued.
    fn give(&mut self, variables: &[VariableRow], variable: usize, value: i32)
        requires { (variable < length self.old.given.now) × (variable < length variables.now) × (variable < 65536) × Whole self.old }
        ensures given { held_in self.new ≡ giving (lows_in variables.now) (highs_in variables.now) variable value (held_in self.old) }
        ensures whole { Whole self.new }
        ensures same { SameCells self.old self.new }
    {
        let held = self.given[variable];
        self.found.give(variables, self.given, variable, value);
        if held.is_none() {
            self.queue[self.queued] = variable as u16;
            self.queued += 1;
        }
    }
}

// One node done: the place of what is due next, and how many instructions came due.
#[derive(Clone, Copy)]
struct Walk {
    next: usize,
    due: usize,
}

// A reading: the tables that are read, what the cells say of the variables, and the round that it is.
#[derive(Clone, Copy)]
pub struct Reading<'a> {
    pub tables: &'a Tables<'a>,
    pub cells: &'a [Option<i32>],
    pub round: u16,
}

impl Reading<'_> {
    // An assignment at place `at`.
    fn assignment(&self, gathering: &mut Gathering<'_>, at: usize) -> Walk
        requires { AssignmentStands self.now.tables.now.kinds.now self.now.tables.now.parameters.now (length self.now.tables.now.variables.now) (length gathering.old.given.now) at
            × (at < length gathering.old.waits.now) × (length self.now.tables.now.variables.now ≤ 65536) × Whole gathering.old }
        ensures walked { (x : ℕ) (e : Expression) → InstructionIn self.now (assign x e) at
            → walked (held_in gathering.new) result.next result.due ≡ walked_in self.now at (assign x e) (held_in gathering.old) }
        ensures whole { Whole gathering.new }
        ensures same { SameCells gathering.old gathering.new }
    {
        let tables = self.tables;
        let assigned = expressions::evaluate(
            tables.kinds,
            tables.parameters,
            self.cells,
            Cursor { at: at + 1 },
        );
        gathering.note(at, self.round, assigned.evaluation);
        if let Evaluation::Value(value) = assigned.evaluation {
            let variable = nodes::magnitude(tables.parameters[at]);
            gathering.give(tables.variables, variable, value);
        }
        Walk {
            next: assigned.next.at,
            due: 0,
        }
    }

    // An if-then at place `at`: its body is due if the condition is true, and skipped if not.
    fn test(&self, gathering: &mut Gathering<'_>, at: usize) -> Walk
        requires { TestStands self.now.tables.now.kinds.now self.now.tables.now.parameters.now self.now.tables.now.nexts.now at
            × (at < length gathering.old.waits.now) × Whole gathering.old }
        ensures walked { (lows highs : List ℤ) (c : Expression) (i : Instruction) → InstructionIn self.now (if_then c i) at
            → walked (held_in gathering.new) result.next result.due
            ≡ walked_by lows highs (valuation_of self.now.cells.now) at self.now.round (if_then c i) (held_in gathering.old) }
        ensures whole { Whole gathering.new }
        ensures same { SameCells gathering.old gathering.new }
    {
        let tables = self.tables;
        let condition = expressions::evaluate(
            tables.kinds,
            tables.parameters,
            self.cells,
            Cursor { at: at + 1 },
        );
        let body = condition.next.at;
        gathering.note(at, self.round, condition.evaluation);
        if condition.evaluation.is_true() {
            return Walk { next: body, due: 1 };
        }
        Walk {
            next: usize::from(tables.nexts[body]),
            due: 0,
        }
    }

    // One node of an instruction.
    fn step(&self, gathering: &mut Gathering<'_>, at: usize) -> Walk
        requires { ReadableIn self.now gathering.old at }
        ensures walked { (i : Instruction) → InstructionIn self.now i at
            → walked (held_in gathering.new) result.next result.due ≡ walked_in self.now at i (held_in gathering.old) }
        ensures whole { Whole gathering.new }
        ensures same { SameCells gathering.old gathering.new }
    {
        let tables = self.tables;
        match tables.kinds[at] {
            ASSIGNMENT => self.assignment(gathering, at),
            IF_THEN => self.test(gathering, at),
            // skip has parameter 0, a block the number of its branches
            _ => Walk {
                next: at + 1,
                due: nodes::magnitude(tables.parameters[at]),
            },
        }
    }

    // The instruction at place `at`.
    pub fn gather(&self, gathering: &mut Gathering<'_>, at: usize)
        requires { ReadableIn self.now gathering.old at }
        ensures read { (i : Instruction) → InstructionIn self.now i at → held_in gathering.new ≡ read_in self.now at i (held_in gathering.old) }
        ensures whole { Whole gathering.new }
        ensures same { SameCells gathering.old gathering.new }
    {
        let mut here = at;
        let mut due: usize = 1;
        // Which node comes next is known only once this one is read, so there is no sequence to go over.
        while 0 < due {
            let done = self.step(gathering, here);
            here = done.next;
            due = due - 1 + done.due;
        }
    }
}
