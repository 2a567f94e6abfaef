// The walk over the nodes. Recursion goes by depth alone; branches, variables and transitions go by loops.

ghost use Rattle.std.specs.Prelude.{◌≡◌, List, ℕ, ◌≤◌, ◌+◌, ℤ, length};
ghost use Rattle.model.specs.Trees.{Variable, sorts_of};
ghost use Rattle.kinds.specs.Kinds.{children_of};
ghost use Rattle.model.specs.Walk.{outcome, declaration_of, range_at, variable_at, row_at};
ghost use Rattle.model.specs.Walkers.{branches_in, expression_in, instruction_in, operands_in, parts_in, transition_in};
ghost use Rattle.model.specs.Walk.Walk.{found};
ghost use Rattle.model.specs.Sizes.{max_variables};
ghost use Rattle.model.specs.Check.{complete, rest_at, system_at};

use super::{Declaration, Model, Sizes};
use kinds::{Kind, Place, Sort};
use results::Refusal;
use std::ops::Range;
use syntax::{Cursor, Tree};

// What is walked over, the sorts of the variables, and those that instructions may assign.
#[derive(Drop)]
pub struct Walker<'a> {
    pub tree: Tree<'a>,
    pub sorts: &'a [Sort],
    pub targets: Range<usize>,
}

impl Walker<'_> {
    // An expression of the wanted sort.
    #[cycle(conditional_expression_operands)]
    #[tactic(auto, using(crate::proofs::Expressions::expression_outcome))]
    pub fn expression(
        &self,
        left: usize,
        wanted: Option<Sort>,
        cursor: Cursor,
    ) -> Result<Cursor, Refusal>
        ensures { result ≡ outcome (expression_in self.now left wanted cursor.at) }
    {
        let node = cursor.expression_node(&self.tree, self.sorts, left, wanted)?;
        self.operands(left - 1, wanted, node.kind, node.next)
    }

    // The children of an expression node.
    #[cycle(conditional_expression_operands)]
    #[tactic(auto, using(crate::proofs::Walking::children_of_lem, crate::proofs::Expressions::children_most, crate::proofs::Expressions::operands_outcome))]
    fn operands(
        &self,
        left: usize,
        wanted: Option<Sort>,
        kind: u8,
        cursor: Cursor,
    ) -> Result<Cursor, Refusal>
        ensures { (p : ℤ) → result ≡ outcome (operands_in self.now left wanted kind p cursor.at (children_of kind)) }
    {
        // By the number of children, which is a number in the row of the kind.
        match kinds::row_of(kind).children {
            0 => Ok(cursor),
            1 => self.expression(left, Some(kinds::operand_sort(kind)), cursor),
            3 => self.conditional(left, wanted, cursor),
            _ => {
                let sort = Some(kinds::operand_sort(kind));
                let second = self.expression(left, sort, cursor)?;
                self.expression(left, sort, second)
            }
        }
    }

    // The condition and the two branches of an if-then-else.
    #[cycle(conditional_expression_operands)]
    #[tactic(auto, using(crate::proofs::Expressions::conditional_outcome))]
    fn conditional(
        &self,
        left: usize,
        wanted: Option<Sort>,
        cursor: Cursor,
    ) -> Result<Cursor, Refusal>
        ensures { (k : ℕ) (p : ℤ) → result ≡ outcome (operands_in self.now left wanted k p cursor.at 3) }
    {
        let second = self.expression(left, Some(Sort::Boolean), cursor)?;
        let third = self.expression(left, wanted, second)?;
        self.expression(left, wanted, third)
    }

    // An instruction.
    #[cycle(branches_instruction_parts)]
    #[tactic(auto, using(crate::proofs::Instructions::instruction_outcome))]
    fn instruction(&self, left: usize, cursor: Cursor) -> Result<Cursor, Refusal>
        ensures { result ≡ outcome (instruction_in self.now left cursor.at) }
    {
        let node = cursor.instruction_node(&self.tree, &self.targets, left)?;
        let number = node.magnitude();
        if kinds::stands_for(node.kind, Kind::Block) {
            return self.branches(left - 1, number, node.next);
        }
        let sort = self.sorts.get(number).copied();
        self.parts(left - 1, node.kind, sort, node.next)
    }

    // What follows an instruction node other than a block; `sort` is that of the variable it assigns.
    #[cycle(branches_instruction_parts)]
    #[tactic(auto, using(crate::proofs::Walking::children_of_lem, crate::proofs::Instructions::parts_outcome))]
    fn parts(
        &self,
        left: usize,
        kind: u8,
        sort: Option<Sort>,
        cursor: Cursor,
    ) -> Result<Cursor, Refusal>
        ensures { (p : ℤ) → result ≡ outcome (parts_in self.now left sort p cursor.at (children_of kind)) }
    {
        match kinds::row_of(kind).children {
            0 => Ok(cursor),
            1 => self.expression(left, sort, cursor),
            _ => {
                let second = self.expression(left, Some(Sort::Boolean), cursor)?;
                self.instruction(left, second)
            }
        }
    }

    // The branches of a block. `transitions` loops alike: a closure for the step would bring its own calls into this cycle and onto its stack.
    #[cycle(branches_instruction_parts)]
    #[tactic(auto, using(crate::proofs::Instructions::branches_none, crate::proofs::Instructions::branches_more))]
    fn branches(&self, left: usize, count: usize, cursor: Cursor) -> Result<Cursor, Refusal>
        ensures { result ≡ outcome (branches_in self.now left count cursor.at) }
    {
        let mut here = cursor;
        for _ in 0..count {
            here = self.instruction(left, here)?;
        }
        Ok(here)
    }

    // A transition: its event, guard and action.
    #[tactic(auto, using(crate::proofs::Systems::transition_outcome))]
    fn transition(&self, events: usize, cursor: Cursor) -> Result<Cursor, Refusal>
        ensures { result ≡ outcome (transition_in self.now events cursor.at) }
    {
        let node = cursor.transition_node(&self.tree, events)?;
        let action = self.expression(Model::MAX_DEPTH, Some(Sort::Boolean), node.next)?;
        self.instruction(Model::MAX_DEPTH, action)
    }

    // So many transitions.
    #[tactic(auto, using(crate::proofs::Walking::row_none, crate::proofs::Walking::row_more))]
    pub fn transitions(
        &self,
        events: usize,
        count: usize,
        cursor: Cursor,
    ) -> Result<Cursor, Refusal>
        ensures { result ≡ outcome (row_at (transition_in self.now events) count cursor.at) }
    {
        let mut here = cursor;
        for _ in 0..count {
            here = self.transition(events, here)?;
        }
        Ok(here)
    }
}

// The nodes of a number's high end and first value.
#[tactic(auto, using(evaluation::proofs::Signed::read_back, crate::proofs::Declarations::range_declared))]
fn range(tree: &Tree, low: i32, cursor: Cursor) -> Result<Declaration, Refusal>
    ensures { result ≡ declaration_of (range_at tree.now.kinds.now tree.now.parameters.now low cursor.at) }
{
    let high = cursor.end_node(tree, Place::HighEnd, low, i32::MAX)?;
    let first = high
        .next
        .end_node(tree, Place::FirstValue, low, high.parameter)?;
    Ok(Declaration {
        sort: Sort::Number,
        low,
        high: high.parameter,
        first: first.parameter,
        next: first.next,
    })
}

// A variable.
#[tactic(auto, using(crate::proofs::Declarations::variable_declared))]
fn variable(tree: &Tree, cursor: Cursor) -> Result<Declaration, Refusal>
    ensures { result ≡ declaration_of (variable_at tree.now.kinds.now tree.now.parameters.now cursor.at) }
{
    let node = cursor.variable_node(tree)?;
    if !kinds::stands_for(node.kind, Kind::BooleanVariable) {
        return range(tree, node.parameter, node.next);
    }
    Ok(Declaration {
        sort: Sort::Boolean,
        low: 0,
        high: 1,
        first: node.parameter,
        next: node.next,
    })
}

// As many variables from the first node on as there are sorts to store.
fn variables(tree: &Tree, sorts: &mut [Sort]) -> Result<Cursor, Refusal>
    ensures { (result ≡ outcome (row_at (variable_at tree.now.kinds.now tree.now.parameters.now) (length sorts.old) 0))
        × ((vs : List Variable) (next : ℕ) → row_at (variable_at tree.now.kinds.now tree.now.parameters.now) (length sorts.old) 0 ≡ found vs next → sorts.new ≡ sorts_of vs) }
{
    let mut here = Cursor::empty();
    for sort in sorts.iter_mut() {
        let declaration = variable(tree, here)?;
        *sort = declaration.sort;
        here = declaration.next;
    }
    Ok(here)
}

// What follows the variables, whose sorts are given: transitions, the assertion, no node left over.
#[tactic(auto, using(crate::proofs::Systems::rest_outcome))]
fn rest(tree: &Tree, sorts: &[Sort], sizes: Sizes, cursor: Cursor) -> Result<Cursor, Refusal>
    requires { sizes.states + sizes.flows ≤ max_variables }
    ensures { result ≡ outcome (complete sizes.nodes (rest_at tree.now.kinds.now tree.now.parameters.now sorts.now sizes cursor.at)) }
{
    let states = sizes.states;
    let actions = Walker {
        tree: *tree,
        sorts,
        targets: 0..states,
    };
    let second = actions.transitions(sizes.events, sizes.transitions, cursor)?;
    let assertion = Walker {
        tree: *tree,
        sorts,
        targets: states..sizes.variables(),
    };
    let next = assertion.instruction(Model::MAX_DEPTH, second)?;
    if next.at < sizes.nodes {
        return Err(Refusal::NodesLeftOver);
    }
    Ok(next)
}

// All nodes of a model, the sorts of whose variables stand in an array that is declared here.
pub fn system<const VARIABLES: usize>(tree: &Tree, sizes: Sizes) -> Result<Cursor, Refusal>
    requires { (sizes.states + sizes.flows ≤ VARIABLES) × (VARIABLES ≤ max_variables) }
    ensures { result ≡ outcome (complete sizes.nodes (system_at tree.now.kinds.now tree.now.parameters.now sizes)) }
{
    let mut cells = [Sort::Boolean; VARIABLES];
    let sorts = &mut cells[..sizes.variables()];
    let next = variables(tree, sorts)?;
    rest(tree, sorts, sizes, next)
}
