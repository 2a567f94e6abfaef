// The node that is due, read with the cursor moved on. Refusals 4, 5, 6, 7 are tried in this order.

ghost use Rattle.std.specs.Prelude.{◌≡◌, ◌<◌, ◌&&◌, nat_abs, OnOk};
ghost use Rattle.syntax.specs.Nodes.{checked, due_at};
ghost use Rattle.syntax.specs.Readings.{end_reading, expression_allowed, expression_fits, expression_reading, instruction_fits, instruction_reading, is_of_sort, is_target, is_truth, stands_at, transition_reading, variable_fits, variable_reading};
ghost use Rattle.std.specs.Int.Signed.{le_z};

use super::{Cursor, Node, Tree};
use kinds::{Kind, Place, Sort};
use results::Refusal;
use std::ops::Range;

// The parameter without its sign.
pub fn magnitude(parameter: i32) -> usize
    ensures { result ≡ nat_abs parameter }
{
    parameter.unsigned_abs() as usize
}

// May the kind stand at this place.
fn stands_at(kind: u8, place: Place) -> bool
    ensures { result ≡ stands_at place kind }
{
    kinds::row_of(kind).place == place
}

// May the kind stand where an expression of the wanted sort is due. A variable has its own sort, an if-then-else the wanted one.
#[tactic(auto, unfolding(crate::specs::Readings::expression_allowed))]
fn expression_allowed(wanted: Option<Sort>, kind: u8) -> bool
    ensures { result ≡ expression_allowed wanted kind }
{
    if !stands_at(kind, Place::Expression) {
        return false;
    }
    match Kind::try_from(kind) {
        Ok(Kind::Variable | Kind::Conditional) => true,
        _ => kinds::row_of(kind).result == wanted,
    }
}

impl Node {
    // The parameter without its sign.
    pub fn magnitude(self) -> usize
        ensures { result ≡ nat_abs self.parameter }
    {
        magnitude(self.parameter)
    }

    // Is the parameter 0 or 1.
    #[tactic(auto, using(crate::proofs::Parameters::truth_zero, crate::proofs::Parameters::truth_one))]
    fn is_truth(self) -> bool
        ensures { result ≡ is_truth self.parameter }
    {
        self.parameter == 0 || self.parameter == 1
    }

    // Is the parameter one of these numbers.
    fn is_among(self, numbers: &Range<usize>) -> bool
        ensures { result ≡ is_target numbers.now.start numbers.now.end self.parameter }
    {
        usize::try_from(self.parameter).is_ok_and(|number| numbers.contains(&number))
    }

    // Is the parameter the number of a variable of the wanted sort.
    fn has_sort(self, sorts: &[Sort], wanted: Option<Sort>) -> bool
        ensures { result ≡ is_of_sort sorts.now wanted self.parameter }
    {
        let Ok(number) = usize::try_from(self.parameter) else {
            return false;
        };
        sorts.get(number).is_some_and(|&sort| Some(sort) == wanted)
    }

    // Does the parameter fit an expression: a number, a Boolean, a variable, any other.
    #[tactic(auto, unfolding(crate::specs::Readings::expression_fits))]
    fn fits_expression(self, sorts: &[Sort], wanted: Option<Sort>) -> bool
        ensures { result ≡ expression_fits sorts.now wanted self.kind self.parameter }
    {
        match Kind::try_from(self.kind) {
            Ok(Kind::Numeral) => true,
            Ok(Kind::Truth) => self.is_truth(),
            Ok(Kind::Variable) => self.has_sort(sorts, wanted),
            _ => self.parameter == 0,
        }
    }

    // Does the parameter fit an instruction: an assignment, a block, any other.
    #[tactic(auto, unfolding(crate::specs::Readings::instruction_fits))]
    fn fits_instruction(self, targets: &Range<usize>) -> bool
        ensures { result ≡ instruction_fits targets.now.start targets.now.end self.kind self.parameter }
    {
        match Kind::try_from(self.kind) {
            Ok(Kind::Assignment) => self.is_among(targets),
            Ok(Kind::Block) => 0 <= self.parameter,
            _ => self.parameter == 0,
        }
    }

    // Does the parameter fit the first node of a variable: the low end of a number, any number, or a Boolean's first value.
    fn fits_variable(self) -> bool
        ensures { result ≡ variable_fits self.kind self.parameter }
    {
        kinds::stands_for(self.kind, Kind::LowEnd) || self.is_truth()
    }

    // Is the parameter within these ends.
    fn is_within(self, low: i32, high: i32) -> bool
        ensures { result ≡ (le_z low self.parameter && le_z self.parameter high) }
    {
        low <= self.parameter && self.parameter <= high
    }

    // The node, where its kind and its parameter are allowed.
    #[tactic(auto, unfolding(crate::specs::Nodes::checked))]
    fn checked(self, allowed: bool, fits: bool) -> Result<Node, Refusal>
        ensures { result ≡ checked allowed fits self }
    {
        if !allowed {
            return Err(Refusal::KindNotAllowed);
        }
        if !fits {
            return Err(Refusal::ParameterNotAllowed);
        }
        Ok(self)
    }
}

#[tactic(auto, using(crate::proofs::Refusals::not_due, crate::proofs::Refusals::tested, crate::proofs::Refusals::depth_left), unfolding(crate::specs::Readings::expression_refusal, crate::specs::Readings::instruction_refusal, crate::specs::Readings::variable_refusal, crate::specs::Readings::end_refusal, crate::specs::Readings::transition_refusal))]
impl Cursor {
    // At the first node (01 names this form).
    pub fn empty() -> Self
        ensures { result.at ≡ 0 }
    {
        Cursor { at: 0 }
    }

    // Whatever node is due, with this depth left; a parameter past the end is 0.
    #[tactic(auto, unfolding(crate::specs::Nodes::due_at, crate::specs::Readings::refusal_at, crate::specs::Readings::reading_at))]
    fn node(self, tree: &Tree, left: usize) -> Result<Node, Refusal>
        ensures { result ≡ due_at tree.now.kinds.now tree.now.parameters.now left self.at }
    {
        let at = self.at;
        let Some(&kind) = tree.kinds.get(at) else {
            return Err(Refusal::MissingNode);
        };
        if left == 0 {
            return Err(Refusal::TooDeep);
        }
        Ok(Node {
            kind,
            parameter: tree.parameters.get(at).copied().unwrap_or(0),
            next: Cursor { at: at + 1 },
        })
    }

    // The five below ask two tests each: handed to one function, a call of it would be as long as each of them is.

    // An expression node of the wanted sort, with this depth left.
    pub fn expression_node(
        self,
        tree: &Tree,
        sorts: &[Sort],
        left: usize,
        wanted: Option<Sort>,
    ) -> Result<Node, Refusal>
        ensures reading { result ≡ expression_reading tree.now.kinds.now tree.now.parameters.now sorts.now left wanted self.at }
        ensures depth { OnOk result (0 < left) }
    {
        let node = self.node(tree, left)?;
        let allowed = expression_allowed(wanted, node.kind);
        let fits = node.fits_expression(sorts, wanted);
        node.checked(allowed, fits)
    }

    // An instruction node whose target is one of these variables, with this depth left.
    pub fn instruction_node(
        self,
        tree: &Tree,
        targets: &Range<usize>,
        left: usize,
    ) -> Result<Node, Refusal>
        ensures reading { result ≡ instruction_reading tree.now.kinds.now tree.now.parameters.now targets.now.start targets.now.end left self.at }
        ensures depth { OnOk result (0 < left) }
    {
        let node = self.node(tree, left)?;
        let allowed = stands_at(node.kind, Place::Instruction);
        let fits = node.fits_instruction(targets);
        node.checked(allowed, fits)
    }

    // The first node of a variable: the low end of a number, any number, or a Boolean's first value.
    pub fn variable_node(self, tree: &Tree) -> Result<Node, Refusal>
        ensures { result ≡ variable_reading tree.now.kinds.now tree.now.parameters.now self.at }
    {
        let node = self.node(tree, 1)?;
        let allowed = stands_at(node.kind, Place::Variable);
        let fits = node.fits_variable();
        node.checked(allowed, fits)
    }

    // The node of a number's high end or first value: `place` of the table, within `low` and `high`.
    pub fn end_node(self, tree: &Tree, place: Place, low: i32, high: i32) -> Result<Node, Refusal>
        ensures { result ≡ end_reading tree.now.kinds.now tree.now.parameters.now place low high self.at }
    {
        let node = self.node(tree, 1)?;
        let allowed = stands_at(node.kind, place);
        let fits = node.is_within(low, high);
        node.checked(allowed, fits)
    }

    // The node of a transition.
    pub fn transition_node(self, tree: &Tree, events: usize) -> Result<Node, Refusal>
        ensures { result ≡ transition_reading tree.now.kinds.now tree.now.parameters.now events self.at }
    {
        let node = self.node(tree, 1)?;
        let allowed = stands_at(node.kind, Place::Transition);
        let fits = node.is_among(&(0..events));
        node.checked(allowed, fits)
    }
}
