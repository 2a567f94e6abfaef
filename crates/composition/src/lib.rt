// The nodes of a phrase, composed of those of its parts.

#![tactic(auto)]

ghost use Rattle.std.specs.Prelude.{◌≡◌, [], cond, ◌&&◌, List, ◌∷◌, ◌++◌, map, ℕ, ◌+◌, ◌≤◌, ◌<◌, true, pos, length, take, drop, set, Some, is_some};
ghost use Rattle.results.specs.Results.{over};
ghost use Rattle.kinds.specs.declared.Sort.{Sort};
ghost use Rattle.kinds.specs.Kinds.{boolean_sort, code_of, kind_of};
ghost use Rattle.kinds.specs.Sameness.{same_sort};
ghost use Rattle.grammar.specs.Phrases.{Phrase};
ghost use Rattle.grammar.specs.Phrases.Phrase.{numeral, truth, variable, prefixed, operation, call, conditional};
ghost use Rattle.grammar.specs.Held.{capped};
ghost use Rattle.composition.specs.Typing.{provided, operation_sort, call_operator};
ghost use Rattle.composition.specs.declared.Node.{Node};
ghost use Rattle.model.specs.Nodes.{node};
ghost use Rattle.composition.specs.Parts.{Nodes, held, written, Holds, Placed, Composed, SameCells};
ghost use Rattle.composition.specs.Arranging.{plain, is_greater, equality_kind, operator_kind, operator_cells, arranged};

use arrayvec::ArrayVec;
use grammar::Token;
use kinds::{Kind, Sort};

// The most nodes of a text.
pub const MAX_NODES: usize = 400;

// Nodes that are written one after another.
pub type Nodes = ArrayVec<Node, MAX_NODES>;

// A node of an expression.
#[derive(Clone, Copy)]
pub struct Node {
    pub kind: Kind,
    pub parameter: i32,
}

// A phrase as it was read: the place after its words, where its nodes begin, their depth, its sort (None: types do not fit), and
// whether its variables are all below S+F (apart from the sort, which the nodes go by whatever `below` is: one Result of both would
// need a rule for two errors at each operator).
#[derive(Clone, Copy)]
pub struct Part {
    pub next: u16,
    pub from: u16,
    pub depth: u16,
    pub sort: Option<Sort>,
    pub below: bool,
}

// A node whose parameter is this number; the greatest of 31 bits stands for all from there on.
fn numbered(kind: Kind, number: u32) -> Node
    ensures { result ≡ held (node (code_of kind) (pos number)) }
{
    let parameter = i32::try_from(number).unwrap_or(i32::MAX);
    Node { kind, parameter }
}

fn is_greater(operator: Token) -> bool
    ensures { result ≡ is_greater operator }
{
    matches!(operator, Token::Greater | Token::GreaterOrEqual)
}

// The kind of an operator's node, its left operand being of this sort.
#[tactic(auto, unfolding(crate::specs::Arranging::operator_kind))]
fn operator_kind(operator: Token, sort: Option<Sort>) -> Kind
    ensures { result ≡ operator_kind operator sort }
{
    match operator {
        Token::Plus => Kind::Sum,
        Token::Minus => Kind::Difference,
        Token::Times => Kind::Product,
        Token::And => Kind::Conjunction,
        Token::Or => Kind::Disjunction,
        Token::Equal | Token::Unequal => equality_kind(sort),
        Token::Greater | Token::Less => Kind::Less,
        _ => Kind::LessOrEqual,
    }
}

fn equality_kind(sort: Option<Sort>) -> Kind
    ensures { result ≡ equality_kind sort }
{
    match sort {
        Some(Sort::Number) => Kind::Equality,
        _ => Kind::Equivalence,
    }
}

// This sort, if it is the wanted one.
fn only(sort: Option<Sort>, wanted: Sort) -> Option<Sort>
    ensures { result ≡ provided (same_sort sort (Some wanted)) (Some wanted) }
{
    sort.filter(|sort| *sort == wanted)
}

// A sort, if both operands are of the wanted one.
fn of_both(left: Option<Sort>, right: Option<Sort>, wanted: Sort, sort: Sort) -> Option<Sort>
    ensures { result ≡ provided (same_sort left (Some wanted) && same_sort right (Some wanted)) (Some sort) }
{
    (left == Some(wanted) && right == Some(wanted)).then_some(sort)
}

// Of `==` and `!=`: the operands have the same sort.
fn equality_sort(left: Option<Sort>, right: Option<Sort>) -> Option<Sort>
    ensures { result ≡ provided (is_some left && same_sort left right) boolean_sort }
{
    (left.is_some() && left == right).then_some(Sort::Boolean)
}

// The sort of an operator between operands of these sorts.
#[tactic(auto, unfolding(crate::specs::Typing::operation_sort))]
fn operation_sort(operator: Token, left: Option<Sort>, right: Option<Sort>) -> Option<Sort>
    ensures { result ≡ operation_sort operator left right }
{
    match operator {
        Token::Plus | Token::Minus | Token::Times => {
            of_both(left, right, Sort::Number, Sort::Number)
        }
        Token::And | Token::Or => of_both(left, right, Sort::Boolean, Sort::Boolean),
        Token::Equal | Token::Unequal => equality_sort(left, right),
        _ => of_both(left, right, Sort::Number, Sort::Boolean),
    }
}

// The kind of a call's node.
#[tactic(auto, unfolding(crate::specs::Typing::call_operator, kinds::specs::Kinds::kind_of))]
fn call_kind(function: Token) -> Kind
    ensures { code_of result ≡ kind_of (call_operator function) }
{
    match function {
        Token::Div => Kind::Quotient,
        _ => Kind::Remainder,
    }
}

// The sort of if-then-else.
fn choice_sort(condition: Option<Sort>, first: Option<Sort>, second: Option<Sort>) -> Option<Sort>
    ensures { result ≡ provided (same_sort condition boolean_sort && same_sort first second) first }
{
    if condition == Some(Sort::Boolean) && first == second {
        first
    } else {
        None
    }
}

// What a place of `Nodes` holds before a node is written there. By hand, since a kind has no default of its own.
impl Default for Node {
    ghost use Rattle.kinds.specs.declared.kind.Kind.TheVariants.{Skip};

    ghost is_default = { λ node. node ≡ plain Skip };

    fn default() -> Node {
        Node {
            kind: Kind::Skip,
            parameter: 0,
        }
    }
}

// Exchanges the first `first` nodes with the others: each of the two runs is turned round, and then both at once. With `rotate_left` here, or
// the vector's `insert` in place of `bring_forward`, the archive for C would need `memmove` from outside.
fn exchange(nodes: &mut [Node], first: usize)
    requires { first ≤ length nodes.old }
    ensures { nodes.new ≡ drop first nodes.old ++ take first nodes.old }
{
    nodes[..first].reverse();
    nodes[first..].reverse();
    nodes.reverse();
}

// The last node comes before the others, each of which moves up by one place: `exchange` in one pass, since each operator is put in so.
fn bring_forward(nodes: &mut [Node], last: usize)
    requires { last + 1 ≡ length nodes.old }
    ensures { nodes.new ≡ drop last nodes.old ++ take last nodes.old }
{
    let mut carried = nodes[last];
    for i in 0..nodes.len() {
        let own = nodes[i];
        nodes[i] = carried;
        carried = own;
    }
}

// A part is composed of others, whose nodes stand one after another, those of the last one last.
impl Part {
    // Puts a node of this kind before the part's.
    fn put(self, nodes: &mut Nodes, kind: Kind)
        requires { (self.from ≤ length (written nodes.old)) × (length (written nodes.old) < 400) }
        ensures count { length (written nodes.new) ≡ length (written nodes.old) + 1 }
        ensures nodes { written nodes.new ≡ take self.from (written nodes.old) ++ (plain kind ∷ drop self.from (written nodes.old)) }
    {
        let from = usize::from(self.from);
        let end = nodes.len();
        nodes.push(Node { kind, parameter: 0 });
        bring_forward(&mut nodes.as_mut_slice()[from..], end - from);
    }

    // Puts the nodes of an operator before those of its operands, of which the part is the left one.
    #[tactic(auto, using(crate::proofs::Operators::one_cell, crate::proofs::Operators::two_cells, crate::proofs::Putting::one_put, crate::proofs::Putting::two_put))]
    fn put_operator(self, nodes: &mut Nodes, operator: Token)
        requires { (self.from ≤ length (written nodes.old)) × (length (written nodes.old) + 2 ≤ 400) }
        ensures count { length (written nodes.new) ≡ length (written nodes.old) + length (operator_cells operator self.sort) }
        ensures nodes { written nodes.new
            ≡ take self.from (written nodes.old) ++ (operator_cells operator self.sort ++ drop self.from (written nodes.old)) }
    {
        self.put(nodes, operator_kind(operator, self.sort));
        if operator == Token::Unequal {
            self.put(nodes, Kind::Negation);
        }
    }

    // Arranges the nodes of an operator's operands, of which the part is the left one.
    #[tactic(auto, using(crate::proofs::Turning::runs, crate::proofs::Turning::turned), unfolding(crate::specs::Arranging::arranged))]
    fn arrange(self, nodes: &mut Nodes, operator: Token, right: Part)
        requires { (self.from ≤ right.from) × (right.from ≤ length (written nodes.old)) }
        ensures count { length (written nodes.new) ≡ length (written nodes.old) }
        ensures nodes { written nodes.new ≡ take self.from (written nodes.old)
            ++ arranged operator (drop self.from (take right.from (written nodes.old))) (drop right.from (written nodes.old)) }
    {
        if is_greater(operator) {
            let from = usize::from(self.from);
            exchange(
                &mut nodes.as_mut_slice()[from..],
                usize::from(right.from) - from,
            );
        }
    }

    // One node alone, the next one.
    fn leaf(nodes: &mut Nodes, node: Node, sort: Option<Sort>, next: u16) -> Part
        requires { length (written nodes.old) < 400 }
        ensures count { length (written nodes.new) ≡ length (written nodes.old) + 1 }
        ensures stored { written nodes.new ≡ written nodes.old ++ (node ∷ []) }
        ensures part { result ≡ record { next = next; from = length (written nodes.old); depth = 1; sort = sort; below = true } }
    {
        let from = nodes.len() as u16;
        nodes.push(node);
        Part {
            next,
            from,
            depth: 1,
            sort,
            below: true,
        }
    }

    // A number.
    pub fn numeral(nodes: &mut Nodes, number: u32, next: u16) -> Part
        requires { length (written nodes.old) < 400 }
        ensures composed { Composed (length (written nodes.old)) next nodes.new result }
        ensures holds { (vs : List Sort) (n : ℕ) → number ≡ capped n
            → Holds vs (numeral n) (written nodes.old) nodes.new result }
    {
        let node = numbered(Kind::Numeral, number);
        Part::leaf(nodes, node, Some(Sort::Number), next)
    }

    // True (1) or false (0): a number, as the phrase has it.
    pub fn truth(nodes: &mut Nodes, value: u8, next: u16) -> Part
        requires { length (written nodes.old) < 400 }
        ensures composed { Composed (length (written nodes.old)) next nodes.new result }
        ensures holds { (vs : List Sort)
            → Holds vs (truth value) (written nodes.old) nodes.new result }
    {
        let node = numbered(Kind::Truth, u32::from(value));
        Part::leaf(nodes, node, Some(Sort::Boolean), next)
    }

    // A variable.
    pub fn variable(nodes: &mut Nodes, sorts: &[Sort], number: u32, next: u16) -> Part
        requires { (length (written nodes.old) < 400) × (length sorts.now ≤ 4294967295) }
        ensures composed { Composed (length (written nodes.old)) next nodes.new result }
        ensures holds { (x : ℕ) → number ≡ capped x
            → Holds sorts.now (variable x) (written nodes.old) nodes.new result }
    {
        let node = numbered(Kind::Variable, number);
        match sorts.get(number as usize) {
            Some(sort) => Part::leaf(nodes, node, Some(*sort), next),
            None => Part {
                below: false,
                ..Part::leaf(nodes, node, None, next)
            },
        }
    }

    // A phrase in parentheses: the same nodes.
    pub fn enclosed(self, next: u16) -> Part
        ensures { result ≡ record self { next = next } }
    {
        Part { next, ..self }
    }

    // Not, a minus sign (0 minus its operand) or a plus sign (no node, but it wants a number).
    pub fn prefixed(self, nodes: &mut Nodes, operator: Token) -> Part
        requires { Placed (length (written nodes.old)) self × (length (written nodes.old) + 2 ≤ 400) }
        ensures composed { Composed (length (written nodes.old)) self.next nodes.new result }
        ensures holds { (vs : List Sort) (p : Phrase) (before : List Node)
            → Holds vs p before nodes.old self → Holds vs (prefixed operator p) before nodes.new result }
    {
        match operator {
            Token::Not => {
                self.put(nodes, Kind::Negation);
                Part {
                    depth: self.depth + 1,
                    sort: only(self.sort, Sort::Boolean),
                    ..self
                }
            }
            Token::Minus => {
                self.put(nodes, Kind::Numeral);
                self.put(nodes, Kind::Difference);
                Part {
                    depth: self.depth + 1,
                    sort: only(self.sort, Sort::Number),
                    ..self
                }
            }
            _ => Part {
                sort: only(self.sort, Sort::Number),
                ..self
            },
        }
    }

    // An operator between this operand and the right one.
    #[tactic(auto, using(crate::proofs::Operators::few_cells))]
    pub fn operated(self, nodes: &mut Nodes, operator: Token, right: Part) -> Part
        requires { Placed right.from self × Placed (length (written nodes.old)) right × (length (written nodes.old) + 2 ≤ 400) }
        ensures composed { Composed (length (written nodes.old)) right.next nodes.new result }
        ensures holds { (vs : List Sort) (p q : Phrase) (before : List Node) (left : Nodes)
            → Holds vs p before left self → Holds vs q (written left) nodes.old right
            → Holds vs (operation operator p q) before nodes.new result }
    {
        let count = nodes.len();
        self.arrange(nodes, operator, right);
        self.put_operator(nodes, operator);
        Part {
            next: right.next,
            depth: self.depth.max(right.depth) + (nodes.len() - count) as u16,
            sort: operation_sort(operator, self.sort, right.sort),
            below: self.below & right.below,
            ..self
        }
    }

    // A call of div or mod, which ends before place `next`.
    pub fn called(self, nodes: &mut Nodes, function: Token, right: Part, next: u16) -> Part
        requires { Placed right.from self × Placed (length (written nodes.old)) right × (length (written nodes.old) + 2 ≤ 400) }
        ensures composed { Composed (length (written nodes.old)) next nodes.new result }
        ensures holds { (vs : List Sort) (p q : Phrase) (before : List Node) (left : Nodes)
            → Holds vs p before left self → Holds vs q (written left) nodes.old right
            → Holds vs (call function p q) before nodes.new result }
    {
        self.put(nodes, call_kind(function));
        Part {
            next,
            depth: self.depth.max(right.depth) + 1,
            sort: of_both(self.sort, right.sort, Sort::Number, Sort::Number),
            below: self.below & right.below,
            ..self
        }
    }

    // If-then-else, by its condition.
    pub fn chosen(self, nodes: &mut Nodes, first: Part, second: Part) -> Part
        requires { Placed first.from self × Placed second.from first × Placed (length (written nodes.old)) second × (length (written nodes.old) + 2 ≤ 400) }
        ensures composed { Composed (length (written nodes.old)) second.next nodes.new result }
        ensures holds { (vs : List Sort) (p q s : Phrase) (before : List Node) (condition branch : Nodes)
            → Holds vs p before condition self → Holds vs q (written condition) branch first
            → Holds vs s (written branch) nodes.old second
            → Holds vs (conditional p q s) before nodes.new result }
    {
        self.put(nodes, Kind::Conditional);
        Part {
            next: second.next,
            depth: self.depth.max(first.depth.max(second.depth)) + 1,
            sort: choice_sort(self.sort, first.sort, second.sort),
            below: self.below & first.below & second.below,
            ..self
        }
    }
}

// Two slices lent for the nodes of an expression. Not two tapes, as a new model's nodes are put on: here all nodes have room and stand at
// the beginning, so no place is kept, and none is asked of a caller.
#[derive(Drop)]
pub struct Cells<'a> {
    pub kinds: &'a mut [u8],
    pub parameters: &'a mut [i32],
}

impl Cells<'_> {
    // Writes the nodes at the beginning of the two slices.
    pub fn write(&mut self, nodes: &[Node])
        requires { (length nodes.now ≤ length self.old.kinds.now) × (length nodes.now ≤ length self.old.parameters.now) }
        ensures kinds { self.new.kinds.now ≡ over (map (λ n. code_of n.kind) nodes.now) self.old.kinds.now }
        ensures parameters { self.new.parameters.now ≡ over (map (λ n. n.parameter) nodes.now) self.old.parameters.now }
        ensures same { SameCells self.old self.new }
    {
        // By a place: a node goes into two slices, and of what is written through a `zip` of `iter_mut` a proof knows nothing afterwards.
        for (i, node) in nodes.iter().enumerate() {
            self.kinds[i] = node.kind.code();
            self.parameters[i] = node.parameter;
        }
    }
}
