// The nodes of the new model: the old ones, and before the assertion those of the new transition, copied from its members'.

ghost use Rattle.std.specs.Prelude.{◌≡◌, List, [], ◌∷◌, ◌+◌, ◌≤◌, ◌<◌, length, get_or};
ghost use Rattle.evaluation.specs.declared.Operator.{Operator};
ghost use Rattle.kinds.specs.Kinds.{code_of, kind_of};
ghost use Rattle.model.specs.Trees.{Transition};
ghost use Rattle.model.specs.Nodes.{Node, node, nodes_of_expression, nodes_of_all, nodes_of_transition, nodes_of_system};
ghost use Rattle.model.specs.Sizes.{max_nodes, size_bound};
ghost use Rattle.synchronisation.specs.Synchronisations.{nested, guard_of, optional_branches, branches_of, together, synchronised_of};
ghost use Rattle.synchronisation.specs.Members.{sheet_in, put_nodes, Between, MembersIn, BothIn, JoinIn, joined_system};

use kinds::Kind;
use model::Model;
use tables::Tables;
use tapes::Tape;

// The cells for the new model's nodes: one more than the most nodes, so that too many show.
pub const ROOM: usize = Model::MAX_NODES + 1;

// The transitions that fire together: those that must, and those that may.
#[derive(Clone, Copy)]
pub struct Members<'a> {
    pub mandatory: &'a [usize],
    pub optional: &'a [usize],
}

// The new model's nodes, copied from the tables one after another, kinds and parameters in step. Past the last cell nothing is written.
#[derive(Drop)]
pub struct Sheet<'t, 'a> {
    pub tables: Tables<'t>,
    pub kinds: Tape<'a, u8>,
    pub parameters: Tape<'a, i32>,
}

impl Sheet<'_, '_> {
    // Puts a node.
    fn put(&mut self, kind: Kind, parameter: i32)
        ensures nodes { sheet_in self.new ≡ put_nodes (node (code_of kind) parameter ∷ []) (sheet_in self.old) }
        ensures same_tables { self.new.tables ≡ self.old.tables }
    {
        self.kinds.put_one(kind.code());
        self.parameters.put_one(parameter);
    }

    // Puts the nodes from place `from` up to `past`.
    fn copy(&mut self, from: usize, past: usize)
        requires { (ns : List Node) × Between self.old.tables.kinds.now self.old.tables.parameters.now ns from past }
        ensures nodes { (ns : List Node) → Between self.old.tables.kinds.now self.old.tables.parameters.now ns from past
            → sheet_in self.new ≡ put_nodes ns (sheet_in self.old) }
        ensures same_tables { self.new.tables ≡ self.old.tables }
    {
        self.kinds.put(&self.tables.kinds[from..past]);
        self.parameters.put(&self.tables.parameters[from..past]);
    }

    // Puts the nodes of the subtree at a place, one by one: a member's guard and action are short, and take longer as slices.
    fn copy_subtree(&mut self, place: usize)
        requires { (place < length self.old.tables.nexts.now)
            × ((ns : List Node) × Between self.old.tables.kinds.now self.old.tables.parameters.now ns place (get_or self.old.tables.nexts.now place 0)) }
        ensures nodes { (ns : List Node)
            → Between self.old.tables.kinds.now self.old.tables.parameters.now ns place (get_or self.old.tables.nexts.now place 0)
            → sheet_in self.new ≡ put_nodes ns (sheet_in self.old) }
        ensures same_tables { self.new.tables ≡ self.old.tables }
    {
        // Nothing more has room.
        if self.kinds.is_full() && self.parameters.is_full() {
            return;
        }
        let past = usize::from(self.tables.nexts[place]);
        let parameters = &self.tables.parameters[place..past];
        for (kind, parameter) in self.tables.kinds[place..past].iter().zip(parameters) {
            self.kinds.put_one(*kind);
            self.parameters.put_one(*parameter);
        }
    }

    // Puts the guards of the members, joined by an operator and nested to the right. There is a last one: a split that may find none would
    // need an exit that is never taken.
    fn join_guards(&mut self, operator: Kind, members: &[usize])
        requires { (0 < length members.now) × ((ts : List Transition) × MembersIn self.old.tables members.now ts) }
        ensures nodes { (op : Operator) (t : Transition) (ts : List Transition) → kind_of op ≡ code_of operator
            → MembersIn self.old.tables members.now (t ∷ ts)
            → sheet_in self.new ≡ put_nodes (nodes_of_expression (nested op t ts)) (sheet_in self.old) }
        ensures same_tables { self.new.tables ≡ self.old.tables }
    {
        let tables = self.tables;
        let last = members.len() - 1;
        for member in &members[..last] {
            self.put(operator, 0);
            self.copy_subtree(tables.guard_at(*member));
        }
        self.copy_subtree(tables.guard_at(members[last]));
    }

    // Puts the guard of the new transition: the mandatory ones' joined by and, or else the optional ones' joined by or.
    fn put_guard(&mut self, members: &Members<'_>)
        requires { (0 < length members.now.mandatory.now + length members.now.optional.now) × BothIn self.old.tables members.now }
        ensures nodes { (ts os : List Transition)
            → MembersIn self.old.tables members.now.mandatory.now ts → MembersIn self.old.tables members.now.optional.now os
            → sheet_in self.new ≡ put_nodes (nodes_of_expression (guard_of ts os)) (sheet_in self.old) }
        ensures same_tables { self.new.tables ≡ self.old.tables }
    {
        if members.mandatory.is_empty() {
            self.join_guards(Kind::Disjunction, members.optional);
        } else {
            self.join_guards(Kind::Conjunction, members.mandatory);
        }
    }

    // Puts the actions of the mandatory members.
    fn put_actions(&mut self, members: &[usize])
        requires { (ts : List Transition) × MembersIn self.old.tables members.now ts }
        ensures nodes { (ts : List Transition) → MembersIn self.old.tables members.now ts
            → sheet_in self.new ≡ put_nodes (nodes_of_all (branches_of ts [])) (sheet_in self.old) }
        ensures same_tables { self.new.tables ≡ self.old.tables }
    {
        let tables = self.tables;
        for member in members {
            self.copy_subtree(tables.action_at(*member));
        }
    }

    // Puts the actions of the optional members, each under its own guard.
    fn put_guarded_actions(&mut self, members: &[usize])
        requires { (ts : List Transition) × MembersIn self.old.tables members.now ts }
        ensures nodes { (ts : List Transition) → MembersIn self.old.tables members.now ts
            → sheet_in self.new ≡ put_nodes (nodes_of_all (optional_branches ts)) (sheet_in self.old) }
        ensures same_tables { self.new.tables ≡ self.old.tables }
    {
        let tables = self.tables;
        for member in members {
            self.put(Kind::IfThen, 0);
            self.copy_subtree(tables.guard_at(*member));
            self.copy_subtree(tables.action_at(*member));
        }
    }

    // Puts the new transition, under a new event.
    fn put_transition(&mut self, members: &Members<'_>)
        requires { (self.old.tables.model.sizes.events < size_bound)
            × (length members.now.mandatory.now ≤ max_nodes) × (length members.now.optional.now ≤ max_nodes)
            × (0 < length members.now.mandatory.now + length members.now.optional.now) × BothIn self.old.tables members.now }
        ensures nodes { (ts os : List Transition)
            → MembersIn self.old.tables members.now.mandatory.now ts → MembersIn self.old.tables members.now.optional.now os
            → sheet_in self.new
            ≡ put_nodes (nodes_of_transition (together self.old.tables.model.sizes.events ts os)) (sheet_in self.old) }
        ensures same_tables { self.new.tables ≡ self.old.tables }
    {
        let count = members.mandatory.len() + members.optional.len();
        self.put(Kind::Transition, self.tables.model.sizes.events as i32);
        self.put_guard(members);
        self.put(Kind::Block, count as i32);
        self.put_actions(members.mandatory);
        self.put_guarded_actions(members.optional);
    }

    // Puts all nodes of the new model: its new transition stands right before the assertion.
    pub fn put_system(&mut self, members: &Members<'_>)
        requires { (length members.now.mandatory.now ≤ max_nodes) × (length members.now.optional.now ≤ max_nodes)
            × JoinIn self.old.tables members.now }
        ensures { (j : JoinIn self.old.tables members.now)
            → sheet_in self.new
            ≡ put_nodes (nodes_of_system (synchronised_of (joined_system j) j.members.mandatory j.members.optional)) (sheet_in self.old) }
    {
        let assertion = self.tables.model.assertion;
        self.copy(0, assertion);
        self.put_transition(members);
        self.copy(assertion, self.tables.kinds.len());
    }
}
