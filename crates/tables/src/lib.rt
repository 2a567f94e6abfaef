// The tables of a decoded model, and the index of its assertion, as they are lent: each in one.

#![tactic(auto)]

ghost use Rattle.std.specs.Prelude.{◌≡◌, ◌<◌, length, get_or};

use model::Model;
use variables::VariableRow;

// The nodes in walk order with their kinds and parameters, a row for each variable, after each node the place past its subtree, and the
// place of each transition's guard. Kinds and parameters are no tree here: what reads them takes each by itself.
#[derive(Clone, Copy)]
pub struct Tables<'a> {
    pub model: Model,
    pub kinds: &'a [u8],
    pub parameters: &'a [i32],
    pub variables: &'a [VariableRow],
    pub nexts: &'a [u16],
    pub guards: &'a [u16],
}

impl Tables<'_> {
    // The place of a transition's guard.
    pub fn guard_at(&self, transition: usize) -> usize
        requires { transition < length self.now.guards.now }
        ensures { result ≡ get_or self.now.guards.now transition 0 }
    {
        usize::from(self.guards[transition])
    }

    // The place of its action, right after the guard.
    pub fn action_at(&self, transition: usize) -> usize
        requires { (transition < length self.now.guards.now)
            × (get_or self.now.guards.now transition 0 < length self.now.nexts.now) }
        ensures { result ≡ get_or self.now.nexts.now (get_or self.now.guards.now transition 0) 0 }
    {
        usize::from(self.nexts[self.guard_at(transition)])
    }
}

// Where each variable is mentioned first, and for each node the next mention of the same variable, and its owner. The number of nodes stands
// for no mention: cells of an Option would take twice the memory, which is fixed.
#[derive(Clone, Copy)]
pub struct Index<'a> {
    pub heads: &'a [u16],
    pub mentions: &'a [u16],
    pub owners: &'a [u16],
}
