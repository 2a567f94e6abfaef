// What firing a transition and starting come to, on the slices of a decoded model.

#![tactic(auto)]

ghost use Rattle.rounds.specs.Lent.{IndexHeld};
ghost use Rattle.engine.specs.Lent.{LoadedIn};

use reading::Gathering;
use tables::{Index, Tables};

pub mod transitions; // transitions.rt: guards, firing, starting

// The tables that an accepted file is decoded to; which file is no part of it.
#[derive(Clone, Copy)]
pub struct DecodedModel<'a> {
    pub tables: Tables<'a>,
    pub ghost accepted: { ∥ LoadedIn tables ∥₁ },
}

// A decoded model, with the index of its assertion.
#[derive(Clone, Copy)]
pub struct LoadedModel<'a> {
    pub decoded: DecodedModel<'a>,
    pub index: Index<'a>,
    pub ghost indexed: { IndexHeld decoded.tables index },
}

// What a firing works in: cells for the states, as many as there are variables, what is known of the variables, and what the readings
// gather. The gathering is lent, and not held: of a slice that stands beside a struct of slices it is not known afterwards that it is the
// one that was lent.
#[derive(Drop)]
pub struct Work<'a, 'b> {
    pub states: &'a mut [i32],
    pub cells: &'a mut [Option<i32>],
    pub gathering: &'a mut Gathering<'b>,
}
