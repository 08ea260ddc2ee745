// What the variables of a net are.

use cnf_form::Lit;
use gate_graph::Gate;

/// A state bit: the digit with which it starts, if it has one, and the literal that it takes in the next cycle.
#[derive(Clone, Copy, Debug, PartialEq, Eq)]
pub struct State {
    pub start: Option<bool>,
    pub next: Lit,
}

/// What a variable is.
#[derive(Clone, Copy, Debug, PartialEq, Eq)]
pub enum Node {
    /// A state bit.
    State(State),
    /// An input bit.
    Input,
    /// A gate.
    Gate(Gate),
}
