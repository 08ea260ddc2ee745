//! A model that is made.

ghost use Rattle.std.specs.Prelude.{◌≡◌, ◌<◌, Some, length, slice_get, ℕ};
ghost use Rattle.model_core.specs.Served.{IsModel};
ghost use Rattle.model_core.specs.Shape.{NodeOf, RegisterOf, states};

use crate::draft::Draft;
use crate::op::Op;
use std::marker::Model;

/// A control bit by its place, and the level at which it is active.
#[derive(Clone, Copy, Debug, PartialEq, Eq)]
pub struct Control {
    pub place: u32,
    pub level: bool,
}

/// An assertion, assumption or cover statement, by the places of its A and EN.
#[derive(Clone, Copy, Debug, PartialEq, Eq)]
pub struct Statement {
    pub a: u32,
    pub en: u32,
}

/// A model: each place is a constant, a state bit, an input, or given by one node, and each node reads only places that stand before it.
#[derive(Drop)]
pub struct WordModel {
    pub(crate) draft: Draft,
}

impl Model for WordModel {
    ghost use Rattle.model_core.specs.Shape.{ModelOf};
    ghost use Rattle.model_core.specs.Served.{IsModel};

    ghost Value = { ModelOf };

    ghost view = { λ m. m.draft };

    ghost invariant = { λ m. IsModel m.draft };
}

impl WordModel {
    /// How many places there are.
    pub fn size(&self) -> u32
        ensures size { result ≡ self.now.size }
        ensures model { IsModel self.now }
    {
        self.draft.size
    }

    /// The place of the constant 0; that of 1 is the next.
    pub fn zero(&self) -> u32
        ensures { result ≡ self.now.zero }
    {
        self.draft.zero
    }

    /// How many nodes there are.
    pub fn nodes(&self) -> usize
        ensures { result ≡ length self.now.nodes }
    {
        self.draft.nodes.len()
    }

    /// What the node does.
    pub fn op(&self, node: usize) -> Op
        requires { node < length self.now.nodes }
        ensures { (n : NodeOf) → slice_get self.now.nodes node ≡ Some n → result ≡ n.op }
    {
        self.draft.nodes[node].op
    }

    /// The places of the row at the node's A.
    pub fn a(&self, node: usize) -> &[u32]
        requires { node < length self.now.nodes }
        ensures { (n : NodeOf) → slice_get self.now.nodes node ≡ Some n → result.now ≡ n.a }
    {
        let stored = self.draft.nodes[node];
        &self.draft.places[stored.first..][..stored.a as usize]
    }

    /// The places of the row at the node's B.
    pub fn b(&self, node: usize) -> &[u32]
        requires { node < length self.now.nodes }
        ensures { (n : NodeOf) → slice_get self.now.nodes node ≡ Some n → result.now ≡ n.b }
    {
        let stored = self.draft.nodes[node];
        &self.draft.places[stored.first + stored.a as usize..][..stored.b as usize]
    }

    /// The places of the row at the node's S.
    pub fn s(&self, node: usize) -> &[u32]
        requires { node < length self.now.nodes }
        ensures { (n : NodeOf) → slice_get self.now.nodes node ≡ Some n → result.now ≡ n.s }
    {
        let stored = self.draft.nodes[node];
        let first = stored.first + stored.a as usize + stored.b as usize;
        &self.draft.places[first..][..stored.s as usize]
    }

    /// The places of the row that the node gives.
    pub fn y(&self, node: usize) -> &[u32]
        requires { node < length self.now.nodes }
        ensures { (n : NodeOf) → slice_get self.now.nodes node ≡ Some n → result.now ≡ n.y }
    {
        let stored = self.draft.nodes[node];
        let first = stored.first + stored.a as usize + stored.b as usize + stored.s as usize;
        &self.draft.places[first..][..stored.y as usize]
    }

    /// How many registers there are.
    pub fn registers(&self) -> usize
        ensures { result ≡ length self.now.registers }
    {
        self.draft.registers.len()
    }

    /// The places of the register's state bits.
    pub fn q(&self, register: usize) -> &[u32]
        requires { register < length self.now.registers }
        ensures { (r : RegisterOf) → slice_get self.now.registers register ≡ Some r → result.now ≡ r.q }
    {
        let stored = self.draft.registers[register];
        &self.draft.states[stored.state..][..stored.width as usize]
    }

    /// The places of the row that the register takes where it is enabled.
    pub fn d(&self, register: usize) -> &[u32]
        requires { register < length self.now.registers }
        ensures { (r : RegisterOf) → slice_get self.now.registers register ≡ Some r → result.now ≡ r.d }
    {
        let stored = self.draft.registers[register];
        &self.draft.places[stored.first..][..stored.width as usize]
    }

    /// The places of the register's reset value.
    pub fn value(&self, register: usize) -> &[u32]
        requires { register < length self.now.registers }
        ensures { (r : RegisterOf) → slice_get self.now.registers register ≡ Some r → result.now ≡ r.value }
    {
        let stored = self.draft.registers[register];
        &self.draft.places[stored.first + stored.width as usize..][..stored.width as usize]
    }

    /// The bit that enables the register.
    pub fn enable(&self, register: usize) -> Control
        requires { register < length self.now.registers }
        ensures { (r : RegisterOf) → slice_get self.now.registers register ≡ Some r → result ≡ r.enable }
    {
        self.draft.registers[register].enable
    }

    /// The bit that resets the register.
    pub fn reset(&self, register: usize) -> Control
        requires { register < length self.now.registers }
        ensures { (r : RegisterOf) → slice_get self.now.registers register ≡ Some r → result ≡ r.reset }
    {
        self.draft.registers[register].reset
    }

    /// Whether the register is reset where it isn't enabled too.
    pub fn reset_first(&self, register: usize) -> bool
        requires { register < length self.now.registers }
        ensures { (r : RegisterOf) → slice_get self.now.registers register ≡ Some r → result ≡ r.reset_first }
    {
        self.draft.registers[register].reset_first
    }

    /// The places of all state bits, register by register.
    pub fn states(&self) -> &[u32]
        ensures { result.now ≡ states self.now }
    {
        let draft = &self.draft;
        draft.states.as_slice()
    }

    /// For each state bit the digit that it starts with, if it has one.
    pub fn starts(&self) -> &[Option<bool>]
        ensures { result.now ≡ self.now.starts }
    {
        self.draft.starts.as_slice()
    }

    /// The places of all inputs.
    pub fn inputs(&self) -> &[u32]
        ensures { result.now ≡ self.now.inputs }
    {
        self.draft.inputs.as_slice()
    }

    /// The assertions, in file order.
    pub fn asserts(&self) -> &[Statement]
        ensures { result.now ≡ self.now.asserts }
    {
        self.draft.asserts.as_slice()
    }

    /// The assumptions, in file order.
    pub fn assumes(&self) -> &[Statement]
        ensures { result.now ≡ self.now.assumes }
    {
        self.draft.assumes.as_slice()
    }

    /// The cover statements, in file order.
    pub fn covers(&self) -> &[Statement]
        ensures { result.now ≡ self.now.covers }
    {
        self.draft.covers.as_slice()
    }
}
