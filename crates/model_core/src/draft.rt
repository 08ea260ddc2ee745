//! A model while it is made.

ghost use Rattle.std.specs.Prelude.{◌≡◌, ◌<◌, ◌≤◌, ◌^◌, [], ◌∷◌, ◌++◌, length, OnOk};
ghost use Rattle.model_core.specs.Served.{IsModel};
ghost use Rattle.model_core.specs.Shape.{NodeOf};

use crate::model::{Control, Statement, WordModel};
use crate::op::Op;
use crate::stored::{StoredNode, StoredRegister};
use std::alloc::{AllocError, Global};
use std::marker::Model;

/// A model to which parts are added. Of what an error leaves nothing is said.
#[derive(Drop)]
pub struct Draft {
    pub(crate) size: u32,
    pub(crate) zero: u32,
    pub(crate) places: Vec<u32>,
    pub(crate) nodes: Vec<StoredNode>,
    pub(crate) states: Vec<u32>,
    pub(crate) registers: Vec<StoredRegister>,
    pub(crate) starts: Vec<Option<bool>>,
    pub(crate) inputs: Vec<u32>,
    pub(crate) asserts: Vec<Statement>,
    pub(crate) assumes: Vec<Statement>,
    pub(crate) covers: Vec<Statement>,
}

impl Model for Draft {
    ghost use Rattle.std.specs.Prelude.{map};
    ghost use Rattle.model_core.specs.Shape.{ModelOf};
    ghost use Rattle.model_core.specs.Stored.{AreKept, node_of, register_of};

    ghost Value = { ModelOf };

    ghost view = { λ m. record {
      size = m.size;
      zero = m.zero;
      nodes = map (node_of m.places.items) m.nodes.items;
      registers = map (register_of m.places.items m.states.items) m.registers.items;
      starts = m.starts.items;
      inputs = m.inputs.items;
      asserts = m.asserts.items;
      assumes = m.assumes.items;
      covers = m.covers.items;
    } };

    ghost invariant = { λ m. AreKept m.places.items m.states.items m.nodes.items m.registers.items };
}

impl Draft {
    /// A model of this many places, the constant 0 at the place `zero`, and 1 at the next, without any other part.
    pub fn new(alloc: Global, size: u32, zero: u32) -> Draft
        ensures { result ≡ record { size = size; zero = zero; nodes = []; registers = []; starts = []; inputs = []; asserts = []; assumes = []; covers = [] } }
    {
        Draft {
            size,
            zero,
            places: Vec::new(alloc),
            nodes: Vec::new(alloc),
            states: Vec::new(alloc),
            registers: Vec::new(alloc),
            starts: Vec::new(alloc),
            inputs: Vec::new(alloc),
            asserts: Vec::new(alloc),
            assumes: Vec::new(alloc),
            covers: Vec::new(alloc),
        }
    }

    /// Adds a node after the others: what it does, and the places of the rows at A, B, S and Y.
    pub fn push_node(
        &mut self,
        op: Op,
        a: &[u32],
        b: &[u32],
        s: &[u32],
        y: &[u32],
    ) -> Result<(), AllocError>
        requires a { length a.now < 2 ^ 32 }
        requires b { length b.now < 2 ^ 32 }
        requires s { length s.now < 2 ^ 32 }
        requires y { length y.now < 2 ^ 32 }
        ensures { OnOk result (self.new ≡ record self.old { nodes = self.old.nodes ++ record { op = op; a = a.now; b = b.now; s = s.now; y = y.now } ∷ [] }) }
    {
        let first = self.places.len();
        self.places.extend_from_slice(a)?;
        self.places.extend_from_slice(b)?;
        self.places.extend_from_slice(s)?;
        self.places.extend_from_slice(y)?;
        self.nodes.push(StoredNode {
            op,
            first,
            a: a.len() as u32,
            b: b.len() as u32,
            s: s.len() as u32,
            y: y.len() as u32,
        })?;
        Ok(())
    }

    /// Adds a register after the others: the places of the row that it keeps, of the row that it takes, and of its reset value, its
    /// control bits, whether the reset decides first, and for each of its bits the digit that it starts with.
    pub fn push_register(
        &mut self,
        q: &[u32],
        d: &[u32],
        value: &[u32],
        enable: Control,
        reset: Control,
        reset_first: bool,
        starts: &[Option<bool>],
    ) -> Result<(), AllocError>
        requires width { length q.now < 2 ^ 32 }
        requires d { length d.now ≡ length q.now }
        requires value { length value.now ≡ length q.now }
        ensures { OnOk result (self.new ≡ record self.old {
          registers = self.old.registers ++ record { q = q.now; d = d.now; value = value.now; enable = enable; reset = reset; reset_first = reset_first } ∷ [];
          starts = self.old.starts ++ starts.now;
        }) }
    {
        let first = self.places.len();
        let state = self.states.len();
        self.places.extend_from_slice(d)?;
        self.places.extend_from_slice(value)?;
        self.starts.extend_from_slice(starts)?;
        // With room for its state bits they are added where the register is.
        self.states.try_reserve(q.len())?;
        self.registers.push(StoredRegister {
            first,
            state,
            width: q.len() as u32,
            enable,
            reset,
            reset_first,
        })?;
        self.states.extend_from_slice(q)?;
        Ok(())
    }

    /// Adds the place of an input after the others.
    pub fn push_input(&mut self, place: u32) -> Result<(), AllocError>
        ensures { OnOk result (self.new ≡ record self.old { inputs = self.old.inputs ++ place ∷ [] }) }
    {
        self.inputs.push(place)?;
        Ok(())
    }

    /// Adds an assertion after the others.
    pub fn push_assert(&mut self, statement: Statement) -> Result<(), AllocError>
        ensures { OnOk result (self.new ≡ record self.old { asserts = self.old.asserts ++ statement ∷ [] }) }
    {
        self.asserts.push(statement)?;
        Ok(())
    }

    /// Adds an assumption after the others.
    pub fn push_assume(&mut self, statement: Statement) -> Result<(), AllocError>
        ensures { OnOk result (self.new ≡ record self.old { assumes = self.old.assumes ++ statement ∷ [] }) }
    {
        self.assumes.push(statement)?;
        Ok(())
    }

    /// Adds a cover statement after the others.
    pub fn push_cover(&mut self, statement: Statement) -> Result<(), AllocError>
        ensures { OnOk result (self.new ≡ record self.old { covers = self.old.covers ++ statement ∷ [] }) }
    {
        self.covers.push(statement)?;
        Ok(())
    }

    /// The model that was made.
    pub fn finish(self) -> WordModel
        requires { IsModel self }
        ensures { result ≡ self }
    {
        WordModel { draft: self }
    }
}
