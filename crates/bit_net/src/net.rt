//! A net.

ghost use Rattle.std.specs.Prelude.{◌≡◌, ◌+◌, ◌<◌, ◌≤◌, All, IfOk, ℕ, length};
ghost use Rattle.cnf_form.specs.Cnf.{LitWithin};
ghost use Rattle.bit_net.specs.Net.{IsNet, node_at, vars};
ghost use Rattle.bit_net.specs.Levels.{prefix_of};
ghost use Rattle.bit_net.specs.Reaching.{levels};

use crate::levels::Levels;
use crate::node::{Node, State};
use crate::search::reach;
use cnf_form::Lit;
use gate_graph::Gate;
use std::alloc::{AllocError, Global};
use std::marker::Model;

/// The gates of one cycle of a design over its states and inputs. The variables are numbered from 1: that which is true, the states, the
/// inputs, and the gates, each of which reads only variables before it. Each state has the literal that it takes in the next cycle.
#[derive(Drop)]
pub struct Net {
    states: Vec<State>,
    inputs: u32,
    gates: Vec<Gate>,
    asserted: Option<Lit>,
    assumed: Lit,
    covers: Vec<Lit>,
}

impl Model for Net {
    ghost use Rattle.bit_net.specs.Net.{IsNet, NetOf};

    ghost Value = { NetOf };

    ghost view = { λ n. record { states = n.states.items; inputs = n.inputs; gates = n.gates.items; asserted = n.asserted; assumed = n.assumed; covers = n.covers.items } };

    ghost invariant = { λ n. IsNet (record { states = n.states.items; inputs = n.inputs; gates = n.gates.items; asserted = n.asserted; assumed = n.assumed; covers = n.covers.items }) };
}

impl Net {
    /// A net of these states, this many inputs, and these gates. `asserted` is true where no assertion is broken, if there is an assertion,
    /// `assumed` where all assumptions hold, and each literal of `covers` where its cover statement is reached.
    pub fn new(
        states: Vec<State>,
        inputs: u32,
        gates: Vec<Gate>,
        asserted: Option<Lit>,
        assumed: Lit,
        covers: Vec<Lit>,
    ) -> Net
        requires { IsNet (record { states = states.items; inputs = inputs; gates = gates.items; asserted = asserted; assumed = assumed; covers = covers.items }) }
        ensures { result ≡ record { states = states.items; inputs = inputs; gates = gates.items; asserted = asserted; assumed = assumed; covers = covers.items } }
    {
        Net {
            states,
            inputs,
            gates,
            asserted,
            assumed,
            covers,
        }
    }

    /// What holds of every net.
    pub fn promise(&self)
        ensures { IsNet self.now }
    {
        let _ = &self.states;
    }

    /// The states, of which the first is variable 2.
    pub fn states(&self) -> &[State]
        ensures { result.now ≡ self.now.states }
    {
        self.states.as_slice()
    }

    /// How many inputs there are; their variables are those after the states'.
    pub fn inputs(&self) -> u32
        ensures { result ≡ self.now.inputs }
    {
        self.inputs
    }

    /// The gates; their variables are those after the inputs'.
    pub fn gates(&self) -> &[Gate]
        ensures { result.now ≡ self.now.gates }
    {
        self.gates.as_slice()
    }

    /// The literal that is true where no assertion is broken, if there is an assertion.
    pub fn asserted(&self) -> Option<Lit>
        ensures { result ≡ self.now.asserted }
    {
        self.asserted
    }

    /// The literal that is true where all assumptions hold.
    pub fn assumed(&self) -> Lit
        ensures { result ≡ self.now.assumed }
    {
        self.assumed
    }

    /// For each cover statement the literal that is true where it is reached.
    pub fn covers(&self) -> &[Lit]
        ensures { result.now ≡ self.now.covers }
    {
        self.covers.as_slice()
    }

    /// How many variables there are, from 1 to 2^27.
    pub fn vars(&self) -> u32
        ensures { result ≡ vars self.now }
    {
        1 + self.states.len() as u32 + self.inputs + self.gates.len() as u32
    }

    /// What a variable from 2 on is.
    pub fn node(&self, var: u32) -> Node
        requires low { 1 < var }
        requires high { var ≤ vars self.now }
        ensures { result ≡ node_at self.now var }
    {
        let states = self.states.len() as u32;
        if var < 2 + states {
            Node::State(self.states[(var - 2) as usize])
        } else if var < 2 + states + self.inputs {
            Node::Input
        } else {
            Node::Gate(self.gates[(var - 2 - states - self.inputs) as usize])
        }
    }

    /// The variables on which literals rest, by levels: at level 0 what the literals of `now` rest on within a cycle, and at each next one
    /// what the states of the level before take next, and at level 1 the literals of `before` too, with all that it rests on. Of as many
    /// cycles, the one that is `many` before the end needs the first `many` levels. No more of the net is walked than that.
    pub fn levels(
        &self,
        alloc: Global,
        now: &[Lit],
        before: &[Lit],
        count: u32,
    ) -> Result<Levels, AllocError>
        requires now { All (LitWithin (vars self.now)) now.now }
        requires before { All (LitWithin (vars self.now)) before.now }
        ensures count { IfOk result (λ l. length l.ends ≡ count + 1) }
        ensures levels { IfOk result (λ l. (many : ℕ) → many ≤ count → prefix_of l many ≡ levels self.now now.now before.now many) }
    {
        reach(self, alloc, now, before, count)
    }
}
