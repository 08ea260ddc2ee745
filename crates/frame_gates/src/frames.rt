//! Frames over literals that are there.

ghost use Rattle.std.specs.Prelude.{◌≡◌, ◌+◌, ◌*◌, ◌<◌, true, false, All, IfOk, OnOk, length, ℕ};
ghost use Rattle.cnf_form.specs.Cnf.{LitOf, LitWithin};
ghost use Rattle.gate_graph.specs.Circuit.{Means};
ghost use Rattle.std.specs.List.{sum_by};
ghost use Rattle.gate_rows.specs.Literals.{Builds, IsFull, MeansRow};
ghost use Rattle.model_core.specs.Meaning.{Assumed, Broken, Reached, next_states as states_after};
ghost use Rattle.model_core.specs.Served.{IsModel};
ghost use Rattle.model_core.specs.Shape.{states};
ghost use Rattle.frame_gates.specs.Costs.{next_gates, node_gates};
ghost use Rattle.frame_gates.specs.Frames.{IsFrameOver, IsTable, Tells, cycle_of};
ghost use Rattle.frame_gates.specs.Steps.{IsFilled, IsFirstTable};

use crate::nodes::run_nodes;
use crate::registers::next_states;
use crate::rows::{Words, push, write_row};
use crate::statements::{all_hold, speaks, statement_at};
use cnf_form::Lit;
use gate_graph::{GateFault, Gates};
use model_core::model::WordModel;
use std::alloc::{AllocError, Global};
use std::marker::Model;

/// The literals of a frame, one for each place of a model.
///
/// Of the frame after an error nothing is said; the gates say of their variables what they said before.
#[derive(Drop)]
pub struct Frames {
    table: Vec<Lit>,
    words: Words,
}

impl Model for Frames {
    ghost use Rattle.std.specs.Prelude.{List};
    ghost use Rattle.cnf_form.specs.Cnf.{LitOf};

    ghost Value = { List LitOf };

    ghost view = { λ f. f.table.items };
}

// The constant at a place: 0 at the place `low`, else 1.
fn constant_at(gates: &Gates, place: u32, low: u32) -> Lit
    ensures within { LitWithin gates.now.formula.vars result }
    ensures zero { place ≡ low → Means gates.now result (λ _. false) }
    ensures one { place ≡ low + 1 → Means gates.now result (λ _. true) }
{
    if place == low {
        gates.constant(false)
    } else {
        gates.constant(true)
    }
}

// A literal for each place: those of the constants are the constants.
fn new_table(alloc: Global, gates: &Gates, model: &WordModel) -> Result<Vec<Lit>, AllocError>
    ensures { IfOk result (λ table. IsFirstTable model.now gates.now table.items) }
{
    let low = model.zero();
    let mut table = Vec::new(alloc);
    for place in 0..model.size() {
        push(&mut table, constant_at(gates, place, low))?;
    }
    Ok(table)
}

// Gives the state bits and the inputs the literals of two rows, and the nodes' outputs what the nodes give.
fn fill_over(
    alloc: Global,
    gates: &mut Gates,
    model: &WordModel,
    bits: &[Lit],
    inputs: &[Lit],
    words: &mut Words,
    table: &mut [Lit],
) -> Result<(), GateFault>
    requires model { IsModel model.now }
    requires table { IsTable model.now gates.old table.old }
    requires bits { All (LitWithin gates.old.formula.vars) bits.now }
    requires inputs { All (LitWithin gates.old.formula.vars) inputs.now }
    requires as_many_bits { length bits.now ≡ length (states model.now) }
    requires as_many_inputs { length inputs.now ≡ length model.now.inputs }
    ensures filled { OnOk result (IsFilled model.now gates.new bits.now inputs.now table.old table.new) }
    ensures builds { Builds gates.old gates.new (sum_by node_gates model.now.nodes) }
    ensures too_many { result ≡ Err GateFault.TooMany → IsFull gates.old gates.new (sum_by node_gates model.now.nodes) }
{
    write_row(table, model.states(), bits);
    write_row(table, model.inputs(), inputs);
    run_nodes(alloc, gates, model, words, table)?;
    Ok(())
}

impl Frames {
    /// A frame over literals that are there: the state bits have those of `bits`, the inputs those of `inputs`, in the model's order.
    pub fn over(
        alloc: Global,
        gates: &mut Gates,
        model: &WordModel,
        bits: &[Lit],
        inputs: &[Lit],
    ) -> Result<Frames, GateFault>
        requires bits { All (LitWithin gates.old.formula.vars) bits.now }
        requires inputs { All (LitWithin gates.old.formula.vars) inputs.now }
        requires as_many_bits { length bits.now ≡ length (states model.now) }
        requires as_many_inputs { length inputs.now ≡ length model.now.inputs }
        ensures frame { IfOk result (IsFrameOver model.now gates.new bits.now inputs.now) }
        ensures builds { IfOk result (λ _. Builds gates.old gates.new (sum_by node_gates model.now.nodes)) }
        ensures too_many { result ≡ Err GateFault.TooMany → IsFull gates.old gates.new (sum_by node_gates model.now.nodes) }
    {
        let _ = model.size();
        let mut table = new_table(alloc, gates, model)?;
        let mut words = Words::new(alloc);
        let lits = table.as_mut_slice();
        fill_over(alloc, gates, model, bits, inputs, &mut words, lits)?;
        Ok(Frames { table, words })
    }

    /// The literals that the state bits have in the cycle after the frame at hand, which stays at hand.
    pub fn next_states(
        &mut self,
        alloc: Global,
        gates: &mut Gates,
        model: &WordModel,
    ) -> Result<Vec<Lit>, GateFault>
        requires table { IsTable model.now gates.old self.old }
        ensures row { IfOk result (λ row. MeansRow gates.new (λ x. states_after model.now (cycle_of self.old x)) row.items) }
        ensures same { self.new ≡ self.old }
        ensures builds { Builds gates.old gates.new (next_gates model.now) }
        ensures too_many { result ≡ Err GateFault.TooMany → IsFull gates.old gates.new (next_gates model.now) }
    {
        let _ = model.size();
        let held = self.table.as_slice();
        next_states(alloc, gates, model, &mut self.words, held)
    }

    /// The literal that each assumption holds in the frame at hand.
    pub fn assumed(&self, gates: &mut Gates, model: &WordModel) -> Result<Lit, GateFault>
        requires table { IsTable model.now gates.old self.now }
        ensures assumed { IfOk result (Tells gates.new (λ x. Assumed model.now (cycle_of self.now x))) }
        ensures builds { Builds gates.old gates.new (2 * length model.now.assumes) }
        ensures too_many { result ≡ Err GateFault.TooMany → IsFull gates.old gates.new (2 * length model.now.assumes) }
    {
        let _ = model.size();
        let lits = self.table.as_slice();
        let statements = model.assumes();
        let all = all_hold(gates, lits, statements)?;
        Ok(all)
    }

    /// The literal that some assertion is broken in the frame at hand.
    pub fn broken(&self, gates: &mut Gates, model: &WordModel) -> Result<Lit, GateFault>
        requires table { IsTable model.now gates.old self.now }
        ensures broken { IfOk result (Tells gates.new (λ x. (k : ℕ) × Broken model.now (cycle_of self.now x) k)) }
        ensures builds { Builds gates.old gates.new (2 * length model.now.asserts) }
        ensures too_many { result ≡ Err GateFault.TooMany → IsFull gates.old gates.new (2 * length model.now.asserts) }
    {
        let _ = model.size();
        let lits = self.table.as_slice();
        let statements = model.asserts();
        let all = all_hold(gates, lits, statements)?;
        Ok(all.negate())
    }

    /// The literal that cover statement `k`, counted from 0, is reached in the frame at hand.
    pub fn reached(&self, gates: &mut Gates, model: &WordModel, k: usize) -> Result<Lit, GateFault>
        requires table { IsTable model.now gates.old self.now }
        requires k { k < length model.now.covers }
        ensures reached { IfOk result (Tells gates.new (λ x. Reached model.now (cycle_of self.now x) k)) }
        ensures builds { Builds gates.old gates.new 1 }
        ensures too_many { result ≡ Err GateFault.TooMany → IsFull gates.old gates.new 1 }
    {
        let _ = model.size();
        let lits = self.table.as_slice();
        let statements = model.covers();
        let statement = statement_at(statements, k);
        let reached = speaks(gates, lits, statement, true)?;
        Ok(reached)
    }
}
