// Gates that are not found again.

ghost use Rattle.std.specs.Prelude.{◌≡◌, ◌∷◌, [], ◌+◌, ◌<◌, ◌≤◌, true, IfOk, OnErr, OnOk};
ghost use Rattle.cnf_form.specs.Cnf.{LitWithin};
ghost use Rattle.cnf_form.specs.declared.literal.TheConstants.{MAX_VARS};
ghost use Rattle.gate_graph.specs.Circuit.{IsGates, MakesGate, MakesInput, Means};
ghost use Rattle.gate_graph.specs.Folding.{bit, constant, operands};
ghost use Rattle.gate_graph.specs.Kept.{OthersWithin, circuit_of, circuit_with, lit_of, with_input};

use crate::clauses::push_clauses;
use crate::gate::Gate;
use cnf_form::{Clauses, Formula, Lit, MAX_VARS};
use std::alloc::{AllocError, Global};
use std::marker::Model;

/// Inputs and gates over them, and the clauses that say what each gate is. Each call for a gate makes one: it is neither folded nor found
/// again, for one who has gates that are distinct.
#[derive(Drop)]
pub struct Circuit {
    // The variables so far, of which variable 1 is true.
    vars: u32,
    // The clauses so far, in a formula that has room for every variable.
    formula: Formula,
    inputs: Vec<u32>,
}

impl Model for Circuit {
    ghost use Rattle.gate_graph.specs.Circuit.{GatesOf};
    ghost use Rattle.gate_graph.specs.Kept.{circuit_of, IsCircuit};

    ghost Value = { GatesOf };

    ghost view = { λ c. circuit_of c.vars c.formula.clauses c.inputs.items };

    ghost invariant = { λ c. IsCircuit c.vars c.formula c.inputs.items };
}

impl Circuit {
    /// No input and no gate, but the variable that is true.
    pub fn new(alloc: Global) -> Result<Self, AllocError>
        ensures { IfOk result (λ c. c ≡ circuit_of 1 ((constant true ∷ []) ∷ []) []) }
    {
        let mut formula = Formula::new(alloc, MAX_VARS);
        formula.push(&[Lit::new(1, false)])?;
        Ok(Circuit {
            vars: 1,
            formula,
            inputs: Vec::new(alloc),
        })
    }

    /// The number of variables, which are numbered from 1.
    pub fn vars(&self) -> u32
        ensures { result ≡ self.now.formula.vars }
    {
        self.vars
    }

    /// The variables of the inputs, in the order in which they were made.
    pub fn inputs(&self) -> &[u32]
        ensures { result.now ≡ self.now.inputs }
    {
        self.inputs.as_slice()
    }

    /// The clauses so far.
    pub fn clauses(&self) -> Clauses<'_>
        ensures { result ≡ self.now.formula.clauses }
    {
        self.formula.clauses()
    }

    /// What holds of all gates.
    pub fn promise(&self)
        ensures { IsGates self.now }
    {
        let _ = &self.vars;
    }

    /// The literal that is true.
    pub fn truth(&self) -> Lit
        ensures literal { result ≡ constant true }
        ensures means { Means self.now result (λ _. true) }
        ensures within { LitWithin self.now.formula.vars result }
    {
        let _ = &self.vars;
        Lit::new(1, false)
    }

    /// A literal that may have either value: a new variable, and not its negation. If memory runs out, the circuit is as it was.
    pub fn input(&mut self) -> Result<Lit, AllocError>
        requires { self.old.formula.vars < MAX_VARS }
        ensures input { IfOk result (MakesInput self.old self.new) }
        ensures new { OnOk result (self.new ≡ with_input self.old) }
        ensures err { OnErr result (self.new ≡ self.old) }
    {
        let input = Lit::new(self.vars + 1, false);
        self.inputs.push(input.var())?;
        self.vars += 1;
        Ok(input)
    }

    /// The literal of one more gate, a new variable and not its negation. If memory runs out, the circuit is as it was.
    pub fn gate(&mut self, gate: &Gate) -> Result<Lit, AllocError>
        requires room { self.old.formula.vars < MAX_VARS }
        requires within { OthersWithin self.old.formula.vars (operands gate.now) }
        ensures literal { IfOk result (λ l. l ≡ lit_of (self.old.formula.vars + 1) true) }
        ensures gate { IfOk result (MakesGate self.old self.new (bit gate.now)) }
        ensures new { OnOk result (self.new ≡ circuit_with self.old gate.now) }
        ensures err { OnErr result (self.new ≡ self.old) }
    {
        let l = Lit::new(self.vars + 1, false);
        push_clauses(&mut self.formula, gate, l)?;
        self.vars += 1;
        Ok(l)
    }

    /// The formula of what has been built. A clause that is pushed after says what is to hold of the gates.
    pub fn finish(self) -> Formula
        ensures { result ≡ self.formula }
    {
        let Circuit { vars, formula, .. } = self;
        formula.with_vars(vars)
    }
}
