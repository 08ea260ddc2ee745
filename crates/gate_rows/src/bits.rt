// Operations bit by bit.

ghost use Rattle.std.specs.Prelude.{◌≡◌, ◌+◌, ◌++◌, [], ◌∷◌, All, length, IfOk, OnOk};
ghost use Rattle.cnf_form.specs.Cnf.{Assignment, LitWithin, lit_in};
ghost use Rattle.cell_table.specs.Cells.{bitwise};
ghost use Rattle.gate_graph.specs.Circuit.{MakesGate};
ghost use Rattle.gate_graph.specs.Folding.{bit, operands};
ghost use Rattle.gate_graph.specs.Kept.{OthersWithin};
ghost use Rattle.gate_rows.specs.Literals.{Builds, IsFull, MeansBit, MeansRow, row_of};
ghost use Rattle.gate_rows.specs.Sums.{chained, op_bit, op_lits};

use cnf_form::Lit;
use gate_graph::{Gate, GateFault, Gates};
use std::alloc::{AllocError, Global};

/// What is made of two bits.
#[derive(Clone, Copy, Debug, PartialEq, Eq)]
pub enum BitOp {
    And,
    Or,
    Xor,
    Xnor,
    /// The second bit where this literal is true, else the first.
    Mux(Lit),
}

// One gate. After an `Err` nothing was made.
pub(crate) fn make(gates: &mut Gates, gate: Gate) -> Result<Lit, GateFault>
    requires { OthersWithin gates.old.formula.vars (operands gate) }
    ensures gate { IfOk result (MakesGate gates.old gates.new (bit gate)) }
    ensures builds { Builds gates.old gates.new 1 }
    ensures too_many { result ≡ Err GateFault.TooMany → IsFull gates.old gates.new 1 }
{
    gates.gate(gate)
}

// One bit of an operation.
fn one(gates: &mut Gates, op: &BitOp, a: Lit, b: Lit) -> Result<Lit, GateFault>
    requires op { All (LitWithin gates.old.formula.vars) (op_lits op.now) }
    requires a { LitWithin gates.old.formula.vars a }
    requires b { LitWithin gates.old.formula.vars b }
    ensures gate { IfOk result (MakesGate gates.old gates.new (λ x. op_bit op.now x (lit_in x a) (lit_in x b))) }
    ensures builds { Builds gates.old gates.new 1 }
    ensures too_many { result ≡ Err GateFault.TooMany → IsFull gates.old gates.new 1 }
{
    match *op {
        BitOp::And => make(gates, Gate::And(a, b)),
        BitOp::Or => {
            let neither = make(gates, Gate::And(a.negate(), b.negate()))?;
            Ok(neither.negate())
        }
        BitOp::Xor => make(gates, Gate::Xor(a, b)),
        BitOp::Xnor => {
            let differ = make(gates, Gate::Xor(a, b))?;
            Ok(differ.negate())
        }
        BitOp::Mux(s) => make(gates, Gate::Mux(s, a, b)),
    }
}

/// The operation on the bits at each place of two rows of one length. After an `Err` some gates may have been made.
pub fn each(
    alloc: Global,
    gates: &mut Gates,
    op: &BitOp,
    a: &[Lit],
    b: &[Lit],
) -> Result<Vec<Lit>, GateFault>
    requires op { All (LitWithin gates.old.formula.vars) (op_lits op.now) }
    requires a { All (LitWithin gates.old.formula.vars) a.now }
    requires b { All (LitWithin gates.old.formula.vars) b.now }
    requires as_many { length a.now ≡ length b.now }
    ensures row { let row = λ (x : Assignment). bitwise (op_bit op.now x) (row_of x a.now) (row_of x b.now) in
        IfOk result (λ word. MeansRow gates.new row word.items) }
    ensures builds { Builds gates.old gates.new (length a.now) }
    ensures too_many { result ≡ Err GateFault.TooMany → IsFull gates.old gates.new (length a.now) }
{
    let mut word = Vec::new(alloc);
    for i in 0..a.len() {
        let p = a[i];
        let q = b[i];
        let lit = one(gates, op, p, q)?;
        push(&mut word, lit)?;
    }
    Ok(word)
}

/// The operation on `start` and one bit of the row after the other. After an `Err` some gates may have been made.
pub fn chain(gates: &mut Gates, op: &BitOp, start: Lit, a: &[Lit]) -> Result<Lit, GateFault>
    requires op { All (LitWithin gates.old.formula.vars) (op_lits op.now) }
    requires start { LitWithin gates.old.formula.vars start }
    requires a { All (LitWithin gates.old.formula.vars) a.now }
    ensures bit { let bit = λ (x : Assignment). chained (op_bit op.now x) (lit_in x start) (row_of x a.now) in
        IfOk result (MeansBit gates.new bit) }
    ensures builds { Builds gates.old gates.new (length a.now) }
    ensures too_many { result ≡ Err GateFault.TooMany → IsFull gates.old gates.new (length a.now) }
{
    let mut lit = start;
    for i in 0..a.len() {
        let p = a[i];
        lit = one(gates, op, lit, p)?;
    }
    Ok(lit)
}

/// Puts a literal after the others.
pub fn push(word: &mut Vec<Lit>, lit: Lit) -> Result<(), AllocError>
    ensures { OnOk result (word.new.items ≡ word.old.items ++ lit ∷ []) }
{
    word.push(lit)?;
    Ok(())
}
