// Inputs that are made one after the other.

ghost use Rattle.std.specs.Prelude.{◌≡◌, ◌++◌, ◌∷◌, [], IfOk, OnOk};
ghost use Rattle.gate_rows.specs.Literals.{IsFull};
ghost use Rattle.frame_net.specs.Making.{IsFreeRow};

use cnf_form::Lit;
use gate_graph::{GateFault, Gates};
use std::alloc::{AllocError, Global};

// Puts a literal after the others.
pub fn push(row: &mut Vec<Lit>, lit: Lit) -> Result<(), AllocError>
    ensures { OnOk result (row.new.items ≡ row.old.items ++ lit ∷ []) }
{
    row.push(lit)?;
    Ok(())
}

// One more input.
fn free_bit(gates: &mut Gates) -> Result<Lit, GateFault>
    ensures bit { IfOk result (λ l. IsFreeRow gates.old gates.new 1 (l ∷ [])) }
    ensures too_many { result ≡ Err GateFault.TooMany → IsFull gates.old gates.new 1 }
{
    let lit = gates.input()?;
    Ok(lit)
}

// This many inputs more.
pub fn free_row(alloc: Global, gates: &mut Gates, count: usize) -> Result<Vec<Lit>, GateFault>
    ensures row { IfOk result (λ row. IsFreeRow gates.old gates.new count row.items) }
    ensures too_many { result ≡ Err GateFault.TooMany → IsFull gates.old gates.new count }
{
    let mut row = Vec::new(alloc);
    for _ in 0..count {
        let lit = free_bit(gates)?;
        push(&mut row, lit)?;
    }
    Ok(row)
}
