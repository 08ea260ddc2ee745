// Rows of literals read from a table, and written to it.

ghost use Rattle.std.specs.Prelude.{◌≡◌, ◌<◌, ◌++◌, ◌∷◌, [], All, IfOk, OnOk, length, ℕ};
ghost use Rattle.model_core.specs.Shape.{IsDistinct};
ghost use Rattle.frame_gates.specs.Frames.{lits_at};
ghost use Rattle.frame_gates.specs.Rows.{IsWritten};

use cnf_form::Lit;
use std::alloc::{AllocError, Global};

// The rows at a node's operands, or at a register's. They are lent to node after node, so that none allocates its own.
#[derive(Drop)]
pub struct Words {
    pub a: Vec<Lit>,
    pub b: Vec<Lit>,
    pub s: Vec<Lit>,
}

impl Words {
    pub fn new(alloc: Global) -> Words {
        Words {
            a: Vec::new(alloc),
            b: Vec::new(alloc),
            s: Vec::new(alloc),
        }
    }
}

// Puts a literal after the others.
pub fn push(row: &mut Vec<Lit>, lit: Lit) -> Result<(), AllocError>
    ensures { OnOk result (row.new.items ≡ row.old.items ++ lit ∷ []) }
{
    row.push(lit)?;
    Ok(())
}

// Makes the row that of the literals at these places.
pub fn read_row(row: &mut Vec<Lit>, table: &[Lit], places: &[u32]) -> Result<(), AllocError>
    requires { All (λ p. p < length table.now) places.now }
    ensures { OnOk result (row.new.items ≡ lits_at table.now places.now) }
{
    row.clear();
    for place in places {
        push(row, table[*place as usize])?;
    }
    Ok(())
}

// Gives these places the literals of a row.
pub fn write_row(table: &mut [Lit], places: &[u32], row: &[Lit])
    requires below { All (λ p. p < length table.old) places.now }
    requires distinct { IsDistinct places.now }
    requires as_many { length row.now ≡ length places.now }
    ensures { IsWritten places.now row.now (length places.now) table.old table.new }
{
    for (k, place) in places.iter().enumerate() {
        table[*place as usize] = row[k];
    }
}
