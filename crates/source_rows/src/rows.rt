// The outputs of `$anyseq` cells.

ghost use Rattle.std.specs.Prelude.{◌≡◌, ◌++◌, All, IfOk, OnOk, map};
ghost use Rattle.design_core.specs.Places.{place_of};
ghost use Rattle.design_core.specs.Shape.{IsCellOf, IsDeclared};
ghost use Rattle.design_meaning.specs.States.{input_bits};
ghost use Rattle.design_signals.specs.Chunks.{IsChunk, bits_of};
ghost use Rattle.place_rows.specs.Rows.{AreRowsOf};
ghost use Rattle.source_rows.specs.Sources.{source_row, source_rows};
ghost use Rattle.word_model.specs.Layout.{signal_places};

use design_check::flat::Flat;
use design_core::cell::Cell;
use design_core::design::Design;
use design_core::table::{Role, role_of};
use design_signals::bits::Bits;
use design_signals::chunk::Chunk;
use place_rows::Rows;
use std::alloc::{AllocError, Global};

// Makes the row that of a signal's places.
fn fill_row(design: &Design, signal: &[Chunk], row: &mut Vec<u32>) -> Result<(), AllocError>
    requires declared { All (IsDeclared design.now.wires design.now.free) (bits_of signal.now) }
    requires chunks { All IsChunk signal.now }
    ensures { OnOk result (row.new.items ≡ signal_places design.now (bits_of signal.now)) }
{
    row.clear();
    let mut left = Bits::new(signal);
    'bits: while let Some(bit) = left.next() {
        prove!(design.places() <= 1 << 22);
        row.push(design.place(bit) as u32)?;
    }
    Ok(())
}

// Adds the row of a cell, if it is an `$anyseq`.
fn push_source(
    design: &Design,
    cell: &Cell,
    row: &mut Vec<u32>,
    rows: &mut Rows,
) -> Result<(), AllocError>
    requires { IsCellOf design.now.wires design.now.free cell.now }
    ensures { OnOk result (rows.new ≡ rows.old ++ source_row design.now cell.now) }
{
    match role_of(cell.kind()) {
        Role::Source => {
            fill_row(design, cell.output(), row)?;
            rows.push(row)
        }
        Role::Combinational
        | Role::Register
        | Role::AsyncResetRegister
        | Role::Constant
        | Role::Initial
        | Role::Statement
        | Role::Unsupported => Ok(()),
    }
}

/// The places of the bits of each `$anyseq`, in file order, the lowest bit first. Each place is that of an input bit, and in one row.
pub fn source_rows(alloc: Global, flat: &Flat) -> Result<Rows, AllocError>
    ensures rows { IfOk result (λ rows. rows ≡ source_rows flat.now) }
    ensures inputs { IfOk result (λ rows. AreRowsOf (map (place_of flat.now) (input_bits flat.now)) rows) }
{
    let design = flat.design();
    let cells = design.cells();
    let mut row = Vec::new(alloc);
    let mut rows = Rows::new(alloc);
    for place in 0..cells.len() {
        push_source(design, &cells[place], &mut row, &mut rows)?;
    }
    Ok(rows)
}
