// Inputs as wide as rows of places.

ghost use Rattle.std.specs.Prelude.{◌≡◌, [], ◌∷◌, All, OnOk, IfOk, length};
ghost use Rattle.std.specs.List.{concat};
ghost use Rattle.btor_core.specs.Fits.{IsBtor, IsWidth};
ghost use Rattle.btor_core.specs.declared.line.Node.TheVariants.{Input};
ghost use Rattle.btor_emit.specs.Emitting.{AreInputs, IsOpened};
ghost use Rattle.btor_emit.specs.Table.{AreIn, AreSeats};
ghost use Rattle.model_core.specs.Shape.{IsDistinct};

use crate::table::{Seat, give};
use btor_core::draft::{Draft, DraftFault};
use btor_core::line::{Node, Word};
use place_rows::Rows;

// An input.
fn input(draft: &mut Draft, width: u32) -> Result<Word, DraftFault>
    requires { IsWidth width }
    ensures { IfOk result (λ a. IsOpened draft.old draft.new a width Input []) }
{
    draft.promise();
    let word = draft.push(width, Node::Input)?;
    draft.promise();
    Ok(word)
}

// Adds the input of a row of places.
fn push_input(draft: &mut Draft, table: &mut [Seat], row: &[u32]) -> Result<(), DraftFault>
    requires inside { AreIn table.old row.now }
    requires distinct { IsDistinct row.now }
    requires width { IsWidth (length row.now) }
    requires btor { IsBtor draft.old }
    requires seats { AreSeats draft.old table.old }
    ensures { OnOk result (AreInputs draft.old draft.new table.old table.new (row.now ∷ [])) }
{
    let word = input(draft, row.len() as u32)?;
    give(table, row, word);
    Ok(())
}

/// An input for each row of places.
pub fn push_inputs(draft: &mut Draft, table: &mut [Seat], rows: &Rows) -> Result<(), DraftFault>
    requires inside { AreIn table.old (concat rows.now) }
    requires distinct { IsDistinct (concat rows.now) }
    requires widths { All (λ row. IsWidth (length row)) rows.now }
    requires btor { IsBtor draft.old }
    requires seats { AreSeats draft.old table.old }
    ensures { OnOk result (AreInputs draft.old draft.new table.old table.new rows.now) }
{
    for k in 0..rows.len() {
        push_input(draft, table, rows.row(k))?;
    }
    Ok(())
}
