// The inputs of a model by rows.

ghost use Rattle.std.specs.Prelude.{◌≡◌, ◌++◌, ◌&&◌, ◌<◌, ◌∷◌, [], ℕ, false, not, eqb, IfOk, OnOk, length, map, slice_index_or};
ghost use Rattle.std.specs.List.{concat, filter, list_any};
ghost use Rattle.btor_emit.specs.Marks.{has_mark};
ghost use Rattle.btor_emit.specs.Reads.{AreReadInputs};
ghost use Rattle.model_core.specs.Served.{IsModel};
ghost use Rattle.model_core.specs.Shape.{AreBelow};
ghost use Rattle.place_rows.specs.Rows.{AreRowsOf};

use crate::reads::{mark_all, read_places};
use model_core::model::WordModel;
use place_rows::Rows;
use std::alloc::{AllocError, Global};

// Whether a place of the row is marked.
fn has_mark(marks: &[bool], row: &[u32]) -> bool
    requires { AreBelow (length marks.now) row.now }
    ensures { result ≡ has_mark marks.now row.now }
{
    for place in row {
        if marks[*place as usize] {
            return true;
        }
    }
    false
}

// Adds the row, if it is one to be kept.
fn push_if(read: &mut Rows, row: &[u32], is_kept: bool) -> Result<(), AllocError>
    ensures { OnOk result (read.new ≡ read.old ++ filter (λ r. is_kept) (row.now ∷ [])) }
{
    if is_kept {
        read.push(row)?;
    }
    Ok(())
}

// Adds the rows of which a place is marked.
fn push_rows(read: &mut Rows, rows: &Rows, marks: &[bool]) -> Result<(), AllocError>
    requires { AreBelow (length marks.now) (concat rows.now) }
    ensures { OnOk result (read.new ≡ read.old ++ filter (has_mark marks.now) rows.now) }
{
    for k in 0..rows.len() {
        let row = rows.row(k);
        push_if(read, row, has_mark(marks, row))?;
    }
    Ok(())
}

// Adds a row for each of these places that is marked and stands in no row.
fn push_singles(
    read: &mut Rows,
    places: &[u32],
    marks: &[bool],
    taken: &[bool],
) -> Result<(), AllocError>
    requires marks { AreBelow (length marks.now) places.now }
    requires taken { AreBelow (length taken.now) places.now }
    ensures { OnOk result (read.new ≡ read.old ++ filter (has_mark marks.now) (map (λ p. p ∷ []) (filter (λ p. not (slice_index_or taken.now p false)) places.now))) }
{
    for place in places {
        let index = *place as usize;
        push_if(read, &[*place], marks[index] && !taken[index])?;
    }
    Ok(())
}

// Which places stand in a row.
fn taken_places(alloc: Global, model: &WordModel, rows: &Rows) -> Result<Vec<bool>, AllocError>
    requires { AreBelow model.now.size (concat rows.now) }
    ensures size { IfOk result (λ taken. length taken.items ≡ model.now.size) }
    ensures each { IfOk result (λ taken. (p : ℕ) → slice_index_or taken.items p false ≡ list_any (eqb p) (concat rows.now)) }
{
    let mut taken = vec![in alloc; false; model.size() as usize]?;
    let table = taken.as_mut_slice();
    mark_all(table, rows.places());
    Ok(taken)
}

/// The rows of the model's inputs of which a bit is read: first some of these rows, then each other input by itself.
pub fn read_rows(alloc: Global, model: &WordModel, rows: &Rows) -> Result<Rows, AllocError>
    requires { AreRowsOf model.now.inputs rows.now }
    ensures { IfOk result (λ read. AreReadInputs model.now rows.now read) }
{
    let _size = model.size();
    let marks = read_places(alloc, model)?;
    let taken = taken_places(alloc, model, rows)?;
    let mut read = Rows::new(alloc);
    push_rows(&mut read, rows, &marks)?;
    push_singles(&mut read, model.inputs(), &marks, &taken)?;
    Ok(read)
}
