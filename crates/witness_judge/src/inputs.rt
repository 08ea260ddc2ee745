// The bits of all inputs of a model, by those of the inputs that are read.

ghost use Rattle.std.specs.Prelude.{◌≡◌, ◌*◌, ◌++◌, ◌<◌, All, IfOk, OnOk, false, length, map, slice_index_or, ℕ};
ghost use Rattle.model_play.specs.Packed.{rows_of};
ghost use Rattle.witness_judge.specs.Choosing.{bit_for};

use btor_witness::Chosen;
use model_core::model::WordModel;
use model_play::choices::Choices;
use std::alloc::{AllocError, Global};

// Lays the bits of a row at their places, and 0 at all others.
fn lay(values: &mut [bool], read: &[u32], row: &[bool])
    requires inside { All (λ p. p < length values.old) read.now }
    requires width { length row.now ≡ length read.now }
    ensures size { length values.new ≡ length values.old }
    ensures bits { (p : ℕ) → p < length values.old → slice_index_or values.new p false ≡ bit_for read.now row.now p }
{
    values.fill(false);
    let mut left = read.len();
    while left > 0 {
        left -= 1;
        values[read[left] as usize] = row[left];
    }
}

// Puts what stands at these places after the others.
fn push_all(bits: &mut Vec<bool>, all: &[u32], values: &[bool]) -> Result<(), AllocError>
    requires { All (λ p. p < length values.now) all.now }
    ensures { OnOk result (bits.new.items ≡ bits.old.items ++ map (λ p. slice_index_or values.now p false) all.now) }
{
    for place in all {
        bits.push(values[*place as usize])?;
    }
    Ok(())
}

// Puts the bits of all inputs in a cycle after the others, where those that are read have the bits of a row. The values are room for them.
fn push_row(
    bits: &mut Vec<bool>,
    all: &[u32],
    read: &[u32],
    row: &[bool],
    values: &mut [bool],
) -> Result<(), AllocError>
    requires all { All (λ p. p < length values.old) all.now }
    requires read { All (λ p. p < length values.old) read.now }
    requires width { length row.now ≡ length read.now }
    ensures size { length values.new ≡ length values.old }
    ensures row { OnOk result (bits.new.items ≡ bits.old.items ++ map (bit_for read.now row.now) all.now) }
{
    lay(values, read, row);
    push_all(bits, all, values)
}

// So in each cycle, one after the other. There are this many places.
fn push_rows(
    alloc: Global,
    size: usize,
    all: &[u32],
    read: &[u32],
    rows: &[bool],
    cycles: usize,
) -> Result<Vec<bool>, AllocError>
    requires all { All (λ p. p < size) all.now }
    requires read { All (λ p. p < size) read.now }
    requires width { length rows.now ≡ cycles * length read.now }
    ensures len { IfOk result (λ bits. length bits.items ≡ cycles * length all.now) }
    ensures rows { IfOk result (λ bits. rows_of (length all.now) cycles bits.items ≡ map (λ row. map (bit_for read.now row) all.now) (rows_of (length read.now) cycles rows.now)) }
{
    let mut values = vec![in alloc; false; size]?;
    let mut bits = Vec::new(alloc);
    for cycle in 0..cycles {
        let first = cycle * read.len();
        let row = &rows[first..first + read.len()];
        push_row(&mut bits, all, read, row, &mut values)?;
    }
    Ok(bits)
}

/// What frames choose for a run of the model, of which these inputs are read.
pub(crate) fn choices(
    alloc: Global,
    model: &WordModel,
    read: &[u32],
    chosen: Chosen,
    cycles: usize,
) -> Result<Choices, AllocError>
    requires read { All (λ p. p < model.now.size) read.now }
    requires width { length chosen.inputs.items ≡ cycles * length read.now }
    ensures { IfOk result (λ c. c ≡ record { starts = chosen.starts.items; inputs = map (λ row. map (bit_for read.now row) model.now.inputs) (rows_of (length read.now) cycles chosen.inputs.items) }) }
{
    let size = model.size() as usize;
    let all = model.inputs();
    let bits = push_rows(alloc, size, all, read, chosen.inputs.as_slice(), cycles)?;
    Ok(Choices::new(chosen.starts, bits, all.len(), cycles))
}
