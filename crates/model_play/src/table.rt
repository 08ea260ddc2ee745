// Tables with a bit at each place.

ghost use Rattle.std.specs.Prelude.{◌≡◌, ℕ, Contains, IfOk, false, length, replicate};
ghost use Rattle.model_core.specs.Meaning.{row_at};
ghost use Rattle.model_core.specs.Shape.{AreBelow, IsDistinct};
ghost use Rattle.model_play.specs.Playing.{cycle_of};

use std::alloc::{AllocError, Global};

// `count` times false.
pub fn zeros(alloc: Global, count: usize) -> Result<Vec<bool>, AllocError>
    ensures bits { IfOk result (λ bits. bits.items ≡ replicate count false) }
    ensures size { IfOk result (λ bits. length bits.items ≡ count) }
{
    let mut bits = Vec::new(alloc);
    bits.resize(count, false)?;
    Ok(bits)
}

// Puts what these places have into a row.
pub fn read_row(table: &[bool], places: &[u32], row: &mut [bool])
    requires below { AreBelow (length table.now) places.now }
    requires as_many { length row.old ≡ length places.now }
    ensures { row.new ≡ row_at (cycle_of table.now) places.now }
{
    for (k, place) in places.iter().enumerate() {
        row[k] = table[*place as usize];
    }
}

// Gives these places the bits of a row.
pub fn write_row(table: &mut [bool], places: &[u32], row: &[bool])
    requires below { AreBelow (length table.old) places.now }
    requires distinct { IsDistinct places.now }
    requires as_many { length row.now ≡ length places.now }
    ensures row { row_at (cycle_of table.new) places.now ≡ row.now }
    ensures others { (p : ℕ) → (Contains places.now p → ⊥) → cycle_of table.new p ≡ cycle_of table.old p }
{
    for (k, place) in places.iter().enumerate() {
        table[*place as usize] = row[k];
    }
}
