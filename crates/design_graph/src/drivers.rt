//! The bits that cells and connects drive, in file order, and the first that is driven wrongly.

ghost use Rattle.std.specs.Prelude.{◌≡◌, ◌⊎◌, ◌↔◌, ◌+◌, ◌<◌, ◌≤◌, ℕ, All, Some, IsTrue, IfOk, IfSome, IfNone, MatchBool, MatchOption, length, replicate, slice_get, false};
ghost use Rattle.design_core.specs.Places.{places};
ghost use Rattle.design_core.specs.Shape.{IsDeclared};
ghost use Rattle.design_signals.specs.Chunks.{IsChunk, bits_of};
ghost use Rattle.design_signals.specs.declared.sig_bit.SigBit.{SigBit};
ghost use Rattle.design_graph.specs.Edges.{IsPlaceIn, Marks};
ghost use Rattle.design_graph.specs.Items.{DrivesBit, IsBadAt, IsCut, IsDrivenOnce, IsFirstBad, IsFirstWrong, IsInput, IsItem, IsNext, IsNoWire, IsPassed};
ghost use Rattle.design_graph.specs.declared.item.Item.{Item};

use crate::item::Item;
use design_core::design::Design;
use design_signals::bits::Bits;
use design_signals::chunk::Chunk;
use design_signals::sig_bit::SigBit;
use std::alloc::{AllocError, Global};

/// `count` times false.
pub fn no_marks(alloc: Global, count: usize) -> Result<Vec<bool>, AllocError>
    ensures { IfOk result (λ v. v.items ≡ replicate count false) }
{
    Ok(vec![in alloc; false; count]?)
}

/// The item that comes next in the file after this many cells and connects.
pub fn next_item(design: &Design, cells: usize, connects: usize) -> Option<Item>
    requires { IsCut design.now cells connects }
    ensures some { IfSome result (λ e. IsNext design.now cells connects e) }
    ensures none { IfNone result ((e : Item) → IsItem design.now e → IsPassed cells connects e) }
{
    let rest = design.connects();
    if connects < rest.len() && rest[connects].cells_before() as usize <= cells {
        return Some(Item::Connect(connects));
    }
    if cells < design.cells().len() {
        return Some(Item::Cell(cells));
    }
    None
}

/// The bits that a cell or a connect drives.
pub fn driven_by(design: &Design, item: Item) -> &[Chunk]
    requires { IsItem design.now item }
    ensures bits { (k : ℕ) (a : SigBit) → (slice_get (bits_of result.now) k ≡ Some a) ↔ DrivesBit design.now item k a }
    ensures each { All IsChunk result.now }
{
    match item {
        Item::Cell(place) => design.cells()[place].output(),
        Item::Connect(place) => design.connects()[place].left(),
    }
}

// Whether a cell or a connect may drive the bit at all.
fn is_drivable(design: &Design, bit: SigBit) -> bool
    requires { IsDeclared design.now.wires design.now.free bit }
    ensures { MatchBool result ((IsInput design.now bit ⊎ IsNoWire bit) → ⊥) (IsInput design.now bit ⊎ IsNoWire bit) }
{
    match bit {
        SigBit::Wire(wire, _) => !design.wires()[wire as usize].input(),
        SigBit::Const(_) | SigBit::Free(_) => false,
    }
}

// Takes the places of these bits, up to the first that must not be driven.
fn take_bits(design: &Design, bits: &[Chunk], taken: &mut [bool]) -> Option<SigBit>
    requires declared { All (IsDeclared design.now.wires design.now.free) (bits_of bits.now) }
    requires chunks { All IsChunk bits.now }
    requires size { length taken.old ≡ places design.now }
    ensures none { IfNone result (((k : ℕ) → IsBadAt design.now taken.old (bits_of bits.now) k → ⊥) × Marks taken.old (IsPlaceIn design.now (bits_of bits.now)) taken.new) }
    ensures some { IfSome result (IsFirstBad design.now taken.old (bits_of bits.now)) }
    ensures size { length taken.new ≡ length taken.old }
{
    let mut left = Bits::new(bits);
    'bits: while let Some(bit) = left.next() {
        let place = design.place(bit);
        if taken[place] || !is_drivable(design, bit) {
            return Some(bit);
        }
        taken[place] = true;
    }
    None
}

/// The first bit in file order that is driven wrongly, and the cell or connect that drives it there.
pub fn first_driven_wrongly(
    alloc: Global,
    design: &Design,
) -> Result<Option<(Item, SigBit)>, AllocError>
    ensures { IfOk result (λ r. MatchOption r (IsDrivenOnce design.now) (λ p. IsFirstWrong design.now p.0 p.1)) }
{
    let mut table = no_marks(alloc, design.places())?;
    let taken = table.as_mut_slice();
    let mut cells = 0;
    let mut connects = 0;
    'items: while let Some(item) = next_item(design, cells, connects) {
        if let Some(bit) = take_bits(design, driven_by(design, item), taken) {
            return Ok(Some((item, bit)));
        }
        match item {
            Item::Cell(place) => cells = place + 1,
            Item::Connect(place) => connects = place + 1,
        }
    }
    Ok(None)
}
