// What a fault names.

ghost use Rattle.std.specs.Prelude.{◌≡◌, ◌<◌, ℕ, All, IfOk, length, string_bytes};
ghost use Rattle.design_core.specs.Shape.{IsConnectOf, IsDesign};
ghost use Rattle.design_graph.specs.Items.{DrivesBit, IsItem};
ghost use Rattle.design_signals.specs.Chunks.{IsChunk, bits_of};
ghost use Rattle.design_check.specs.Faults.{NamesBit, NamesItem, bit_name, connect_name, highest_wire, wire_of};

use design_core::connect::Connect;
use design_core::design::Design;
use design_graph::item::Item;
use design_signals::chunk::Chunk;
use design_signals::sig_bit::SigBit;
use std::alloc::{AllocError, Global};

// The wire of a bit.
fn wire_of(bit: SigBit) -> Option<u32>
    ensures { result ≡ wire_of bit }
{
    match bit {
        SigBit::Wire(wire, _) => Some(wire),
        SigBit::Const(_) | SigBit::Free(_) => None,
    }
}

// The wire of the highest wire bit.
fn highest_wire(chunks: &[Chunk]) -> Option<u32>
    requires { All IsChunk chunks.now }
    ensures { result ≡ highest_wire (bits_of chunks.now) }
{
    let mut place = chunks.len();
    while place > 0 {
        place -= 1;
        if let Some(wire) = wire_of(chunks[place].first) {
            return Some(wire);
        }
    }
    None
}

// The wire by which a connect goes, or `-`.
fn connect_name<'a>(design: &'a Design, connect: &Connect) -> &'a str
    requires { IsConnectOf design.now.wires design.now.free connect.now }
    ensures { result.now ≡ connect_name design.now connect.now }
{
    let left = highest_wire(connect.left());
    let right = highest_wire(connect.right());
    match left.or(right) {
        Some(wire) => design.wires()[wire as usize].name(),
        None => "-",
    }
}

// The name of a cell or connect.
pub(crate) fn item_name(alloc: Global, design: &Design, item: Item) -> Result<String, AllocError>
    requires { IsItem design.now item }
    ensures { IfOk result (λ s. NamesItem design.now item (string_bytes s)) }
{
    match item {
        Item::Cell(place) => {
            let name = String::from_str(alloc, design.cells()[place].name())?;
            Ok(name)
        }
        Item::Connect(place) => {
            let connects = design.connects();
            let name = String::from_str(alloc, connect_name(design, &connects[place]))?;
            Ok(name)
        }
    }
}

// The name of a wire's bit.
fn bit_name(alloc: Global, design: &Design, wire: u32, bit: u32) -> Result<String, AllocError>
    requires { wire < length design.now.wires }
    ensures { IfOk result (λ s. string_bytes s ≡ bit_name design.now wire bit) }
{
    let name = design.wires()[wire as usize].name();
    format!(in alloc; "{name} [{bit}]")
}

// The name of a bit that the cell or connect drives.
pub(crate) fn driven_name(
    alloc: Global,
    design: &Design,
    item: Item,
    bit: SigBit,
) -> Result<String, AllocError>
    requires drives { (k : ℕ) × DrivesBit design.now item k bit }
    requires shape { IsDesign design.now }
    ensures { IfOk result (λ s. NamesBit design.now item bit (string_bytes s)) }
{
    match bit {
        SigBit::Wire(wire, bit) => bit_name(alloc, design, wire, bit),
        SigBit::Const(_) | SigBit::Free(_) => item_name(alloc, design, item),
    }
}
