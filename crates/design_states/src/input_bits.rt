//! The input bits of a design.

ghost use Rattle.std.specs.Prelude.{◌≡◌, ◌↔◌, ◌+◌, ◌<◌, ℕ, ◌++◌, All, IfOk, OnOk, Some, length, map, slice_get};
ghost use Rattle.std.specs.List.{range_with_len};
ghost use Rattle.design_core.specs.Asked.{output_of};
ghost use Rattle.design_core.specs.Places.{places};
ghost use Rattle.design_core.specs.Shape.{IsDeclared, IsDesign, WireOf};
ghost use Rattle.design_core.specs.Table.{role_of};
ghost use Rattle.design_graph.specs.Edges.{IsPlaceIn, Marks};
ghost use Rattle.design_meaning.specs.States.{input_bits, open_bits};
ghost use Rattle.design_signals.specs.Chunks.{IsChunk, bits_of};
ghost use Rattle.design_states.specs.Bits.{IsCellGiven, IsConnectGiven, IsGivenMarks, is_given};

use cell_table::kind::Kind;
use design_core::design::Design;
use design_core::table::{Role, role_of};
use design_graph::drivers::no_marks;
use design_signals::bits::Bits;
use design_signals::chunk::Chunk;
use design_signals::sig_bit::SigBit;
use std::alloc::{AllocError, Global};

// Whether a cell of this type gives its output a value.
fn is_given(kind: Kind) -> bool
    ensures { result ≡ is_given (role_of kind) }
{
    match role_of(kind) {
        Role::Combinational
        | Role::Register
        | Role::AsyncResetRegister
        | Role::Constant
        | Role::Initial => true,
        Role::Source | Role::Statement | Role::Unsupported => false,
    }
}

// Marks the places of these bits.
fn mark_bits(design: &Design, bits: &[Chunk], marks: &mut [bool])
    requires declared { All (IsDeclared design.now.wires design.now.free) (bits_of bits.now) }
    requires chunks { All IsChunk bits.now }
    requires size { length marks.old ≡ places design.now }
    ensures { Marks marks.old (IsPlaceIn design.now (bits_of bits.now)) marks.new }
{
    let mut left = Bits::new(bits);
    'bits: while let Some(bit) = left.next() {
        marks[design.place(bit)] = true;
    }
}

// Marks the bits to which cells give a value.
fn mark_cells(design: &Design, marks: &mut [bool])
    requires { length marks.old ≡ places design.now }
    ensures { Marks marks.old (IsCellGiven design.now) marks.new }
{
    let cells = design.cells();
    for place in 0..cells.len() {
        let cell = &cells[place];
        if is_given(cell.kind()) {
            mark_bits(design, cell.output(), marks);
        }
    }
}

// Marks the bits to which connects give a value.
fn mark_connects(design: &Design, marks: &mut [bool])
    requires { length marks.old ≡ places design.now }
    ensures { Marks marks.old (IsConnectGiven design.now) marks.new }
{
    let connects = design.connects();
    for place in 0..connects.len() {
        mark_bits(design, connects[place].left(), marks);
    }
}

// Which bits are given a value, by their places.
fn given_marks(alloc: Global, design: &Design) -> Result<Vec<bool>, AllocError>
    requires { IsDesign design.now }
    ensures { IfOk result (λ marks. IsGivenMarks design.now marks.items) }
{
    let mut marks = no_marks(alloc, design.places())?;
    let table = marks.as_mut_slice();
    mark_cells(design, table);
    mark_connects(design, table);
    Ok(marks)
}

// Adds the bits of a wire that nothing gives a value.
fn push_open(
    design: &Design,
    marks: &[bool],
    wire: usize,
    bits: &mut Vec<SigBit>,
) -> Result<(), AllocError>
    requires marks { IsGivenMarks design.now marks.now }
    requires wire { wire < length design.now.wires }
    ensures { OnOk result ((x : WireOf) → slice_get design.now.wires wire ≡ Some x → bits.new.items ≡ bits.old.items ++ open_bits design.now (wire, x)) }
{
    let wires = design.wires();
    let number = wire as u32;
    let first = design.offset(number) as usize;
    let width = wires[wire].width();
    for bit in 0..width {
        if !marks[first + bit as usize] {
            bits.push(SigBit::Wire(number, bit))?;
        }
    }
    Ok(())
}

// Adds all free bits.
fn push_free(count: u32, bits: &mut Vec<SigBit>) -> Result<(), AllocError>
    ensures { OnOk result (bits.new.items ≡ bits.old.items ++ map (λ n. SigBit.Free n) (range_with_len 0 count)) }
{
    for number in 0..count {
        bits.push(SigBit::Free(number))?;
    }
    Ok(())
}

/// All input bits, in file order: the wires' bits that nothing gives a value, the outputs of `$anyseq` among them, and the free bits by
/// their numbers.
pub fn input_bits(alloc: Global, design: &Design) -> Result<Vec<SigBit>, AllocError>
    ensures { IfOk result (λ bits. bits.items ≡ input_bits design.now) }
{
    let wires = design.wires();
    let marks = given_marks(alloc, design)?;
    let mut bits = Vec::new(alloc);
    for wire in 0..wires.len() {
        push_open(design, &marks, wire, &mut bits)?;
    }
    push_free(design.free(), &mut bits)?;
    Ok(bits)
}
