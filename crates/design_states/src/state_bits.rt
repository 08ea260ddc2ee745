//! The state bits of a design.

ghost use Rattle.std.specs.Prelude.{◌≡◌, ◌++◌, All, IfOk, OnOk, length, map};
ghost use Rattle.std.specs.List.{range_with_len};
ghost use Rattle.design_core.specs.Asked.{output_of};
ghost use Rattle.design_meaning.specs.States.{Kept as KeptOf, Signal as SignalOf, state_bits, state_of};
ghost use Rattle.design_signals.specs.Chunks.{IsChunk, bits_of};
ghost use Rattle.design_states.specs.Bits.{state_bit};

use design_core::cell::Cell;
use design_core::design::Design;
use design_core::table::{Role, role_of};
use design_signals::bits::{Bits, push_bits};
use design_signals::chunk::Chunk;
use design_signals::sig_bit::SigBit;
use std::alloc::{AllocError, Global};

/// A state bit: a bit of a signal, or bit `.1` of the row that the cell at place `.0` keeps, each counted from 0.
#[derive(Clone, Copy, Debug, PartialEq, Eq)]
pub enum StateBit {
    Signal(SigBit),
    Kept(usize, usize),
}

// Adds the bits of a signal.
fn push_signal(bits: &mut Vec<StateBit>, signal: &[Chunk]) -> Result<(), AllocError>
    requires { All IsChunk signal.now }
    ensures { OnOk result (map state_bit bits.new.items ≡ map state_bit bits.old.items ++ map (λ b. SignalOf b) (bits_of signal.now)) }
{
    let mut left = Bits::new(signal);
    'bits: while let Some(bit) = left.next() {
        bits.push(StateBit::Signal(bit))?;
    }
    Ok(())
}

// Adds the bits of the row that the cell at a place keeps.
fn push_kept(
    alloc: Global,
    bits: &mut Vec<StateBit>,
    place: usize,
    cell: &Cell,
) -> Result<(), AllocError>
    ensures { OnOk result (map state_bit bits.new.items ≡ map state_bit bits.old.items ++ map (λ k. KeptOf place k) (range_with_len 0 (length (output_of cell.now)))) }
{
    let mut output = Vec::new(alloc);
    push_bits(&mut output, cell.output())?;
    for bit in 0..output.len() {
        bits.push(StateBit::Kept(place, bit))?;
    }
    Ok(())
}

// Adds the state bits of the cell at a place.
fn push_cell(
    alloc: Global,
    bits: &mut Vec<StateBit>,
    place: usize,
    cell: &Cell,
) -> Result<(), AllocError>
    ensures { OnOk result (map state_bit bits.new.items ≡ map state_bit bits.old.items ++ state_of (place, cell.now)) }
{
    match role_of(cell.kind()) {
        Role::Register | Role::Constant | Role::Initial => push_signal(bits, cell.output()),
        Role::AsyncResetRegister => push_kept(alloc, bits, place, cell),
        Role::Combinational | Role::Source | Role::Statement | Role::Unsupported => Ok(()),
    }
}

/// All state bits, in file order: of registers, of stored rows, of `$anyconst` and of `$initstate`.
pub fn state_bits(alloc: Global, design: &Design) -> Result<Vec<StateBit>, AllocError>
    ensures { IfOk result (λ bits. map state_bit bits.items ≡ state_bits design.now) }
{
    let mut bits = Vec::new(alloc);
    let cells = design.cells();
    for place in 0..cells.len() {
        push_cell(alloc, &mut bits, place, &cells[place])?;
    }
    Ok(bits)
}
