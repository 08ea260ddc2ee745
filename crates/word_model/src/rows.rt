// Rows of places.

ghost use Rattle.std.specs.Prelude.{◌≡◌, ◌+◌, ◌<◌, ◌≤◌, ◌^◌, ℕ, [], ◌∷◌, ◌++◌, All, OnOk, Some, length, map, slice_get, true};
ghost use Rattle.std.specs.List.{range_with_len};
ghost use Rattle.design_check.specs.Faults.{flag};
ghost use Rattle.design_core.specs.Asked.{output_of};
ghost use Rattle.design_core.specs.Places.{place_of, places};
ghost use Rattle.design_core.specs.Ports.{digits_at, signal_at};
ghost use Rattle.design_core.specs.Shape.{IsCellOf, IsDeclared, IsDesign, IsNumbered};
ghost use Rattle.design_signals.specs.Chunks.{IsChunk, bits_of};
ghost use Rattle.word_model.specs.Layout.{bit_place, digit_place, parameter_places, signal_places, zero_place};
ghost use Rattle.word_model.specs.Served.{IsPlain, IsServed};

use design_core::cell::Cell;
use design_core::design::Design;
use design_core::digit::{Constant, Digit};
use design_core::names::{ParameterName, PortName};
use design_signals::bits::Bits;
use design_signals::chunk::Chunk;
use design_signals::sig_bit::SigBit;
use std::alloc::AllocError;

/// Makes the row that of a signal's places.
pub(crate) fn fill_signal(
    design: &Design,
    signal: &[Chunk],
    row: &mut Vec<u32>,
) -> Result<(), AllocError>
    requires declared { All (IsDeclared design.now.wires design.now.free) (bits_of signal.now) }
    requires chunks { All IsChunk signal.now }
    ensures { OnOk result (row.new.items ≡ signal_places design.now (bits_of signal.now)) }
{
    row.clear();
    let mut left = Bits::new(signal);
    'bits: while let Some(bit) = left.next() {
        row.push(place(design, bit))?;
    }
    Ok(())
}

/// The place of a bit.
pub(crate) fn place(design: &Design, bit: SigBit) -> u32
    requires { IsDeclared design.now.wires design.now.free bit }
    ensures { result ≡ place_of design.now bit }
{
    prove!(design.places() <= 1 << 22);
    design.place(bit) as u32
}

/// The place of a signal of one bit.
pub(crate) fn bit_place(design: &Design, signal: &[Chunk]) -> u32
    requires declared { All (IsDeclared design.now.wires design.now.free) (bits_of signal.now) }
    requires chunks { All IsChunk signal.now }
    ensures { result ≡ bit_place design.now (bits_of signal.now) }
{
    match Bits::new(signal).next() {
        Some(bit) => place(design, bit),
        None => zero(design),
    }
}

/// The place of the constant 0.
pub(crate) fn zero(design: &Design) -> u32
    ensures zero { result ≡ zero_place design.now }
    ensures few { result ≤ 2 ^ 21 }
{
    design.bits() + design.free()
}

fn digit_place(design: &Design, digit: Digit) -> u32
    requires { IsNumbered design.now.free digit }
    ensures { result ≡ digit_place design.now digit }
{
    match digit {
        Digit::Const(value) => place(design, SigBit::Const(value)),
        Digit::Free(number) => place(design, SigBit::Free(number)),
        Digit::Marker => place(design, SigBit::Const(false)),
    }
}

fn fill_digits(design: &Design, constant: &Constant, row: &mut Vec<u32>) -> Result<(), AllocError>
    requires { All (IsNumbered design.now.free) constant.now }
    ensures { OnOk result (row.new.items ≡ map (digit_place design.now) constant.now) }
{
    row.clear();
    for place in 0..constant.len() {
        row.push(digit_place(design, constant.digit(place)))?;
    }
    Ok(())
}

/// Makes the row that of the places of a parameter's digits.
pub(crate) fn fill_parameter(
    design: &Design,
    cell: &Cell,
    name: ParameterName,
    row: &mut Vec<u32>,
) -> Result<(), AllocError>
    requires { IsCellOf design.now.wires design.now.free cell.now }
    ensures { OnOk result (row.new.items ≡ parameter_places design.now cell.now name) }
{
    match cell.parameter(name) {
        Some(constant) => fill_digits(design, constant, row),
        None => {
            row.clear();
            Ok(())
        }
    }
}

/// Makes the row that of this many places from the first on.
pub(crate) fn fill_range(first: u32, count: usize, row: &mut Vec<u32>) -> Result<(), AllocError>
    requires { first + count < 2 ^ 32 }
    ensures { OnOk result (row.new.items ≡ map (λ k. first + k) (range_with_len 0 count)) }
{
    row.clear();
    for place in 0..count {
        row.push(first + place as u32)?;
    }
    Ok(())
}

/// Makes the row that of the places of a port's bits.
pub(crate) fn fill_port(
    design: &Design,
    cell: &Cell,
    name: PortName,
    row: &mut Vec<u32>,
) -> Result<(), AllocError>
    requires { IsCellOf design.now.wires design.now.free cell.now }
    ensures { OnOk result (row.new.items ≡ signal_places design.now (signal_at cell.now.ports name)) }
{
    fill_signal(design, cell.signal(name), row)
}

/// Makes the row that of the places of the bits that a cell drives.
pub(crate) fn fill_output(
    design: &Design,
    cell: &Cell,
    row: &mut Vec<u32>,
) -> Result<(), AllocError>
    requires { IsCellOf design.now.wires design.now.free cell.now }
    ensures { OnOk result (row.new.items ≡ signal_places design.now (output_of cell.now)) }
{
    fill_signal(design, cell.output(), row)
}

/// Whether a parameter isn't 0; one that isn't there is 0.
pub(crate) fn flag(cell: &Cell, name: ParameterName) -> bool
    requires { IsPlain cell.now name }
    ensures { result ≡ flag cell.now name }
{
    match cell.parameter(name) {
        Some(constant) => constant.number() != Some(0),
        None => false,
    }
}
