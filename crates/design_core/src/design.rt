// A design as a list of wires, cells and connects.

ghost use Rattle.std.specs.Prelude.{◌≡◌, ◌↔◌, IsTrue, All, ◌+◌, ◌<◌, ◌≤◌, ◌^◌, [], ◌∷◌, ◌++◌, string_bytes, length, slice_get, Some, OnOk, OnErr};
ghost use Rattle.design_core.specs.Places.{offset, place_of, places};
ghost use Rattle.design_core.specs.Shape.{IsCellOf, IsDeclared, IsDesign, IsNumbered, IsWire, WireOf, wire_bits};
ghost use Rattle.design_signals.specs.Chunks.{IsChunk, bits_of, chunk_bits};

use crate::cell::Cell;
use crate::connect::Connect;
use crate::digit::{Constant, Digit};
use crate::parts::{Parameter, Port};
use crate::wire::Wire;
use design_signals::chunk::{Chunk, above};
use design_signals::sig_bit::SigBit;
use design_signals::stored::StoredSignal;
use std::alloc::{AllocError, Global};
use std::marker::Model;

/// A design: its name, its wires, cells and connects in file order, and how many free bits are numbered.
///
/// Its signals speak of its own bits alone, of which, wire bits and free bits together, there are at most 2^21.
#[derive(Drop)]
pub struct Design {
    name: String,
    wires: Vec<Wire>,
    cells: Vec<Cell>,
    connects: Vec<Connect>,
    // the place of each wire's lowest bit
    offsets: Vec<u32>,
    bits: u32,
    free: u32,
}

impl Model for Design {
    ghost use Rattle.design_core.specs.Shape.{DesignOf};

    ghost Value = { DesignOf };

    ghost use Rattle.design_core.specs.Design.{IsDesignInside, design_of};

    ghost view = { design_of };

    ghost invariant = { IsDesignInside };
}

impl Design {
    /// A design of this name with nothing in it yet.
    pub fn new(alloc: Global, name: String) -> Design
        ensures { result ≡ record { name = string_bytes name; wires = []; cells = []; connects = []; free = 0 } }
    {
        Design {
            name,
            wires: Vec::new(alloc),
            cells: Vec::new(alloc),
            connects: Vec::new(alloc),
            offsets: Vec::new(alloc),
            bits: 0,
            free: 0,
        }
    }

    /// The module's name, as in the file.
    pub fn name(&self) -> &str
        ensures { result.now ≡ self.now.name }
    {
        self.name.as_str()
    }

    /// The wires, in file order.
    pub fn wires(&self) -> &[Wire]
        ensures wires { result.now ≡ self.now.wires }
        ensures design { IsDesign self.now }
    {
        self.wires.as_slice()
    }

    /// The cells, in file order.
    pub fn cells(&self) -> &[Cell]
        ensures cells { result.now ≡ self.now.cells }
        ensures design { IsDesign self.now }
    {
        self.cells.as_slice()
    }

    /// The connects, in file order.
    pub fn connects(&self) -> &[Connect]
        ensures connects { result.now ≡ self.now.connects }
        ensures design { IsDesign self.now }
    {
        self.connects.as_slice()
    }

    /// How many free bits are numbered, from 0.
    pub fn free(&self) -> u32
        ensures free { result ≡ self.now.free }
        ensures room { wire_bits self.now + result ≤ 2 ^ 21 }
    {
        self.free
    }

    /// How many bits all wires have.
    pub fn bits(&self) -> u32
        ensures bits { result ≡ wire_bits self.now }
        ensures room { result + self.now.free ≤ 2 ^ 21 }
    {
        self.bits
    }

    /// The place of a wire's lowest bit, where all wires' bits stand in file order.
    pub fn offset(&self, wire: u32) -> u32
        requires { wire < length self.now.wires }
        ensures offset { result ≡ offset self.now wire }
        ensures within { (x : WireOf) → slice_get self.now.wires wire ≡ Some x → result + x.width ≤ wire_bits self.now }
    {
        self.offsets[wire as usize]
    }

    /// The place of a bit, below `places`.
    pub fn place(&self, bit: SigBit) -> usize
        requires { IsDeclared self.now.wires self.now.free bit }
        ensures place { result ≡ place_of self.now bit }
        ensures within { result < places self.now }
    {
        match bit {
            SigBit::Wire(wire, bit) => self.offset(wire) as usize + bit as usize,
            SigBit::Free(number) => self.bits as usize + number as usize,
            SigBit::Const(value) => self.bits as usize + self.free as usize + usize::from(value),
        }
    }

    /// How many places there are: for the wires' bits, the free bits and the two constants.
    pub fn places(&self) -> usize
        ensures places { result ≡ places self.now }
        ensures few { result ≤ 2 ^ 21 + 2 }
        ensures design { IsDesign self.now }
    {
        self.bits as usize + self.free as usize + 2
    }

    /// Whether a bit is declared: a bit of a wire that is there, a constant, or a free bit that is numbered.
    pub fn declares(&self, bit: SigBit) -> bool
        ensures { IsTrue result ↔ IsDeclared self.now.wires self.now.free bit }
    {
        match bit {
            SigBit::Wire(wire, bit) => {
                let wires = self.wires.as_slice();
                (wire as usize) < wires.len() && bit < wires[wire as usize].width()
            }
            SigBit::Const(_) => true,
            SigBit::Free(number) => number < self.free,
        }
    }

    /// Whether each bit of a chunk is declared.
    pub fn declares_chunk(&self, chunk: Chunk) -> bool
        requires { IsChunk chunk }
        ensures { IsTrue result ↔ All (IsDeclared self.now.wires self.now.free) (chunk_bits chunk) }
    {
        match chunk.first {
            SigBit::Wire(_, _) => self.declares(above(chunk.first, chunk.width - 1)),
            SigBit::Const(_) => true,
            SigBit::Free(_) => self.declares(chunk.first),
        }
    }

    /// Whether each bit of these chunks is declared.
    pub fn declares_all(&self, chunks: &[Chunk]) -> bool
        requires { All IsChunk chunks.now }
        ensures { IsTrue result ↔ All (IsDeclared self.now.wires self.now.free) (bits_of chunks.now) }
    {
        for chunk in chunks {
            if !self.declares_chunk(*chunk) {
                return false;
            }
        }
        true
    }

    /// Whether each free bit among a constant's digits is numbered.
    pub fn numbers_all(&self, constant: &Constant) -> bool
        ensures { IsTrue result ↔ All (IsNumbered self.now.free) constant.now }
    {
        for place in 0..constant.len() {
            if !self.numbers(constant.digit(place)) {
                return false;
            }
        }
        true
    }

    fn numbers(&self, digit: Digit) -> bool
        ensures { IsTrue result ↔ IsNumbered self.now.free digit }
    {
        match digit {
            Digit::Free(number) => number < self.free,
            Digit::Const(_) | Digit::Marker => true,
        }
    }

    /// Whether each bit of a cell's signals is declared, and each free bit among its parameters' digits numbered.
    pub fn declares_cell(&self, cell: &Cell) -> bool
        ensures { IsTrue result ↔ IsCellOf self.now.wires self.now.free cell.now }
    {
        self.declares_ports(cell.ports()) && self.numbers_parameters(cell.parameters())
    }

    fn declares_ports(&self, ports: &[Port]) -> bool
        ensures { IsTrue result ↔ All (λ p. All (IsDeclared self.now.wires self.now.free) p.signal) ports.now }
    {
        for port in ports {
            if !self.declares_all(port.signal.chunks()) {
                return false;
            }
        }
        true
    }

    fn numbers_parameters(&self, parameters: &[Parameter]) -> bool
        ensures { IsTrue result ↔ All (λ p. All (IsNumbered self.now.free) p.digits) parameters.now }
    {
        for parameter in parameters {
            if !self.numbers_all(&parameter.digits) {
                return false;
            }
        }
        true
    }

    /// Adds a wire after the others. An error leaves the design as it was.
    pub fn push_wire(&mut self, wire: Wire) -> Result<(), AllocError>
        requires wire { IsWire wire }
        requires room { wire_bits self.old + self.old.free + wire.width ≤ 2 ^ 21 }
        ensures ok { OnOk result (self.new ≡ record self.old { wires = self.old.wires ++ wire ∷ [] }) }
        ensures err { OnErr result (self.new ≡ self.old) }
    {
        let width = wire.width();
        self.offsets.push(self.bits)?;
        let Ok(()) = self.wires.push(wire) else {
            self.offsets.pop();
            return Err(AllocError);
        };
        self.bits += width;
        Ok(())
    }

    /// Adds a cell after the others. An error leaves the design as it was.
    pub fn push_cell(&mut self, cell: Cell) -> Result<(), AllocError>
        requires cell { IsCellOf self.old.wires self.old.free cell }
        requires few { length self.old.cells < 2 ^ 27 }
        ensures ok { OnOk result (self.new ≡ record self.old { cells = self.old.cells ++ cell ∷ [] }) }
        ensures err { OnErr result (self.new ≡ self.old) }
    {
        self.cells.push(cell)?;
        Ok(())
    }

    /// Adds a connect of these two sides after the others, after the cells that are there. An error leaves the design as it was.
    pub fn push_connect(
        &mut self,
        left: StoredSignal,
        right: StoredSignal,
    ) -> Result<(), AllocError>
        requires left { All (IsDeclared self.old.wires self.old.free) left }
        requires right { All (IsDeclared self.old.wires self.old.free) right }
        requires few { length self.old.connects < 2 ^ 26 }
        ensures ok { OnOk result (self.new ≡ record self.old { connects = self.old.connects ++ record { left = left; right = right; cells_before = length self.old.cells } ∷ [] }) }
        ensures err { OnErr result (self.new ≡ self.old) }
    {
        let cells_before = self.cells.len() as u32;
        let connect = Connect::new(left, right, cells_before);
        self.connects.push(connect)?;
        Ok(())
    }

    /// Numbers this many more free bits, and gives the first one's number.
    pub fn number_free(&mut self, count: u32) -> u32
        requires { wire_bits self.old + self.old.free + count ≤ 2 ^ 21 }
        ensures number { result ≡ self.old.free }
        ensures more { self.new ≡ record self.old { free = self.old.free + count } }
    {
        let number = self.free;
        self.free += count;
        number
    }
}
