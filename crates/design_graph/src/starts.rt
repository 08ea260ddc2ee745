//! The start digits of registers' bits.

ghost use Rattle.std.specs.Prelude.{◌≡◌, ◌⊎◌, ◌↔◌, ◌+◌, ◌<◌, ℕ, Bool, IsTrue, None, Some, IfOk, MatchOption, length, slice_get, false, true};
ghost use Rattle.design_core.specs.Asked.{output_of};
ghost use Rattle.design_core.specs.Places.{offset, place_of, places};
ghost use Rattle.design_core.specs.Shape.{IsCellOf, IsDeclared, IsDesign};
ghost use Rattle.design_core.specs.Table.{role_of};
ghost use Rattle.design_meaning.specs.Meaning.{IsInit, is_register};
ghost use Rattle.design_graph.specs.Edges.{IsDigitMarks, IsNets, IsPlaceIn, IsRegisterMarks, IsStartMarks, IsStartOf, Marks};
ghost use Rattle.design_graph.specs.Items.{IsDrivenOnce};
ghost use Rattle.design_graph.specs.Starts.{IsRegisterStart, IsStarts};
ghost use Rattle.design_signals.specs.declared.sig_bit.SigBit.{SigBit};

use crate::drivers::no_marks;
use cell_table::kind::Kind;
use design_core::cell::Cell;
use design_core::design::Design;
use design_core::table::{Role, role_of};
use design_signals::bits::Bits;
use std::alloc::{AllocError, Global};

/// By places: the nets of bits, which bits are registers', and of which nets some bit has the start digit 0, or 1.
#[derive(Drop)]
pub struct StartMarks {
    pub leaders: Vec<usize>,
    pub registers: Vec<bool>,
    pub low: Vec<bool>,
    pub high: Vec<bool>,
}

/// Whether a cell of this type is a register.
pub fn is_register(kind: Kind) -> bool
    ensures { result ≡ is_register (role_of kind) }
{
    matches!(role_of(kind), Role::Register | Role::AsyncResetRegister)
}

// Marks the bits that a register drives.
fn mark_register(design: &Design, cell: &Cell, marks: &mut [bool])
    requires cell { IsCellOf design.now.wires design.now.free cell.now }
    requires size { length marks.old ≡ places design.now }
    ensures { Marks marks.old (λ p. (is_register (role_of cell.now.kind) ≡ true) × IsPlaceIn design.now (output_of cell.now) p) marks.new }
{
    if !is_register(cell.kind()) {
        return;
    }
    let mut left = Bits::new(cell.output());
    'bits: while let Some(bit) = left.next() {
        marks[design.place(bit)] = true;
    }
}

// Which bits are registers'.
fn register_marks(alloc: Global, design: &Design) -> Result<Vec<bool>, AllocError>
    ensures { IfOk result (λ marks. IsRegisterMarks design.now marks.items) }
{
    let mut marks = no_marks(alloc, design.places())?;
    let table = marks.as_mut_slice();
    let cells = design.cells();
    for place in 0..cells.len() {
        mark_register(design, &cells[place], table);
    }
    Ok(marks)
}

// Whether the start digit is this one.
fn is_digit(start: Option<bool>, digit: bool) -> bool
    ensures { IsTrue result ↔ (start ≡ Some digit) }
{
    match start {
        Some(true) => digit,
        Some(false) => !digit,
        None => false,
    }
}

// Marks the nets of a wire's bits to which an attribute gives the digit.
fn mark_init(
    first: usize,
    leaders: &[usize],
    digits: &[Option<bool>],
    digit: bool,
    marks: &mut [bool],
)
    requires wire { (b : ℕ) → b < length digits.now → first + b < length leaders.now }
    requires leaders { (p l : ℕ) → slice_get leaders.now p ≡ Some l → l < length marks.old }
    ensures { Marks marks.old (λ l. (b : ℕ) × (slice_get digits.now b ≡ Some (Some digit)) × (slice_get leaders.now (first + b) ≡ Some l)) marks.new }
{
    for bit in 0..digits.len() {
        if is_digit(digits[bit], digit) {
            marks[leaders[first + bit]] = true;
        }
    }
}

// Marks the nets of a wire's bits that have the digit.
fn mark_wire(design: &Design, leaders: &[usize], wire: usize, digit: bool, marks: &mut [bool])
    requires nets { IsNets design.now leaders.now }
    requires wire { wire < length design.now.wires }
    requires size { length marks.old ≡ places design.now }
    ensures { Marks marks.old (λ l. (b : ℕ) × IsInit design.now wire b digit × (slice_get leaders.now (offset design.now wire + b) ≡ Some l)) marks.new }
{
    let wires = design.wires();
    let first = design.offset(wire as u32) as usize;
    let inits = wires[wire].inits();
    for place in 0..inits.len() {
        mark_init(first, leaders, inits[place].as_slice(), digit, marks);
    }
}

// Of which nets some bit has the digit.
fn digit_marks(
    alloc: Global,
    design: &Design,
    leaders: &[usize],
    digit: bool,
) -> Result<Vec<bool>, AllocError>
    requires { IsNets design.now leaders.now }
    ensures { IfOk result (λ marks. IsDigitMarks design.now leaders.now digit marks.items) }
{
    let mut marks = no_marks(alloc, design.places())?;
    let table = marks.as_mut_slice();
    for wire in 0..design.wires().len() {
        mark_wire(design, leaders, wire, digit, table);
    }
    Ok(marks)
}

/// What is marked of start digits.
pub fn start_marks(
    alloc: Global,
    design: &Design,
    leaders: Vec<usize>,
) -> Result<StartMarks, AllocError>
    requires once { IsDrivenOnce design.now }
    requires nets { IsNets design.now leaders.items }
    ensures { IfOk result (λ s. IsStartMarks design.now s.leaders.items s.registers.items s.low.items s.high.items) }
{
    let registers = register_marks(alloc, design)?;
    let low = digit_marks(alloc, design, &leaders, false)?;
    let high = digit_marks(alloc, design, &leaders, true)?;
    Ok(StartMarks {
        leaders,
        registers,
        low,
        high,
    })
}

// Whether the register's bit at a place has the start digit.
fn has_start(design: &Design, marks: &StartMarks, place: usize, digit: bool) -> bool
    requires shape { IsDesign design.now }
    requires marks { IsStartMarks design.now marks.now.leaders.items marks.now.registers.items marks.now.low.items marks.now.high.items }
    requires place { place < places design.now }
    ensures { (a : SigBit) → IsDeclared design.now.wires design.now.free a → place ≡ place_of design.now a → (IsTrue result ↔ IsRegisterStart design.now a digit) }
{
    if !marks.registers[place] {
        return false;
    }
    if digit {
        marks.high[marks.leaders[place]]
    } else {
        marks.low[marks.leaders[place]]
    }
}

/// Whether the register's bit at a place has the start digits 0 and 1.
pub fn is_conflict(design: &Design, marks: &StartMarks, place: usize) -> bool
    requires shape { IsDesign design.now }
    requires marks { IsStartMarks design.now marks.now.leaders.items marks.now.registers.items marks.now.low.items marks.now.high.items }
    requires place { place < places design.now }
    ensures { (a : SigBit) → IsDeclared design.now.wires design.now.free a → place ≡ place_of design.now a → (IsTrue result ↔ (IsRegisterStart design.now a false × IsRegisterStart design.now a true)) }
{
    has_start(design, marks, place, false) && has_start(design, marks, place, true)
}

// The start digit of the register's bit at a place.
fn start_of(design: &Design, marks: &StartMarks, place: usize) -> Option<bool>
    requires shape { IsDesign design.now }
    requires marks { IsStartMarks design.now marks.now.leaders.items marks.now.registers.items marks.now.low.items marks.now.high.items }
    requires place { place < places design.now }
    ensures { (a : SigBit) → IsDeclared design.now.wires design.now.free a → place ≡ place_of design.now a → IsStartOf design.now a result }
{
    if has_start(design, marks, place, false) {
        Some(false)
    } else if has_start(design, marks, place, true) {
        Some(true)
    } else {
        None
    }
}

/// The start digits of all registers' bits, at their places.
pub fn starts_of(
    alloc: Global,
    design: &Design,
    marks: &StartMarks,
) -> Result<Vec<Option<bool>>, AllocError>
    requires shape { IsDesign design.now }
    requires marks { IsStartMarks design.now marks.now.leaders.items marks.now.registers.items marks.now.low.items marks.now.high.items }
    requires conflicts { (a : SigBit) → IsRegisterStart design.now a false → IsRegisterStart design.now a true → ⊥ }
    ensures { IfOk result (λ starts. IsStarts design.now starts.items) }
{
    let mut starts = Vec::new(alloc);
    for place in 0..design.places() {
        starts.push(start_of(design, marks, place))?;
    }
    Ok(starts)
}
