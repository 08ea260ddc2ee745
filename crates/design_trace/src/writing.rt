// The text of a run.

ghost use Rattle.std.specs.Prelude.{◌≡◌, ◌≤◌, ◌++◌, ℕ, length, IfOk};
ghost use Rattle.std.specs.List.{sum_by};
ghost use Rattle.design_core.specs.Shape.{wire_bits};
ghost use Rattle.design_meaning.specs.Runs.{IsCycleOf, IsRunOf, shown_of};
ghost use Rattle.design_trace.specs.Trace.{cycle_line, cycle_text, digit, trace, value_text, wire_line, wire_lines};

use design_check::flat::Flat;
use design_core::design::Design;
use design_core::wire::Wire;
use design_meaning::run::{Cycle, Run};
use std::alloc::{AllocError, Global};

pub(crate) fn put(text: &mut Vec<u8>, piece: &[u8]) -> Result<(), AllocError>
    ensures { IfOk result (λ _. text.new.items ≡ text.old.items ++ piece.now) }
{
    text.extend_from_slice(piece)?;
    Ok(())
}

pub(crate) fn digit(bit: bool) -> u8
    ensures { result ≡ digit bit }
{
    if bit { b'1' } else { b'0' }
}

pub(crate) fn put_bits(text: &mut Vec<u8>, bits: &[bool]) -> Result<(), AllocError>
    ensures { IfOk result (λ _. text.new.items ≡ text.old.items ++ value_text bits.now) }
{
    let mut place = bits.len();
    'bits: while place > 0 {
        place -= 1;
        text.push(digit(bits[place]))?;
    }
    Ok(())
}

fn put_wire(text: &mut Vec<u8>, wire: &Wire, bits: &[bool]) -> Result<(), AllocError>
    ensures { IfOk result (λ _. text.new.items ≡ text.old.items ++ wire_line wire.now bits.now) }
{
    put(text, wire.name().as_bytes())?;
    put(text, b" ")?;
    put_bits(text, bits)?;
    put(text, b"\n")
}

fn put_wires(text: &mut Vec<u8>, wires: &[Wire], row: &[bool]) -> Result<(), AllocError>
    requires { sum_by (λ w. w.width) wires.now ≤ length row.now }
    ensures { IfOk result (λ _. text.new.items ≡ text.old.items ++ wire_lines wires.now row.now) }
{
    let mut rest = row;
    for wire in wires {
        let (bits, later) = rest.split_at(wire.width() as usize);
        put_wire(text, wire, bits)?;
        rest = later;
    }
    Ok(())
}

fn put_number(alloc: Global, text: &mut Vec<u8>, number: u64) -> Result<(), AllocError>
    ensures { IfOk result (λ _. text.new.items ≡ text.old.items ++ cycle_line number) }
{
    let line = format!(in alloc; "cycle {number}\n")?;
    put(text, line.as_bytes())
}

fn put_cycle(
    alloc: Global,
    text: &mut Vec<u8>,
    design: &Design,
    cycle: &Cycle,
    number: u64,
) -> Result<(), AllocError>
    requires { IsCycleOf design.now cycle.now }
    ensures { IfOk result (λ _. text.new.items ≡ text.old.items ++ cycle_text design.now number cycle.now.wires) }
{
    put_number(alloc, text, number)?;
    put_wires(text, design.wires(), cycle.wires())
}

/// The text of one cycle: a line `cycle K`, then for each wire in file order its name, a space and its bits, highest first.
pub fn cycle_text(
    alloc: Global,
    flat: &Flat,
    cycle: &Cycle,
    number: u64,
) -> Result<Vec<u8>, AllocError>
    requires { IsCycleOf flat.now cycle.now }
    ensures { IfOk result (λ text. text.items ≡ cycle_text flat.now number cycle.now.wires) }
{
    let mut text = Vec::new(alloc);
    put_cycle(alloc, &mut text, flat.design(), cycle, number)?;
    Ok(text)
}

/// The text of a run: the texts of its cycles, one after the other, K from 0.
pub fn text(alloc: Global, flat: &Flat, run: &Run) -> Result<Vec<u8>, AllocError>
    requires { IsRunOf flat.now run.now }
    ensures { IfOk result (λ text. text.items ≡ trace flat.now (shown_of run.now)) }
{
    let design = flat.design();
    let mut text = Vec::new(alloc);
    let mut number = 0u64;
    for cycle in run.cycles() {
        put_cycle(alloc, &mut text, design, cycle, number)?;
        number += 1;
    }
    Ok(text)
}
