// The registers: one for each cell with a state, in file order.

ghost use Rattle.std.specs.Prelude.{◌≡◌, ◌+◌, ◌<◌, ◌≤◌, ◌^◌, [], ◌∷◌, ◌++◌, List, OnOk, Option, Bool, length, true, false, ℕ};
ghost use Rattle.std.specs.List.{enumerate_from, flat_map};
ghost use Rattle.design_core.specs.Asked.{output_of};
ghost use Rattle.design_core.specs.Shape.{CellOf, IsCellOf};
ghost use Rattle.design_core.specs.Table.{role_of};
ghost use Rattle.design_core.specs.Cells.{next_state};
ghost use Rattle.design_core.specs.declared.table.Role.{Role};
ghost use Rattle.design_core.specs.Places.{places};
ghost use Rattle.design_meaning.specs.Meaning.{IsCell, is_register};
ghost use Rattle.design_meaning.specs.Runs.{kept_bits};
ghost use Rattle.word_model.specs.Built.{AreOffsets};
ghost use Rattle.word_model.specs.Kinds.{asks, is_reset_value};
ghost use Rattle.word_model.specs.Registers.{AreDigits, AreStarts, HasOneWidth, IsRegistered, always, control, enable_of, never, plain_register, registers_of, reset_of, table_register, value_of};
ghost use Rattle.word_model.specs.Served.{IsPlain, IsServed};

use crate::nodes::Rows;
use crate::rows::{bit_place, fill_output, fill_parameter, fill_port, fill_range, flag, zero};
use cell_table::kind::Kind;
use design_check::flat::Flat;
use design_core::cell::Cell;
use design_core::design::Design;
use design_core::names::{ParameterName, PortName};
use design_core::next::{NextState, next_state};
use design_core::parts::is_port;
use design_core::table::{Role, ports, role_of};
use design_signals::bits::Bits;
use model_core::draft::Draft;
use model_core::model::Control;
use std::alloc::{AllocError, Global};

// Whether the table asks a port of this name of the type.
fn asks(kind: Kind, name: PortName) -> bool
    ensures { result ≡ asks kind name }
{
    ports(kind).iter().any(|line| is_port(line.name, name))
}

fn always(design: &Design) -> Control
    ensures { result ≡ always design.now }
{
    Control {
        place: zero(design) + 1,
        level: true,
    }
}

fn never(design: &Design) -> Control
    ensures { result ≡ never design.now }
{
    Control {
        place: zero(design),
        level: true,
    }
}

// The bit at a port, active at 1 where the parameter isn't 0.
fn control(design: &Design, cell: &Cell, port: PortName, polarity: ParameterName) -> Control
    requires cell { IsCellOf design.now.wires design.now.free cell.now }
    requires plain { IsPlain cell.now polarity }
    ensures { result ≡ control design.now cell.now port polarity }
{
    Control {
        place: bit_place(design, cell.signal(port)),
        level: flag(cell, polarity),
    }
}

fn enable_of(design: &Design, cell: &Cell) -> Control
    requires { IsServed design.now cell.now }
    ensures { result ≡ enable_of design.now cell.now }
{
    if asks(cell.kind(), PortName::En) {
        control(design, cell, PortName::En, ParameterName::EnPolarity)
    } else {
        always(design)
    }
}

fn reset_of(design: &Design, cell: &Cell) -> Control
    requires { IsServed design.now cell.now }
    ensures { result ≡ reset_of design.now cell.now }
{
    if asks(cell.kind(), PortName::Srst) {
        control(design, cell, PortName::Srst, ParameterName::SrstPolarity)
    } else if asks(cell.kind(), PortName::Arst) {
        control(design, cell, PortName::Arst, ParameterName::ArstPolarity)
    } else {
        never(design)
    }
}

// Makes the row that of the reset value, or of D where there is no reset.
fn fill_value(design: &Design, cell: &Cell, row: &mut Vec<u32>) -> Result<(), AllocError>
    requires { IsServed design.now cell.now }
    ensures { OnOk result (row.new.items ≡ value_of design.now cell.now) }
{
    if asks(cell.kind(), PortName::Srst) {
        fill_parameter(design, cell, ParameterName::SrstValue, row)
    } else if asks(cell.kind(), PortName::Arst) {
        fill_parameter(design, cell, ParameterName::ArstValue, row)
    } else {
        fill_port(design, cell, PortName::D, row)
    }
}

fn is_reset_first(kind: Kind) -> bool
    ensures { result ≡ is_reset_value (next_state kind false true) }
{
    matches!(next_state(kind, false, true), NextState::ResetValue)
}

// Makes the row that of the digits that the bits of the register at a place start with.
fn fill_starts(flat: &Flat, cell: &Cell, digits: &mut Vec<Option<bool>>) -> Result<(), AllocError>
    requires { IsCellOf flat.now.wires flat.now.free cell.now }
    ensures { OnOk result ((i : ℕ) → IsCell flat.now i cell.now → is_register (role_of cell.now.kind) ≡ true → AreDigits flat.now i cell.now digits.new.items) }
{
    digits.clear();
    let mut left = Bits::new(cell.output());
    'bits: while let Some(bit) = left.next() {
        digits.push(flat.start(bit))?;
    }
    Ok(())
}

// Adds the register of a cell that keeps the row of these places, by its line of the table.
fn push_table_register(
    design: &Design,
    cell: &Cell,
    rows: &mut Rows,
    digits: &[Option<bool>],
    draft: &mut Draft,
) -> Result<(), AllocError>
    requires cell { IsServed design.now cell.now }
    requires q { length rows.old.y.items ≡ length (output_of cell.now) }
    requires few { length (output_of cell.now) ≤ 4096 }
    requires widths { HasOneWidth design.now cell.now }
    ensures { OnOk result (draft.new ≡ record draft.old {
      registers = draft.old.registers ++ table_register design.now cell.now rows.old.y.items ∷ [];
      starts = draft.old.starts ++ digits.now;
    }) }
{
    fill_port(design, cell, PortName::D, &mut rows.a)?;
    fill_value(design, cell, &mut rows.b)?;
    let enable = enable_of(design, cell);
    let reset = reset_of(design, cell);
    let first = is_reset_first(cell.kind());
    draft.push_register(&rows.y, &rows.a, &rows.b, enable, reset, first, digits)
}

// Adds a register that takes a row in each cycle.
fn push_plain_register(
    design: &Design,
    q: &[u32],
    row: &[u32],
    digits: &[Option<bool>],
    draft: &mut Draft,
) -> Result<(), AllocError>
    requires width { length row.now ≡ length q.now }
    requires few { length q.now ≤ 4096 }
    ensures { OnOk result (draft.new ≡ record draft.old {
      registers = draft.old.registers ++ plain_register design.now q.now row.now ∷ [];
      starts = draft.old.starts ++ digits.now;
    }) }
{
    draft.push_register(q, row, row, always(design), never(design), false, digits)
}

// Adds the register of a table's line, which keeps the row at `rows.y`, with the digits that it starts with.
fn push_held(
    flat: &Flat,
    cell: &Cell,
    rows: &mut Rows,
    digits: &mut Vec<Option<bool>>,
    draft: &mut Draft,
) -> Result<(), AllocError>
    requires cell { IsServed flat.now cell.now }
    requires register { is_register (role_of cell.now.kind) ≡ true }
    requires q { length rows.old.y.items ≡ length (output_of cell.now) }
    requires few { length (output_of cell.now) ≤ 4096 }
    requires widths { HasOneWidth flat.now cell.now }
    ensures { OnOk result ((i : ℕ) → IsCell flat.now i cell.now → IsRegistered flat.now i cell.now (table_register flat.now cell.now rows.old.y.items ∷ []) draft.old draft.new) }
{
    fill_starts(flat, cell, digits)?;
    push_table_register(flat.design(), cell, rows, digits, draft)
}

// Adds the register of an `$anyconst`.
fn push_constant(
    design: &Design,
    cell: &Cell,
    rows: &mut Rows,
    digits: &mut Vec<Option<bool>>,
    draft: &mut Draft,
) -> Result<(), AllocError>
    requires cell { IsServed design.now cell.now }
    requires role { role_of cell.now.kind ≡ Role.Constant }
    requires few { length (output_of cell.now) ≤ 4096 }
    ensures { OnOk result ((i : ℕ) → IsRegistered design.now i cell.now (registers_of design.now (i, cell.now)) draft.old draft.new) }
{
    fill_output(design, cell, &mut rows.y)?;
    digits.clear();
    digits.resize(rows.y.len(), None)?;
    push_plain_register(design, &rows.y, &rows.y, digits, draft)
}

// Adds the register of an `$initstate`.
fn push_initial(
    design: &Design,
    cell: &Cell,
    rows: &mut Rows,
    draft: &mut Draft,
) -> Result<(), AllocError>
    requires cell { IsServed design.now cell.now }
    requires role { role_of cell.now.kind ≡ Role.Initial }
    requires bit { length (output_of cell.now) ≡ 1 }
    ensures { OnOk result ((i : ℕ) → IsRegistered design.now i cell.now (registers_of design.now (i, cell.now)) draft.old draft.new) }
{
    fill_output(design, cell, &mut rows.y)?;
    let row = [zero(design)];
    let digits = [Some(true)];
    push_plain_register(design, &rows.y, &row, &digits, draft)
}

// Adds the register of the cell at a place, if it has a state.
fn push_register(
    flat: &Flat,
    place: usize,
    offsets: &[u32],
    rows: &mut Rows,
    digits: &mut Vec<Option<bool>>,
    draft: &mut Draft,
) -> Result<(), AllocError>
    requires place { place < length flat.now.cells }
    requires offsets { AreOffsets flat.now offsets.now }
    requires fits { places flat.now + kept_bits flat.now < 2 ^ 32 }
    ensures { OnOk result ((c : CellOf) → IsCell flat.now place c → IsRegistered flat.now place c (registers_of flat.now (place, c)) draft.old draft.new) }
{
    let design = flat.design();
    let cells = design.cells();
    let cell = &cells[place];
    match role_of(cell.kind()) {
        Role::Register => {
            fill_output(design, cell, &mut rows.y)?;
            push_held(flat, cell, rows, digits, draft)
        }
        Role::AsyncResetRegister => {
            fill_output(design, cell, &mut rows.s)?;
            fill_range(offsets[place], rows.s.len(), &mut rows.y)?;
            push_held(flat, cell, rows, digits, draft)
        }
        Role::Constant => push_constant(design, cell, rows, digits, draft),
        Role::Initial => push_initial(design, cell, rows, draft),
        Role::Combinational | Role::Source | Role::Statement | Role::Unsupported => Ok(()),
    }
}

/// Adds the registers of all cells with a state, and the digits that their bits start with.
pub(crate) fn push_registers(
    alloc: Global,
    flat: &Flat,
    offsets: &[u32],
    draft: &mut Draft,
) -> Result<(), AllocError>
    requires offsets { AreOffsets flat.now offsets.now }
    requires fits { places flat.now + kept_bits flat.now < 2 ^ 32 }
    requires registers { draft.old.registers ≡ [] }
    requires starts { draft.old.starts ≡ [] }
    ensures { OnOk result ((starts : List (Option Bool)) × AreStarts flat.now (enumerate_from 0 flat.now.cells) starts × (draft.new ≡ record draft.old {
      registers = flat_map (registers_of flat.now) (enumerate_from 0 flat.now.cells);
      starts = starts;
    })) }
{
    let mut rows = Rows::new(alloc);
    let mut digits = Vec::new(alloc);
    let cells = flat.design().cells();
    for place in 0..cells.len() {
        push_register(flat, place, offsets, &mut rows, &mut digits, draft)?;
    }
    Ok(())
}
