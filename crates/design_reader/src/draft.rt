// A module while it is read.

ghost use Rattle.std.specs.Prelude.{◌≡◌, ◌+◌, ◌<◌, ◌≤◌, ◌^◌, [], ◌++◌, ◌∷◌, nat_le, length, All, IfOk, OnOk, string_bytes};
ghost use Rattle.design_core.specs.Shape.{IsCellOf, IsDeclared, wire_bits};
ghost use Rattle.design_reader.specs.Grammar.{most_bits, new_draft, new_wire, wire_name};
ghost use Rattle.design_reader.specs.Parts.{no_attributes};
ghost use Rattle.design_reader.specs.Drafts.{Gives, draft_of, IsIndexed, HasRoom};
ghost use Rattle.design_reader.specs.declared.spot.Spot.TheVariants.{Line};

use crate::fault::ReadFaultKind;
use crate::names::Names;
use crate::spot::{Attributes, WireOptions};
use crate::start::starts;
use crate::stop::Stop;
use design_core::cell::Cell;
use design_core::design::Design;
use design_core::wire::Wire;
use design_signals::stored::StoredSignal;
use std::alloc::{AllocError, Global};

/// How many bits a design that is read may have.
const MOST_BITS: usize = 1 << 20;

/// How many cells, and how many connects, a design may have; a text that has more is too long to be read.
const MOST_ITEMS: usize = 1 << 26;

/// The design so far, the names of its wires, and the names of all cells, of those that are ignored too.
#[derive(Drop)]
pub struct Draft<'a> {
    pub design: Design,
    pub wires: Names<'a>,
    pub cells: Names<'a>,
}

impl<'a> Draft<'a> {
    /// Lets the draft go.
    pub fn discard(self) {}
}

/// A module of this name with no items yet.
pub fn new_draft<'a>(alloc: Global, name: String) -> Draft<'a>
    ensures draft { draft_of result ≡ new_draft (string_bytes name) }
    ensures indexed { IsIndexed result }
{
    Draft {
        design: Design::new(alloc, name),
        wires: Names::new(alloc),
        cells: Names::new(alloc),
    }
}

/// Whether this many bits more are within the limit.
pub fn has_room(design: &Design, more: usize) -> bool
    ensures { result ≡ nat_le (wire_bits design.now + design.now.free + more) most_bits }
{
    let bits = design.bits() as usize + design.free() as usize;
    bits <= MOST_BITS && more <= MOST_BITS - bits
}

/// The wire of these attributes and options.
fn new_wire(
    alloc: Global,
    attributes: &Attributes,
    options: WireOptions,
    name: &str,
) -> Result<Wire, AllocError>
    ensures { IfOk result (λ w. w ≡ new_wire name.now attributes.now options) }
{
    let width = options.width.unwrap_or(1);
    let inits = starts(alloc, width, attributes.inits())?;
    let text = String::from_str(alloc, name)?;
    Ok(Wire::new(text, width, options.input, inits))
}

/// Adds a wire.
pub fn add_wire<'a>(
    alloc: Global,
    draft: &mut Draft<'a>,
    attributes: &Attributes,
    options: WireOptions,
    name: &'a str,
) -> Result<(), Stop>
    requires indexed { IsIndexed draft.old }
    requires room { HasRoom (draft_of draft.old) options }
    ensures wire { Gives (λ _. (draft_of draft.new, Line no_attributes)) result (wire_name (draft_of draft.old) attributes.now options name.now) }
    ensures indexed { OnOk result (IsIndexed draft.new) }
{
    if draft.wires.has(name) {
        return Err(Stop::Fault(ReadFaultKind::DoubleName));
    }
    let wire = new_wire(alloc, attributes, options, name)?;
    draft.design.push_wire(wire)?;
    draft.wires.push(name)?;
    Ok(())
}

/// Adds a cell.
pub fn add_cell(design: &mut Design, cell: Cell) -> Result<(), AllocError>
    requires cell { IsCellOf design.old.wires design.old.free cell }
    ensures { OnOk result (design.new ≡ record design.old { cells = design.old.cells ++ cell ∷ [] }) }
{
    if design.cells().len() >= MOST_ITEMS {
        return Err(AllocError);
    }
    design.push_cell(cell)
}

/// Adds a connect.
pub fn add_connect(
    design: &mut Design,
    left: StoredSignal,
    right: StoredSignal,
) -> Result<(), AllocError>
    requires left { All (IsDeclared design.old.wires design.old.free) left }
    requires right { All (IsDeclared design.old.wires design.old.free) right }
    ensures { OnOk result (design.new ≡ record design.old { connects = design.old.connects ++ record { left = left; right = right; cells_before = length design.old.cells } ∷ [] }) }
{
    if design.connects().len() >= MOST_ITEMS {
        return Err(AllocError);
    }
    design.push_connect(left, right)
}
