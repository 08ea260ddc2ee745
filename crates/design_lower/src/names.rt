// The names of a design, and those that are free for new wires.

ghost use Rattle.std.specs.Prelude.{◌≡◌, ℕ, [], ◌∷◌, ◌++◌, ◌<◌, ◌≤◌, ◌+◌, ◌^◌, ◌↔◌, ◌⊎◌, List, false, true, IfOk, OnOk, string_bytes, map};
ghost use Rattle.design_lower.specs.Lowering.{kept_name};
ghost use Rattle.design_lower.specs.Progress.{Adds, IsFreeSoon, IsNames, has};

use design_core::cell::Cell;
use design_core::design::Design;
use design_core::wire::Wire;
use indexmap::IndexSet;
use std::alloc::{AllocError, Global};
use std::marker::Model;

/// Different names.
#[derive(Drop)]
pub(crate) struct Names<'a> {
    names: IndexSet<&'a str>,
}

impl<'a> Model for Names<'a> {
    ghost use Rattle.std.specs.Prelude.{List, ℕ, map};

    ghost Value = { List (List ℕ) };

    ghost view = { λ a. map (λ n. n.now) a.names.keys };
}

impl<'a> Names<'a> {
    pub(crate) fn new(alloc: Global) -> Self
        ensures { result ≡ [] }
    {
        Names {
            names: IndexSet::new(alloc),
        }
    }

    pub(crate) fn has(&self, name: &str) -> bool
        ensures { result ≡ has self.now name.now }
    {
        self.names.contains(name)
    }

    fn push(&mut self, name: &'a str) -> Result<(), AllocError>
        requires { has self.old name.now ≡ false }
        ensures { OnOk result (self.new ≡ self.old ++ name.now ∷ []) }
    {
        self.names.insert(name)?;
        Ok(())
    }

    /// Adds a name, unless it is there.
    pub(crate) fn add(&mut self, name: &'a str) -> Result<(), AllocError>
        ensures { OnOk result ((n : List ℕ) → (has self.new n ≡ true) ↔ ((has self.old n ≡ true) ⊎ (n ≡ name.now))) }
    {
        if self.has(name) {
            return Ok(());
        }
        self.push(name)?;
        Ok(())
    }
}

// Adds the names of wires.
fn add_wires<'a>(wires: &'a [Wire], names: &mut Names<'a>) -> Result<(), AllocError>
    ensures { OnOk result (Adds names.old names.new (map (λ w. w.name) wires.now)) }
{
    for wire in wires {
        names.add(wire.name())?;
    }
    Ok(())
}

// Adds the names of cells.
fn add_cells<'a>(cells: &'a [Cell], names: &mut Names<'a>) -> Result<(), AllocError>
    ensures { OnOk result (Adds names.old names.new (map (λ c. c.name) cells.now)) }
{
    for cell in cells {
        names.add(cell.name())?;
    }
    Ok(())
}

/// The names of a design's wires and cells.
pub(crate) fn design_names(alloc: Global, design: &Design) -> Result<Names, AllocError>
    ensures { IfOk result (λ names. IsNames design.now names) }
{
    let mut names = Names::new(alloc);
    add_wires(design.wires(), &mut names)?;
    add_cells(design.cells(), &mut names)?;
    Ok(names)
}

/// The name of a new wire, with the least number from this one on whose name isn't among these; its number comes first.
pub(crate) fn free_name(
    alloc: Global,
    names: &Names,
    from: u64,
) -> Result<(u64, String), AllocError>
    requires { IsFreeSoon names.now from }
    ensures least { IfOk result (λ r. (from ≤ r.0) × ((k : ℕ) → from ≤ k → k < r.0 → has names.now (kept_name k) ≡ true)) }
    ensures name { IfOk result (λ r. (string_bytes r.1 ≡ kept_name r.0) × (has names.now (kept_name r.0) ≡ false)) }
    ensures few { IfOk result (λ r. r.0 < 2 ^ 32) }
{
    let mut number = from;
    'numbers: loop {
        let name = format!(in alloc; "$kept_{number}")?;
        if !names.has(name.as_str()) {
            return Ok((number, name));
        }
        number += 1;
    }
}
