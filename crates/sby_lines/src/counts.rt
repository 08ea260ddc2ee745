// What the design line counts.

ghost use Rattle.std.specs.Prelude.{◌≡◌, ◌<◌, ◌≤◌, ◌^◌, length};
ghost use Rattle.design_signals.specs.Chunks.{bits_of};
ghost use Rattle.std.specs.List.{filter, sum_by};
ghost use Rattle.design_core.specs.Asked.{output_of};
ghost use Rattle.design_core.specs.Table.{role_of};
ghost use Rattle.design_meaning.specs.Meaning.{is_register};
ghost use Rattle.design_core.specs.Shape.{CellOf, IsDesign};
ghost use Rattle.sby_lines.specs.Counts.{counts_of, is_statement};

use cell_table::kind::{Kind, Statement};
use design_core::cell::Cell;
use design_core::design::Design;
use design_signals::chunk::Chunk;

/// A design's register bits, and its statements of each kind.
#[derive(Clone, Copy, Debug, PartialEq, Eq)]
pub struct Counts {
    pub registers: u128,
    pub asserts: usize,
    pub assumes: usize,
    pub covers: usize,
}

fn is_register(kind: Kind) -> bool
    ensures { result ≡ is_register (role_of kind) }
{
    matches!(
        kind,
        Kind::Ff
            | Kind::Dff
            | Kind::Dffe
            | Kind::Sdff
            | Kind::Sdffe
            | Kind::Sdffce
            | Kind::Adff
            | Kind::Adffe
    )
}

fn chunk_width(chunk: Chunk) -> u128
    ensures width { result ≡ chunk.width }
    ensures few { result < 2 ^ 32 }
{
    u128::from(chunk.width)
}

// How many bits chunks have.
fn bit_count(chunks: &[Chunk]) -> u128
    ensures count { result ≡ length (bits_of chunks.now) }
    ensures few { result < 2 ^ 96 }
{
    let mut count = 0u128;
    for chunk in chunks {
        count += chunk_width(*chunk);
    }
    count
}

// 2^27 outputs of less than 2^96 bits each fit.
fn register_bits(cells: &[Cell]) -> u128
    requires { length cells.now ≤ 2 ^ 27 }
    ensures { result ≡ sum_by (λ (c : CellOf). length (output_of c)) (filter (λ (c : CellOf). is_register (role_of c.kind)) cells.now) }
{
    let mut bits = 0;
    for cell in cells {
        if is_register(cell.kind()) {
            bits += bit_count(cell.output());
        }
    }
    bits
}

/// Whether a cell's type is this statement's.
pub fn is_statement(statement: Statement, kind: Kind) -> bool
    ensures { result ≡ is_statement statement kind }
{
    match kind {
        Kind::Statement(said) => said == statement,
        _ => false,
    }
}

// How many statements of a kind there are.
fn statements(cells: &[Cell], statement: Statement) -> usize
    ensures { result ≡ length (filter (λ (c : CellOf). is_statement statement c.kind) cells.now) }
{
    let mut count = 0;
    for cell in cells {
        if is_statement(statement, cell.kind()) {
            count += 1;
        }
    }
    count
}

/// What the design line counts of a design.
pub fn counts_of(design: &Design) -> Counts
    ensures counts { result ≡ counts_of design.now }
    ensures design { IsDesign design.now }
{
    let cells = design.cells();
    Counts {
        registers: register_bits(cells),
        asserts: statements(cells, Statement::Assert),
        assumes: statements(cells, Statement::Assume),
        covers: statements(cells, Statement::Cover),
    }
}
