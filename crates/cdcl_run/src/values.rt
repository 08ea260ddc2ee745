// Values as lines.

ghost use Rattle.std.specs.Prelude.{◌≡◌, ◌≤◌, ◌<◌, ◌∷◌, ◌++◌, List, ℕ, not, OnErr, OnOk};
ghost use Rattle.cnf_form.specs.declared.literal.TheConstants.{MAX_VARS};
ghost use Rattle.cnf_form.specs.Dimacs.{literal_text};
ghost use Rattle.sby_edge.specs.Cause.{Rose, greatest};
ghost use Rattle.cdcl_core.specs.Solving.{valued};
ghost use Rattle.cdcl_run.specs.Text.{literals_from};
ghost use Rattle.cdcl_run.specs.Output.{Breaks, Puts};
ghost use Rattle.cdcl_run.specs.Searching.{values_to};
ghost use Rattle.cdcl_run.specs.Text.{AreValueLines, break_text};

use crate::output::{put, put_literal};
use crate::piece::Piece;
use cnf_form::Lit;
use sby_edge::{Failed, Sink};

// Gathers a space and a literal.
fn put_value<S: Sink>(sink: &mut S, piece: &mut Piece, l: Lit) -> Result<(), Failed>
    ensures ok { OnOk result (Puts
        (record { taken = S.taken sink.old; faults = S.faults sink.old; gathered = piece.old })
        (record { taken = S.taken sink.new; faults = S.faults sink.new; gathered = piece.new }) (32 ∷ literal_text l)) }
    ensures failed { OnErr result (Breaks
        (record { taken = S.taken sink.old; faults = S.faults sink.old; gathered = piece.old })
        (record { taken = S.taken sink.new; faults = S.faults sink.new; gathered = piece.new }) (32 ∷ literal_text l)) }
    ensures later { S.faults sink.old ≤ S.faults sink.new }
    ensures stays { S.faults sink.old ≡ greatest → S.faults sink.new ≡ S.faults sink.old }
{
    put(sink, piece, b" ")?;
    put_literal(sink, piece, l)
}

// Gathers a new line after each ten values.
fn put_break<S: Sink>(sink: &mut S, piece: &mut Piece, var: u32) -> Result<(), Failed>
    ensures ok { OnOk result (Puts
        (record { taken = S.taken sink.old; faults = S.faults sink.old; gathered = piece.old })
        (record { taken = S.taken sink.new; faults = S.faults sink.new; gathered = piece.new }) (break_text var)) }
    ensures failed { OnErr result (Breaks
        (record { taken = S.taken sink.old; faults = S.faults sink.old; gathered = piece.old })
        (record { taken = S.taken sink.new; faults = S.faults sink.new; gathered = piece.new }) (break_text var)) }
    ensures later { S.faults sink.old ≤ S.faults sink.new }
{
    if var > 1 && var % 10 == 1 {
        return put(sink, piece, b"\nv");
    }
    Ok(())
}

// Gathers the value of a variable.
fn put_next<S: Sink>(sink: &mut S, piece: &mut Piece, var: u32, value: bool) -> Result<(), Failed>
    requires above { 0 < var }
    requires limit { var ≤ MAX_VARS }
    ensures ok { OnOk result (Puts
        (record { taken = S.taken sink.old; faults = S.faults sink.old; gathered = piece.old })
        (record { taken = S.taken sink.new; faults = S.faults sink.new; gathered = piece.new })
        (break_text var ++ 32 ∷ literal_text (record { var = var; negated = not value }))) }
    ensures failed { OnErr result (Breaks
        (record { taken = S.taken sink.old; faults = S.faults sink.old; gathered = piece.old })
        (record { taken = S.taken sink.new; faults = S.faults sink.new; gathered = piece.new })
        (break_text var ++ 32 ∷ literal_text (record { var = var; negated = not value }))) }
    ensures later { S.faults sink.old ≤ S.faults sink.new }
{
    put_break(sink, piece, var)?;
    put_value(sink, piece, Lit::new(var, !value))
}

// The value of a variable, which is at its number; false where the list ends before it.
fn value_of(values: &[bool], var: u32) -> bool
    ensures { result ≡ valued values.now var }
{
    values.get(var as usize).copied().unwrap_or(false)
}

// Gathers the lines of the values of the variables from 1 to `vars`.
pub(crate) fn put_values<S: Sink>(
    sink: &mut S,
    piece: &mut Piece,
    vars: u32,
    values: &[bool],
) -> Result<(), Failed>
    requires { vars ≤ MAX_VARS }
    ensures ok { OnOk result ((text : List ℕ) × AreValueLines (literals_from 1 (values_to vars values.now)) text × Puts
        (record { taken = S.taken sink.old; faults = S.faults sink.old; gathered = piece.old })
        (record { taken = S.taken sink.new; faults = S.faults sink.new; gathered = piece.new }) text) }
    ensures failed { OnErr result ((text : List ℕ) × AreValueLines (literals_from 1 (values_to vars values.now)) text × Breaks
        (record { taken = S.taken sink.old; faults = S.faults sink.old; gathered = piece.old })
        (record { taken = S.taken sink.new; faults = S.faults sink.new; gathered = piece.new }) text) }
    ensures later { S.faults sink.old ≤ S.faults sink.new }
{
    put(sink, piece, b"v")?;
    for var in 1..vars + 1 {
        put_next(sink, piece, var, value_of(values, var))?;
    }
    put(sink, piece, b" 0\n")
}
