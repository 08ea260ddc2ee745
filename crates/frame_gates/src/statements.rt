// What statements say of a frame.

ghost use Rattle.std.specs.Prelude.{◌≡◌, ◌<◌, ◌*◌, ◌&&◌, All, IfOk, Some, length, cond, not, slice_get};
ghost use Rattle.std.specs.List.{list_all};
ghost use Rattle.cnf_form.specs.Cnf.{Assignment, LitWithin, lit_in};
ghost use Rattle.gate_rows.specs.Literals.{Builds, IsFull, MeansBit};
ghost use Rattle.model_core.specs.Meaning.{Reached};
ghost use Rattle.model_core.specs.Shape.{IsStatement};
ghost use Rattle.frame_gates.specs.Frames.{cycle_of};
ghost use Rattle.frame_gates.specs.Rows.{holds};

use cnf_form::Lit;
use gate_graph::{GateFault, Gates};
use model_core::model::Statement;

// The literal that a statement has EN 1 and A at this level.
pub fn speaks(
    gates: &mut Gates,
    table: &[Lit],
    statement: Statement,
    level: bool,
) -> Result<Lit, GateFault>
    requires table { All (LitWithin gates.old.formula.vars) table.now }
    requires statement { IsStatement (length table.now) statement }
    ensures bit { let c = λ (x : Assignment). cycle_of table.now x in
        IfOk result (MeansBit gates.new (λ x. c x statement.en && cond level (c x statement.a) (not (c x statement.a)))) }
    ensures builds { Builds gates.old gates.new 1 }
    ensures too_many { result ≡ Err GateFault.TooMany → IsFull gates.old gates.new 1 }
{
    let enabled = table[statement.en as usize];
    let said = table[statement.a as usize];
    let wanted = if level { said } else { gates.not(said) };
    let lit = gates.and(enabled, wanted)?;
    Ok(lit)
}

// The literal that another is true, and the statement has not EN 1 and A 0.
fn and_holds(
    gates: &mut Gates,
    table: &[Lit],
    statement: Statement,
    all: Lit,
) -> Result<Lit, GateFault>
    requires table { All (LitWithin gates.old.formula.vars) table.now }
    requires statement { IsStatement (length table.now) statement }
    requires all { LitWithin gates.old.formula.vars all }
    ensures bit { IfOk result (MeansBit gates.new (λ x. lit_in x all && holds (cycle_of table.now x) statement)) }
    ensures builds { Builds gates.old gates.new 2 }
    ensures too_many { result ≡ Err GateFault.TooMany → IsFull gates.old gates.new 2 }
{
    let fails = speaks(gates, table, statement, false)?;
    let lit = gates.and(all, gates.not(fails))?;
    Ok(lit)
}

// The literal that no statement has EN 1 and A 0.
pub fn all_hold(
    gates: &mut Gates,
    table: &[Lit],
    statements: &[Statement],
) -> Result<Lit, GateFault>
    requires table { All (LitWithin gates.old.formula.vars) table.now }
    requires statements { All (IsStatement (length table.now)) statements.now }
    ensures bit { IfOk result (MeansBit gates.new (λ x. list_all (holds (cycle_of table.now x)) statements.now)) }
    ensures builds { Builds gates.old gates.new (2 * length statements.now) }
    ensures too_many { result ≡ Err GateFault.TooMany → IsFull gates.old gates.new (2 * length statements.now) }
{
    let mut all = gates.constant(true);
    for statement in statements {
        all = and_holds(gates, table, *statement, all)?;
    }
    Ok(all)
}

// The statement at a place.
pub fn statement_at(statements: &[Statement], place: usize) -> Statement
    requires { place < length statements.now }
    ensures { slice_get statements.now place ≡ Some result }
{
    statements[place]
}
