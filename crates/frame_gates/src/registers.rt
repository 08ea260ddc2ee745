// What registers have in the next frame.

ghost use Rattle.std.specs.Prelude.{◌≡◌, ◌<◌, ◌*◌, ℕ, All, IfOk, length, slice_get, Some, cond};
ghost use Rattle.std.specs.List.{sum_by};
ghost use Rattle.cnf_form.specs.Cnf.{Assignment, LitWithin, lit_in};
ghost use Rattle.gate_rows.specs.Literals.{Builds, IsFull, MeansRow, row_of};
ghost use Rattle.model_core.specs.Meaning.{is_active, next_row, next_states};
ghost use Rattle.model_core.specs.Served.{IsModel};
ghost use Rattle.model_core.specs.Shape.{RegisterOf};
ghost use Rattle.frame_gates.specs.Costs.{next_gates};
ghost use Rattle.frame_gates.specs.Frames.{IsTable, cycle_of};

use crate::rows::{Words, read_row};
use cnf_form::Lit;
use gate_graph::{GateFault, Gates};
use model_core::model::{Control, WordModel};
use std::alloc::Global;

// The literal that a control bit has its level.
fn active(table: &[Lit], control: Control) -> Lit
    requires { control.place < length table.now }
    ensures within { (n : ℕ) → All (LitWithin n) table.now → LitWithin n result }
    ensures means { (x : Assignment) → lit_in x result ≡ is_active (cycle_of table.now x) control }
{
    let lit = table[control.place as usize];
    if control.level { lit } else { lit.negate() }
}

// The row at S where `reset` is true, else that at B where `enable` is, else that at A.
fn reset_first(
    alloc: Global,
    gates: &mut Gates,
    words: &Words,
    enable: Lit,
    reset: Lit,
) -> Result<Vec<Lit>, GateFault>
    requires a { All (LitWithin gates.old.formula.vars) words.now.a.items }
    requires b { All (LitWithin gates.old.formula.vars) words.now.b.items }
    requires s { All (LitWithin gates.old.formula.vars) words.now.s.items }
    requires enable { LitWithin gates.old.formula.vars enable }
    requires reset { LitWithin gates.old.formula.vars reset }
    requires b_width { length words.now.b.items ≡ length words.now.a.items }
    requires s_width { length words.now.s.items ≡ length words.now.a.items }
    ensures row { let row = λ (x : Assignment). cond (lit_in x reset) (row_of x words.now.s.items) (cond (lit_in x enable) (row_of x words.now.b.items) (row_of x words.now.a.items)) in
        IfOk result (λ word. MeansRow gates.new row word.items) }
    ensures builds { Builds gates.old gates.new (2 * length words.now.a.items) }
    ensures too_many { result ≡ Err GateFault.TooMany → IsFull gates.old gates.new (2 * length words.now.a.items) }
{
    let (q, d, value) = (words.a.as_slice(), words.b.as_slice(), words.s.as_slice());
    let kept = gate_words::mux(alloc, gates, q, d, enable)?;
    let next = gate_words::mux(alloc, gates, kept.as_slice(), value, reset)?;
    Ok(next)
}

// Where `enable` is true, the row at S where `reset` is, else that at B; where it isn't, the row at A.
fn enable_first(
    alloc: Global,
    gates: &mut Gates,
    words: &Words,
    enable: Lit,
    reset: Lit,
) -> Result<Vec<Lit>, GateFault>
    requires a { All (LitWithin gates.old.formula.vars) words.now.a.items }
    requires b { All (LitWithin gates.old.formula.vars) words.now.b.items }
    requires s { All (LitWithin gates.old.formula.vars) words.now.s.items }
    requires enable { LitWithin gates.old.formula.vars enable }
    requires reset { LitWithin gates.old.formula.vars reset }
    requires b_width { length words.now.b.items ≡ length words.now.a.items }
    requires s_width { length words.now.s.items ≡ length words.now.a.items }
    ensures row { let row = λ (x : Assignment). cond (lit_in x enable) (cond (lit_in x reset) (row_of x words.now.s.items) (row_of x words.now.b.items)) (row_of x words.now.a.items) in
        IfOk result (λ word. MeansRow gates.new row word.items) }
    ensures builds { Builds gates.old gates.new (2 * length words.now.a.items) }
    ensures too_many { result ≡ Err GateFault.TooMany → IsFull gates.old gates.new (2 * length words.now.a.items) }
{
    let (q, d, value) = (words.a.as_slice(), words.b.as_slice(), words.s.as_slice());
    let taken = gate_words::mux(alloc, gates, d, value, reset)?;
    let next = gate_words::mux(alloc, gates, q, taken.as_slice(), enable)?;
    Ok(next)
}

// What a register keeps for the next frame.
fn next_of(
    alloc: Global,
    gates: &mut Gates,
    model: &WordModel,
    register: usize,
    words: &mut Words,
    table: &[Lit],
) -> Result<Vec<Lit>, GateFault>
    requires model { IsModel model.now }
    requires register { register < length model.now.registers }
    requires table { IsTable model.now gates.old table.now }
    ensures row { IfOk result (λ word. (r : RegisterOf) → slice_get model.now.registers register ≡ Some r → MeansRow gates.new (λ x. next_row (cycle_of table.now x) r) word.items) }
    ensures builds { (r : RegisterOf) → slice_get model.now.registers register ≡ Some r → Builds gates.old gates.new (2 * length r.q) }
    ensures too_many { result ≡ Err GateFault.TooMany → (r : RegisterOf) → slice_get model.now.registers register ≡ Some r → IsFull gates.old gates.new (2 * length r.q) }
{
    read_row(&mut words.a, table, model.q(register))?;
    read_row(&mut words.b, table, model.d(register))?;
    read_row(&mut words.s, table, model.value(register))?;
    let enable = active(table, model.enable(register));
    let reset = active(table, model.reset(register));
    if model.reset_first(register) {
        reset_first(alloc, gates, words, enable, reset)
    } else {
        enable_first(alloc, gates, words, enable, reset)
    }
}

// What the state bits have in the next frame, register by register.
pub fn next_states(
    alloc: Global,
    gates: &mut Gates,
    model: &WordModel,
    words: &mut Words,
    table: &[Lit],
) -> Result<Vec<Lit>, GateFault>
    requires model { IsModel model.now }
    requires table { IsTable model.now gates.old table.now }
    ensures row { IfOk result (λ row. MeansRow gates.new (λ x. next_states model.now (cycle_of table.now x)) row.items) }
    ensures builds { Builds gates.old gates.new (next_gates model.now) }
    ensures too_many { result ≡ Err GateFault.TooMany → IsFull gates.old gates.new (next_gates model.now) }
{
    let mut row = Vec::new(alloc);
    for register in 0..model.registers() {
        let word = next_of(alloc, gates, model, register, words, table)?;
        row.extend_from_slice(word.as_slice())?;
    }
    Ok(row)
}
