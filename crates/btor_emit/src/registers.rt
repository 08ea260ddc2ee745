// What registers have next.

ghost use Rattle.std.specs.Prelude.{◌≡◌, ◌+◌, ◌*◌, ◌<◌, ◌≤◌, Bool, Some, [], ◌∷◌, cond, not, OnOk, IfOk, length, slice_get};
ghost use Rattle.btor_core.specs.Fits.{IsBtor, IsUntied};
ghost use Rattle.btor_core.specs.Shape.{nexts, state_at};
ghost use Rattle.cell_table.specs.Cells.{slice_fn};
ghost use Rattle.btor_core.specs.Meaning.{Values};
ghost use Rattle.btor_words.specs.Emitting.{IsWord};
ghost use Rattle.btor_emit.specs.Nexts.{AreNexts, AreParts, AreStateLines, HasNext, MayHaveParts};
ghost use Rattle.btor_emit.specs.Nodes.{IsReady};
ghost use Rattle.btor_emit.specs.Table.{AreSeats, Puts, cycle_of};
ghost use Rattle.model_core.specs.Meaning.{is_active, next_row, row_at};
ghost use Rattle.model_core.specs.Served.{IsModel};
ghost use Rattle.model_core.specs.Shape.{RegisterOf};

use crate::operands::pair;
use crate::shape::State;
use crate::table::{Seat, gather};
use btor_core::draft::{Draft, DraftFault};
use btor_core::line::Word;
use btor_words::{mux, slice};
use model_core::model::{Control, WordModel};

// Whether the control is active, where it is the same in each cycle.
fn constant(table: &[Seat], control: Control) -> Option<bool>
    requires { control.place < length table.now }
    ensures { (x : Bool) → result ≡ Some x → (vs : Values) → is_active (cycle_of table.now vs) control ≡ x }
{
    match table[control.place as usize] {
        Seat::Digit(digit) => Some(digit == control.level),
        Seat::Bit(_, _) => None,
    }
}

// The first word where the control is active, else the second.
fn choose(
    draft: &mut Draft,
    table: &mut [Seat],
    control: Control,
    then: Word,
    other: Word,
) -> Result<Word, DraftFault>
    requires control { IsReady draft.old table.old (control.place ∷ []) }
    requires then { IsWord draft.old then }
    requires other { IsWord draft.old other }
    requires widths { other.width ≡ then.width }
    ensures { IfOk result (λ r. Puts draft.old draft.new table.old table.new r then.width 6 (λ vs. cond (is_active (cycle_of table.old vs) control) (vs then.nid) (vs other.nid))) }
{
    let bit = gather(draft, table, &[control.place])?;
    if control.level {
        let word = mux(draft, other, then, bit)?;
        return Ok(word);
    }
    let word = mux(draft, then, other, bit)?;
    Ok(word)
}

// The first row where the control is active, else the second.
fn either(
    draft: &mut Draft,
    table: &mut [Seat],
    control: Control,
    then: &[u32],
    other: &[u32],
) -> Result<Word, DraftFault>
    requires control { IsReady draft.old table.old (control.place ∷ []) }
    requires then { IsReady draft.old table.old then.now }
    requires other { IsReady draft.old table.old other.now }
    requires widths { length other.now ≡ length then.now }
    ensures { IfOk result (λ r. Puts draft.old draft.new table.old table.new r (length then.now) (8 * length then.now + 6) (λ vs. cond (is_active (cycle_of table.old vs) control) (row_at (cycle_of table.old vs) then.now) (row_at (cycle_of table.old vs) other.now))) }
{
    match constant(table, control) {
        Some(true) => gather(draft, table, then),
        Some(false) => gather(draft, table, other),
        None => {
            let (first, second) = pair(draft, table, then, other)?;
            let word = choose(draft, table, control, first, second)?;
            Ok(word)
        }
    }
}

// Two controls over three rows: the first row where the outer control is active, else what the inner one chooses.
fn nested(
    draft: &mut Draft,
    table: &mut [Seat],
    outer: Control,
    row: &[u32],
    inner: Control,
    then: &[u32],
    other: &[u32],
) -> Result<Word, DraftFault>
    requires outer { IsReady draft.old table.old (outer.place ∷ []) }
    requires inner { IsReady draft.old table.old (inner.place ∷ []) }
    requires row { IsReady draft.old table.old row.now }
    requires then { IsReady draft.old table.old then.now }
    requires other { IsReady draft.old table.old other.now }
    requires width { length then.now ≡ length row.now }
    requires widths { length other.now ≡ length row.now }
    ensures { IfOk result (λ r. Puts draft.old draft.new table.old table.new r (length row.now) (12 * length row.now + 12) (λ vs. cond (is_active (cycle_of table.old vs) outer) (row_at (cycle_of table.old vs) row.now) (cond (is_active (cycle_of table.old vs) inner) (row_at (cycle_of table.old vs) then.now) (row_at (cycle_of table.old vs) other.now)))) }
{
    match constant(table, outer) {
        Some(true) => {
            let word = gather(draft, table, row)?;
            Ok(word)
        }
        Some(false) => either(draft, table, inner, then, other),
        None => {
            let chosen = either(draft, table, inner, then, other)?;
            let first = gather(draft, table, row)?;
            let word = choose(draft, table, outer, first, chosen)?;
            Ok(word)
        }
    }
}

// The control that is active where this one isn't.
fn opposite(control: Control) -> Control
    ensures place { result.place ≡ control.place }
    ensures level { result.level ≡ not control.level }
{
    Control {
        place: control.place,
        level: !control.level,
    }
}

// The row that a register has next.
fn next_row(
    draft: &mut Draft,
    table: &mut [Seat],
    model: &WordModel,
    register: usize,
) -> Result<Word, DraftFault>
    requires model { IsModel model.now }
    requires register { register < length model.now.registers }
    requires btor { IsBtor draft.old }
    requires seats { AreSeats draft.old table.old }
    requires size { length table.old ≡ model.now.size }
    ensures { IfOk result (λ row. (r : RegisterOf) → slice_get model.now.registers register ≡ Some r → Puts draft.old draft.new table.old table.new row (length r.q) (12 * length r.q + 12) (λ vs. next_row (cycle_of table.old vs) r)) }
{
    let q = model.q(register);
    let d = model.d(register);
    let value = model.value(register);
    let enable = model.enable(register);
    let reset = model.reset(register);
    if model.reset_first(register) {
        let row = nested(draft, table, reset, value, enable, d, q)?;
        return Ok(row);
    }
    let row = nested(draft, table, opposite(enable), q, reset, value, d)?;
    Ok(row)
}

// The state has next its part of the row, from this bit on.
fn push_part(draft: &mut Draft, state: Word, row: Word, offset: u32) -> Result<(), DraftFault>
    requires row { IsWord draft.old row }
    requires inside { offset + state.width ≤ row.width }
    requires state { state_at draft.old.lines state.nid ≡ state.width }
    requires some { 1 ≤ state.width }
    requires first { IsUntied (nexts draft.old.lines) state.nid }
    ensures { OnOk result (HasNext draft.old draft.new state (λ vs. slice_fn state.width offset (vs row.nid))) }
{
    let part = slice(draft, row, offset, state.width)?;
    draft.next(state, part)?;
    draft.promise();
    Ok(())
}

// The states from this one on that begin before `end`, of a register whose bits begin at `first`: each has its part of the row next.
// Answers how many states are done.
fn push_parts(
    draft: &mut Draft,
    states: &[State],
    from: usize,
    row: Word,
    first: usize,
    end: usize,
) -> Result<usize, DraftFault>
    requires row { IsWord draft.old row }
    requires parts { MayHaveParts draft.old states.now from row first end }
    ensures { IfOk result (λ to. AreParts draft.old draft.new states.now from to row first end) }
{
    let mut done = from;
    while done < states.len() {
        let state = states[done];
        if state.first >= end {
            return Ok(done);
        }
        push_part(draft, state.word, row, (state.first - first) as u32)?;
        done += 1;
    }
    Ok(done)
}

/// What each state has next.
pub fn push_nexts(
    draft: &mut Draft,
    table: &mut [Seat],
    model: &WordModel,
    states: &[State],
) -> Result<(), DraftFault>
    requires model { IsModel model.now }
    requires btor { IsBtor draft.old }
    requires seats { AreSeats draft.old table.old }
    requires size { length table.old ≡ model.now.size }
    requires states { AreStateLines model.now draft.old states.now }
    requires none { nexts draft.old.lines ≡ [] }
    ensures { OnOk result (AreNexts model.now draft.old draft.new table.old table.new states.now (length states.now)) }
{
    let _bits = model.states().len();
    let mut first = 0;
    let mut done = 0;
    for register in 0..model.registers() {
        let end = first + model.q(register).len();
        let row = next_row(draft, table, model, register)?;
        done = push_parts(draft, states, done, row, first, end)?;
        first = end;
    }
    Ok(())
}
