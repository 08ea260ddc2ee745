// Registers as states: one for each stretch of bits that all have, or all lack, a start digit.

ghost use Rattle.std.specs.Prelude.{◌≡◌, ◌≢◌, ◌+◌, ◌<◌, ◌≤◌, ℕ, false, [], ◌∷◌, ◌++◌, map, take, OnOk, IfOk, length};
ghost use Rattle.std.specs.List.{flat_map};
ghost use Rattle.std.specs.Option.{unwrap_or};
ghost use Rattle.btor_core.specs.Fits.{IsBtor, IsUntied, IsWidth, MayStart};
ghost use Rattle.btor_core.specs.Growth.{sort_nid, with_body};
ghost use Rattle.btor_core.specs.Shape.{inits, nexts};
ghost use Rattle.btor_core.specs.declared.line.Body.TheVariants.{Init};
ghost use Rattle.btor_core.specs.declared.line.Node.TheVariants as node;
ghost use Rattle.btor_core.specs.declared.line.Word.{Word};
ghost use Rattle.btor_emit.specs.Emitting.{AreStates, IsOpened, IsStarted, IsStateOf};
ghost use Rattle.btor_emit.specs.States.{IsStretchOf, is_known};
ghost use Rattle.model_core.specs.Served.{IsModel};
ghost use Rattle.model_core.specs.Shape.{states};

use crate::shape::State;
use crate::table::{Seat, give};
use btor_core::draft::{Draft, DraftFault};
use btor_core::line::{Node, Word};
use btor_words::constant;
use model_core::model::WordModel;
use std::alloc::{AllocError, Global};

// Whether the state bit has a start digit.
fn is_known(starts: &[Option<bool>], bit: usize) -> bool
    requires { bit < length starts.now }
    ensures { result ≡ is_known starts.now bit }
{
    starts[bit].is_some()
}

/// Where the stretch ends of state bits that all have, or all lack, a start digit: it begins at this one, and goes no further than to `end`.
pub fn stretch(starts: &[Option<bool>], first: usize, end: usize) -> usize
    requires first { first < end }
    requires end { end ≤ length starts.now }
    ensures some { first < result }
    ensures most { result ≤ end }
    ensures alike { (k : ℕ) → first ≤ k → k < result → is_known starts.now k ≡ is_known starts.now first }
    ensures longest { result < end → is_known starts.now result ≢ is_known starts.now first }
{
    let has_start = is_known(starts, first);
    let mut next = first + 1;
    while next < end {
        if is_known(starts, next) != has_start {
            return next;
        }
        next += 1;
    }
    next
}

// The digits, 0 where there is none.
fn digits(alloc: Global, starts: &[Option<bool>]) -> Result<Vec<bool>, AllocError>
    ensures { IfOk result (λ bits. bits.items ≡ map (λ d. unwrap_or d false) starts.now) }
{
    let mut bits = Vec::with_capacity(alloc, starts.len())?;
    for start in starts {
        bits.push(start.unwrap_or(false))?;
    }
    Ok(bits)
}

// A state that may start with any row.
fn free(draft: &mut Draft, width: u32) -> Result<Word, DraftFault>
    requires width { IsWidth width }
    ensures { IfOk result (λ a. IsOpened draft.old draft.new a width node.State []) }
{
    draft.promise();
    let word = draft.push(width, Node::State)?;
    draft.promise();
    Ok(word)
}

// The state starts as the value.
fn begin(draft: &mut Draft, state: Word, value: Word) -> Result<(), DraftFault>
    requires { MayStart draft.old.lines state value }
    ensures ok { OnOk result (draft.new ≡ with_body draft.old (Init (sort_nid draft.old.lines state.width) state.nid value.nid)) }
    ensures btor { OnOk result (IsBtor draft.new) }
{
    draft.init(state, value)?;
    draft.promise();
    Ok(())
}

// A state that starts with these digits, whose line stands after that of its first value.
fn started(draft: &mut Draft, bits: &[bool]) -> Result<Word, DraftFault>
    requires width { IsWidth (length bits.now) }
    requires untied { (k : ℕ) → length draft.old.lines < k → IsUntied (inits draft.old.lines) k }
    requires first { nexts draft.old.lines ≡ [] }
    ensures { IfOk result (λ a. IsStarted draft.old draft.new a bits.now) }
{
    draft.promise();
    let value = constant(draft, bits)?;
    let word = free(draft, bits.len() as u32)?;
    begin(draft, word, value)?;
    Ok(word)
}

// The state of a stretch.
fn state_word(
    alloc: Global,
    draft: &mut Draft,
    starts: &[Option<bool>],
    has_start: bool,
) -> Result<Word, DraftFault>
    requires width { IsWidth (length starts.now) }
    requires untied { (k : ℕ) → length draft.old.lines < k → IsUntied (inits draft.old.lines) k }
    requires first { nexts draft.old.lines ≡ [] }
    ensures { IfOk result (λ a. IsStateOf draft.old draft.new a starts.now has_start) }
{
    if has_start {
        let bits = digits(alloc, starts)?;
        let word = started(draft, &bits)?;
        return Ok(word);
    }
    let word = free(draft, starts.len() as u32)?;
    Ok(word)
}

// One state more.
fn keep(made: &mut Vec<State>, state: State) -> Result<(), AllocError>
    ensures { OnOk result (made.new.items ≡ made.old.items ++ state ∷ []) }
{
    made.push(state)?;
    Ok(())
}

// Adds the state of the state bits from `first` to `end`.
fn push_state(
    alloc: Global,
    draft: &mut Draft,
    table: &mut [Seat],
    model: &WordModel,
    made: &mut Vec<State>,
    first: usize,
    end: usize,
) -> Result<(), DraftFault>
    requires model { IsModel model.now }
    requires states { AreStates model.now draft.old table.old made.old.items first }
    requires some { first < end }
    requires inside { end ≤ length (states model.now) }
    requires width { end ≤ first + 4096 }
    requires stretch { (a : Word) → a.width + first ≡ end → IsStretchOf model.now (record { word = a; first = first; has_start = is_known model.now.starts first }) }
    ensures { OnOk result (AreStates model.now draft.new table.new made.new.items end) }
{
    draft.promise();
    let has_start = is_known(model.starts(), first);
    let word = state_word(alloc, draft, &model.starts()[first..end], has_start)?;
    give(table, &model.states()[first..end], word);
    let state = State {
        word,
        first,
        has_start,
    };
    keep(made, state)?;
    Ok(())
}

// Adds the states of a register, whose bits stand from `first` to `end`.
fn push_register(
    alloc: Global,
    draft: &mut Draft,
    table: &mut [Seat],
    model: &WordModel,
    made: &mut Vec<State>,
    register: usize,
    first: usize,
) -> Result<(), DraftFault>
    requires model { IsModel model.now }
    requires register { register < length model.now.registers }
    requires first { first ≡ length (flat_map (λ r. r.q) (take register model.now.registers)) }
    requires states { AreStates model.now draft.old table.old made.old.items first }
    ensures { OnOk result (AreStates model.now draft.new table.new made.new.items (length (flat_map (λ r. r.q) (take (register + 1) model.now.registers)))) }
{
    let _bits = model.states().len();
    let end = first + model.q(register).len();
    let mut next = first;
    while next < end {
        let stop = stretch(model.starts(), next, end);
        push_state(alloc, draft, table, model, made, next, stop)?;
        next = stop;
    }
    Ok(())
}

/// All states.
pub fn push_states(
    alloc: Global,
    draft: &mut Draft,
    table: &mut [Seat],
    model: &WordModel,
) -> Result<Vec<State>, DraftFault>
    requires model { IsModel model.now }
    requires none { AreStates model.now draft.old table.old [] 0 }
    ensures { IfOk result (λ ss. AreStates model.now draft.new table.new ss.items (length (states model.now))) }
{
    let _bits = model.states().len();
    let mut made = Vec::new(alloc);
    let mut first = 0;
    for register in 0..model.registers() {
        push_register(alloc, draft, table, model, &mut made, register, first)?;
        first += model.q(register).len();
    }
    Ok(made)
}
