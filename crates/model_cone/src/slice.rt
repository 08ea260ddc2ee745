// The slice of a model.

ghost use Rattle.std.specs.Prelude.{◌≡◌, ◌++◌, ◌∷◌, [], ◌<◌, ◌^◌, IfOk, OnOk, Some, not, length, map, slice_get};
ghost use Rattle.std.specs.List.{filter};
ghost use Rattle.model_core.specs.Served.{IsModel};
ghost use Rattle.model_core.specs.Shape.{AreBelow, NodeOf, RegisterOf, states};
ghost use Rattle.model_cone.specs.Cone.{IsCone};
ghost use Rattle.model_cone.specs.Slice.{IsSliceOf, has_kept, kept_at, kept_by, kept_registers, sliced, sliced_node, zeroes};

use crate::asked::Asked;
use crate::cone::cone;
use model_core::draft::Draft;
use model_core::model::WordModel;
use model_core::op::Op;
use std::alloc::{AllocError, Global};

// The rows of the register that is added, by its bits that are kept.
#[derive(Drop)]
struct Rows {
    q: Vec<u32>,
    d: Vec<u32>,
    value: Vec<u32>,
    starts: Vec<Option<bool>>,
}

// Makes the row of those elements of another, of which each stands for a place, whose places are kept.
fn keep<T: Copy>(
    kept: &mut Vec<T>,
    marks: &[bool],
    places: &[u32],
    row: &[T],
) -> Result<(), AllocError>
    requires marks { AreBelow (length marks.now) places.now }
    requires row { length row.now ≡ length places.now }
    ensures { OnOk result (kept.new.items ≡ kept_at (kept_by marks.now) places.now row.now) }
{
    kept.clear();
    for k in 0..places.len() {
        if marks[places[k] as usize] {
            kept.push(row[k])?;
        }
    }
    Ok(())
}

// Whether one of these places is kept.
fn has_kept(marks: &[bool], places: &[u32]) -> bool
    requires { AreBelow (length marks.now) places.now }
    ensures { result ≡ has_kept (kept_by marks.now) places.now }
{
    for place in places {
        if marks[*place as usize] {
            return true;
        }
    }
    false
}

// Adds a node that gives 0 to each of these places.
fn push_zeroes(
    draft: &mut Draft,
    row: &mut Vec<u32>,
    zero: u32,
    places: &[u32],
) -> Result<(), AllocError>
    requires { length places.now < 2 ^ 32 }
    ensures { OnOk result (draft.new ≡ record draft.old { nodes = draft.old.nodes ++ zeroes zero places.now ∷ [] }) }
{
    row.clear();
    row.resize(places.len(), zero)?;
    draft.push_node(Op::Copy, row, &[], &[], places)
}

// Adds a node as it is where an output of it is kept, else zeroes.
fn push_node(
    draft: &mut Draft,
    model: &WordModel,
    marks: &[bool],
    row: &mut Vec<u32>,
    node: usize,
) -> Result<(), AllocError>
    requires model { IsModel model.now }
    requires marks { length marks.now ≡ model.now.size }
    requires node { node < length model.now.nodes }
    ensures { OnOk result ((n : NodeOf) → slice_get model.now.nodes node ≡ Some n →
        draft.new ≡ record draft.old { nodes = draft.old.nodes ++ sliced_node (kept_by marks.now) model.now.zero n ∷ [] }) }
{
    let y = model.y(node);
    if has_kept(marks, y) {
        draft.push_node(
            model.op(node),
            model.a(node),
            model.b(node),
            model.s(node),
            y,
        )?;
    } else {
        push_zeroes(draft, row, model.zero(), y)?;
    }
    Ok(())
}

// Adds all nodes, with zeroes for those of which nothing is kept.
fn push_nodes(
    draft: &mut Draft,
    model: &WordModel,
    marks: &[bool],
    row: &mut Vec<u32>,
) -> Result<(), AllocError>
    requires model { IsModel model.now }
    requires marks { length marks.now ≡ model.now.size }
    ensures { OnOk result (draft.new ≡ record draft.old { nodes = draft.old.nodes ++ map (sliced_node (kept_by marks.now) model.now.zero) model.now.nodes }) }
{
    for node in 0..model.nodes() {
        push_node(draft, model, marks, row, node)?;
    }
    Ok(())
}

// Adds a zero for a place that is not kept.
fn push_left_bit(draft: &mut Draft, zero: u32, marks: &[bool], place: u32) -> Result<(), AllocError>
    requires { place < length marks.now }
    ensures { OnOk result (draft.new ≡ record draft.old { nodes = draft.old.nodes ++ map (λ p. zeroes zero (p ∷ [])) (filter (λ p. not (kept_by marks.now p)) (place ∷ [])) }) }
{
    if marks[place as usize] {
        return Ok(());
    }
    draft.push_node(Op::Copy, &[zero], &[], &[], &[place])?;
    Ok(())
}

// Adds zeroes for those of these places that are not kept.
fn push_left_bits(
    draft: &mut Draft,
    zero: u32,
    marks: &[bool],
    places: &[u32],
) -> Result<(), AllocError>
    requires { AreBelow (length marks.now) places.now }
    ensures { OnOk result (draft.new ≡ record draft.old { nodes = draft.old.nodes ++ map (λ p. zeroes zero (p ∷ [])) (filter (λ p. not (kept_by marks.now p)) places.now) }) }
{
    for place in places {
        push_left_bit(draft, zero, marks, *place)?;
    }
    Ok(())
}

// Adds a register of those bits that are kept, if there is one, with the digits that they start with.
fn push_register(
    draft: &mut Draft,
    model: &WordModel,
    marks: &[bool],
    rows: &mut Rows,
    register: usize,
    digits: &[Option<bool>],
) -> Result<(), AllocError>
    requires model { IsModel model.now }
    requires marks { length marks.now ≡ model.now.size }
    requires register { register < length model.now.registers }
    requires digits { (r : RegisterOf) → slice_get model.now.registers register ≡ Some r → length digits.now ≡ length r.q }
    ensures { OnOk result ((r : RegisterOf) → slice_get model.now.registers register ≡ Some r →
        draft.new ≡ record draft.old {
          registers = draft.old.registers ++ kept_registers (kept_by marks.now) (r ∷ []);
          starts = draft.old.starts ++ kept_at (kept_by marks.now) r.q digits.now;
        }) }
{
    let q = model.q(register);
    if !has_kept(marks, q) {
        return Ok(());
    }
    keep(&mut rows.q, marks, q, q)?;
    keep(&mut rows.d, marks, q, model.d(register))?;
    keep(&mut rows.value, marks, q, model.value(register))?;
    keep(&mut rows.starts, marks, q, digits)?;
    draft.push_register(
        &rows.q,
        &rows.d,
        &rows.value,
        model.enable(register),
        model.reset(register),
        model.reset_first(register),
        &rows.starts,
    )?;
    Ok(())
}

// Adds the registers of the bits that are kept, with the digits that they start with.
fn push_registers(
    draft: &mut Draft,
    model: &WordModel,
    marks: &[bool],
    rows: &mut Rows,
) -> Result<(), AllocError>
    requires model { IsModel model.now }
    requires marks { length marks.now ≡ model.now.size }
    ensures { OnOk result (draft.new ≡ record draft.old {
      registers = draft.old.registers ++ kept_registers (kept_by marks.now) model.now.registers;
      starts = draft.old.starts ++ kept_at (kept_by marks.now) (states model.now) model.now.starts;
    }) }
{
    let mut left = model.starts();
    for register in 0..model.registers() {
        let (digits, rest) = left.split_at(model.q(register).len());
        push_register(draft, model, marks, rows, register, digits)?;
        left = rest;
    }
    Ok(())
}

// Adds the inputs that are kept.
fn push_inputs(draft: &mut Draft, model: &WordModel, marks: &[bool]) -> Result<(), AllocError>
    requires model { IsModel model.now }
    requires marks { length marks.now ≡ model.now.size }
    ensures { OnOk result (draft.new ≡ record draft.old { inputs = draft.old.inputs ++ filter (kept_by marks.now) model.now.inputs }) }
{
    let inputs = model.inputs();
    for k in 0..inputs.len() {
        let place = inputs[k];
        if marks[place as usize] {
            draft.push_input(place)?;
        }
    }
    Ok(())
}

// Adds all statements.
fn push_statements(draft: &mut Draft, model: &WordModel) -> Result<(), AllocError>
    ensures { OnOk result (draft.new ≡ record draft.old {
      asserts = draft.old.asserts ++ model.now.asserts;
      assumes = draft.old.assumes ++ model.now.assumes;
      covers = draft.old.covers ++ model.now.covers;
    }) }
{
    for statement in model.asserts() {
        draft.push_assert(*statement)?;
    }
    for statement in model.assumes() {
        draft.push_assume(*statement)?;
    }
    for statement in model.covers() {
        draft.push_cover(*statement)?;
    }
    Ok(())
}

/// The slice of a model to a cone that has a mark for each of its places.
pub fn cut(alloc: Global, model: &WordModel, marks: &[bool]) -> Result<WordModel, AllocError>
    requires size { length marks.now ≡ model.now.size }
    requires cone { (asked : Asked) × IsCone model.now asked (kept_by marks.now) }
    ensures model { IfOk result (λ s. IsModel s) }
    ensures slice { IfOk result (λ s. s ≡ sliced (kept_by marks.now) model.now) }
{
    let mut row = Vec::new(alloc);
    let mut rows = Rows {
        q: Vec::new(alloc),
        d: Vec::new(alloc),
        value: Vec::new(alloc),
        starts: Vec::new(alloc),
    };
    let mut draft = Draft::new(alloc, model.size(), model.zero());
    push_nodes(&mut draft, model, marks, &mut row)?;
    push_left_bits(&mut draft, model.zero(), marks, model.states())?;
    push_left_bits(&mut draft, model.zero(), marks, model.inputs())?;
    push_registers(&mut draft, model, marks, &mut rows)?;
    push_inputs(&mut draft, model, marks)?;
    push_statements(&mut draft, model)?;
    Ok(draft.finish())
}

/// The slice of a model to the cone of what is asked: a model over the same places, whose windows and runs are the model's in the cone.
pub fn slice(alloc: Global, model: &WordModel, asked: Asked) -> Result<WordModel, AllocError>
    ensures { IfOk result (λ s. IsSliceOf model.now asked s) }
{
    let marks = cone(alloc, model, asked)?;
    let slice = cut(alloc, model, &marks)?;
    Ok(slice)
}
