// The bits of a model that are read.

ghost use Rattle.std.specs.Prelude.{◌≡◌, ◌↔◌, ◌<◌, ℕ, false, All, Contains, IfOk, Some, length, replicate, slice_get};
ghost use Rattle.btor_emit.specs.Marks.{HasMarkedCopy, IsMarked, IsNodeMarked, IsOfStatement, Marks};
ghost use Rattle.btor_emit.specs.Reads.{IsRead, register_reads};
ghost use Rattle.model_core.specs.Served.{IsModel};
ghost use Rattle.model_core.specs.Shape.{AreBelow, IsStatement, NodeOf, RegisterOf};

use model_core::model::{Statement, WordModel};
use model_core::op::Op;
use std::alloc::{AllocError, Global};

// Marks a place.
fn mark(marks: &mut [bool], place: u32)
    requires { place < length marks.old }
    ensures { Marks marks.old marks.new (λ p. p ≡ place) }
{
    marks[place as usize] = true;
}

// Marks places.
pub(crate) fn mark_all(marks: &mut [bool], places: &[u32])
    requires { AreBelow (length marks.old) places.now }
    ensures { Marks marks.old marks.new (Contains places.now) }
{
    for k in 0..places.len() {
        mark(marks, places[k]);
    }
}

// Marks the places of statements.
fn mark_statements(marks: &mut [bool], statements: &[Statement])
    requires { All (IsStatement (length marks.old)) statements.now }
    ensures { Marks marks.old marks.new (IsOfStatement statements.now) }
{
    for k in 0..statements.len() {
        let statement = statements[k];
        mark(marks, statement.a);
        mark(marks, statement.en);
    }
}

// Marks what a register reads.
fn mark_register(marks: &mut [bool], model: &WordModel, register: usize)
    requires model { IsModel model.now }
    requires register { register < length model.now.registers }
    requires size { length marks.old ≡ model.now.size }
    ensures { (r : RegisterOf) → slice_get model.now.registers register ≡ Some r → Marks marks.old marks.new (Contains (register_reads r)) }
{
    let enable = model.enable(register);
    let reset = model.reset(register);
    mark_all(marks, model.d(register));
    mark_all(marks, model.value(register));
    mark(marks, enable.place);
    mark(marks, reset.place);
}

// Marks a place whose copy is marked.
fn mark_original(marks: &mut [bool], place: u32, copy: u32)
    requires place { place < length marks.old }
    requires copy { copy < length marks.old }
    ensures { Marks marks.old marks.new (λ p. (p ≡ place) × IsMarked marks.old copy) }
{
    if marks[copy as usize] {
        mark(marks, place);
    }
}

// Marks each place whose copy is marked.
fn mark_copied(marks: &mut [bool], places: &[u32], copies: &[u32])
    requires places { AreBelow (length marks.old) places.now }
    requires copies { AreBelow (length marks.old) copies.now }
    requires same { length copies.now ≡ length places.now }
    requires apart { (p : ℕ) → Contains copies.now p → Contains places.now p → ⊥ }
    ensures { Marks marks.old marks.new (HasMarkedCopy marks.old places.now copies.now) }
{
    for k in 0..places.len() {
        mark_original(marks, places[k], copies[k]);
    }
}

// Marks what a node reads; of a copy that whose copy is marked.
fn mark_node(marks: &mut [bool], model: &WordModel, node: usize)
    requires model { IsModel model.now }
    requires node { node < length model.now.nodes }
    requires size { length marks.old ≡ model.now.size }
    ensures { (n : NodeOf) → slice_get model.now.nodes node ≡ Some n → Marks marks.old marks.new (IsNodeMarked marks.old n) }
{
    match model.op(node) {
        Op::Copy => mark_copied(marks, model.a(node), model.y(node)),
        _ => {
            mark_all(marks, model.a(node));
            mark_all(marks, model.b(node));
            mark_all(marks, model.s(node));
        }
    }
}

// Marks what is read. What a node gives is read by later ones alone, so the last node comes first.
fn mark_read(marks: &mut [bool], model: &WordModel)
    requires model { IsModel model.now }
    requires none { marks.old ≡ replicate model.now.size false }
    ensures size { length marks.new ≡ model.now.size }
    ensures read { (p : ℕ) → IsMarked marks.new p ↔ IsRead model.now p }
{
    mark_statements(marks, model.asserts());
    mark_statements(marks, model.assumes());
    mark_statements(marks, model.covers());
    for register in 0..model.registers() {
        mark_register(marks, model, register);
    }
    let mut left = model.nodes();
    while left > 0 {
        left -= 1;
        mark_node(marks, model, left);
    }
}

/// Which places are read.
pub fn read_places(alloc: Global, model: &WordModel) -> Result<Vec<bool>, AllocError>
    requires { IsModel model.now }
    ensures size { IfOk result (λ marks. length marks.items ≡ model.now.size) }
    ensures read { IfOk result (λ marks. (p : ℕ) → p < model.now.size → IsMarked marks.items p ↔ IsRead model.now p) }
{
    let mut marks = vec![in alloc; false; model.size() as usize]?;
    mark_read(&mut marks, model);
    Ok(marks)
}
