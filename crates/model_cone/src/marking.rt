// Marks of places.

ghost use Rattle.std.specs.Prelude.{◌≡◌, ◌⊎◌, ◌<◌, length, All, Contains, OnOk};
ghost use Rattle.model_core.specs.Served.{IsModel};
ghost use Rattle.model_core.specs.Shape.{AreBelow, IsStatement};
ghost use Rattle.model_cone.specs.Cone.{IsRoot};
ghost use Rattle.model_cone.specs.Marking.{IsAskedPlace, IsGiverOf, IsPlaceOf, IsReadBy, Spreads};

use crate::asked::Asked;
use crate::givers::Giver;
use model_core::model::{Statement, WordModel};
use std::alloc::AllocError;

// A mark for each place, and the marked places that are yet to be visited, each of them once.
#[derive(Drop)]
pub struct Marking {
    pub marks: Vec<bool>,
    pub stack: Vec<u32>,
}

// Marks a place.
fn mark(marking: &mut Marking, place: u32) -> Result<(), AllocError>
    requires { place < length marking.old.marks.items }
    ensures { OnOk result (Spreads (λ p. p ≡ place) marking.old.marks.items marking.old.stack.items marking.new.marks.items marking.new.stack.items) }
{
    if !marking.marks[place as usize] {
        marking.stack.push(place)?;
        marking.marks[place as usize] = true;
    }
    Ok(())
}

// Marks places.
fn mark_all(marking: &mut Marking, places: &[u32]) -> Result<(), AllocError>
    requires { AreBelow (length marking.old.marks.items) places.now }
    ensures { OnOk result (Spreads (Contains places.now) marking.old.marks.items marking.old.stack.items marking.new.marks.items marking.new.stack.items) }
{
    for place in places {
        mark(marking, *place)?;
    }
    Ok(())
}

// Marks the places of a statement.
fn mark_statement(marking: &mut Marking, statement: Statement) -> Result<(), AllocError>
    requires { IsStatement (length marking.old.marks.items) statement }
    ensures { OnOk result (Spreads (λ p. (p ≡ statement.a) ⊎ (p ≡ statement.en)) marking.old.marks.items marking.old.stack.items marking.new.marks.items marking.new.stack.items) }
{
    mark(marking, statement.a)?;
    mark(marking, statement.en)?;
    Ok(())
}

// Marks the places of statements.
fn mark_statements(marking: &mut Marking, statements: &[Statement]) -> Result<(), AllocError>
    requires { All (IsStatement (length marking.old.marks.items)) statements.now }
    ensures { OnOk result (Spreads (IsPlaceOf statements.now) marking.old.marks.items marking.old.stack.items marking.new.marks.items marking.new.stack.items) }
{
    for statement in statements {
        mark_statement(marking, *statement)?;
    }
    Ok(())
}

// Marks the places of the statements that are asked.
fn mark_asked(marking: &mut Marking, model: &WordModel, asked: Asked) -> Result<(), AllocError>
    requires model { IsModel model.now }
    requires size { length marking.old.marks.items ≡ model.now.size }
    ensures { OnOk result (Spreads (IsAskedPlace model.now asked) marking.old.marks.items marking.old.stack.items marking.new.marks.items marking.new.stack.items) }
{
    match asked {
        Asked::Asserts => {
            mark_statements(marking, model.asserts())?;
            Ok(())
        }
        Asked::Covers => {
            mark_statements(marking, model.covers())?;
            Ok(())
        }
    }
}

// Marks the constants, and the places of the assumptions and of what is asked.
pub fn mark_roots(marking: &mut Marking, model: &WordModel, asked: Asked) -> Result<(), AllocError>
    requires model { IsModel model.now }
    requires size { length marking.old.marks.items ≡ model.now.size }
    ensures { OnOk result (Spreads (IsRoot model.now asked) marking.old.marks.items marking.old.stack.items marking.new.marks.items marking.new.stack.items) }
{
    mark(marking, model.zero())?;
    mark(marking, model.zero() + 1)?;
    mark_statements(marking, model.assumes())?;
    mark_asked(marking, model, asked)?;
    Ok(())
}

// Marks what a node reads.
fn mark_node(marking: &mut Marking, model: &WordModel, node: usize) -> Result<(), AllocError>
    requires model { IsModel model.now }
    requires node { node < length model.now.nodes }
    requires size { length marking.old.marks.items ≡ model.now.size }
    ensures { OnOk result (Spreads (IsReadBy model.now (Giver.Node node)) marking.old.marks.items marking.old.stack.items marking.new.marks.items marking.new.stack.items) }
{
    mark_all(marking, model.a(node))?;
    mark_all(marking, model.b(node))?;
    mark_all(marking, model.s(node))?;
    Ok(())
}

// Marks what decides, beside the bit itself, what a bit of a register has next.
fn mark_bit(
    marking: &mut Marking,
    model: &WordModel,
    register: usize,
    bit: usize,
) -> Result<(), AllocError>
    requires model { IsModel model.now }
    requires bit { IsGiverOf model.now (Giver.Bit register bit) }
    requires size { length marking.old.marks.items ≡ model.now.size }
    ensures { OnOk result (Spreads (IsReadBy model.now (Giver.Bit register bit)) marking.old.marks.items marking.old.stack.items marking.new.marks.items marking.new.stack.items) }
{
    mark(marking, model.d(register)[bit])?;
    mark(marking, model.value(register)[bit])?;
    mark(marking, model.enable(register).place)?;
    mark(marking, model.reset(register).place)?;
    Ok(())
}

// Marks what decides the place of a giver.
pub fn mark_reads(marking: &mut Marking, model: &WordModel, giver: Giver) -> Result<(), AllocError>
    requires model { IsModel model.now }
    requires giver { IsGiverOf model.now giver }
    requires size { length marking.old.marks.items ≡ model.now.size }
    ensures { OnOk result (Spreads (IsReadBy model.now giver) marking.old.marks.items marking.old.stack.items marking.new.marks.items marking.new.stack.items) }
{
    match giver {
        Giver::Node(node) => mark_node(marking, model, node),
        Giver::Bit(register, bit) => mark_bit(marking, model, register, bit),
        Giver::Other => Ok(()),
    }
}
