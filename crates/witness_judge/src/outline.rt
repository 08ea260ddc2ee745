// What a model leaves open, without its lines.

ghost use Rattle.std.specs.Prelude.{◌≡◌, ◌+◌, ◌<◌, ◌≤◌, [], ◌∷◌, ◌++◌, IfOk, OnOk, length, take};
ghost use Rattle.std.specs.List.{flat_map};
ghost use Rattle.btor_emit.specs.Reads.{AreReadInputs};
ghost use Rattle.btor_emit.specs.States.{AreStretches};
ghost use Rattle.model_core.specs.Served.{IsModel};
ghost use Rattle.place_rows.specs.Rows.{AreRowsOf};
ghost use Rattle.witness_judge.specs.Outlining.{AreStretchesTo, outlined};

use btor_core::line::Word;
use btor_emit::rows::read_rows;
use btor_emit::shape::{Shape, State};
use btor_emit::states::stretch;
use model_core::model::WordModel;
use place_rows::Rows;
use std::alloc::{AllocError, Global};

// Adds the state of the state bits from `first` to `end`.
fn push_stretch(
    made: &mut Vec<State>,
    starts: &[Option<bool>],
    first: usize,
    end: usize,
) -> Result<(), AllocError>
    requires some { first < end }
    requires inside { end ≤ length starts.now }
    requires width { end ≤ first + 4096 }
    ensures { OnOk result (made.new.items ≡ made.old.items ++ outlined starts.now first end ∷ []) }
{
    let width = (end - first) as u32;
    made.push(State {
        word: Word { nid: 0, width },
        first,
        has_start: starts[first].is_some(),
    })?;
    Ok(())
}

// Adds the states of a register, whose bits begin at `first`.
fn push_stretches(
    made: &mut Vec<State>,
    model: &WordModel,
    register: usize,
    first: usize,
) -> Result<(), AllocError>
    requires model { IsModel model.now }
    requires register { register < length model.now.registers }
    requires first { first ≡ length (flat_map (λ r. r.q) (take register model.now.registers)) }
    requires made { AreStretchesTo model.now made.old.items first }
    ensures { OnOk result (AreStretchesTo model.now made.new.items (length (flat_map (λ r. r.q) (take (register + 1) model.now.registers)))) }
{
    let _bits = model.states().len();
    let starts = model.starts();
    let end = first + model.q(register).len();
    let mut next = first;
    while next < end {
        let stop = stretch(starts, next, end);
        push_stretch(made, starts, next, stop)?;
        next = stop;
    }
    Ok(())
}

// The longest stretches of the state bits.
fn stretches(alloc: Global, model: &WordModel) -> Result<Vec<State>, AllocError>
    requires { IsModel model.now }
    ensures { IfOk result (λ ss. AreStretches model.now ss.items) }
{
    let _bits = model.states().len();
    let mut made = Vec::new(alloc);
    let mut first = 0;
    for register in 0..model.registers() {
        push_stretches(&mut made, model, register, first)?;
        first += model.q(register).len();
    }
    Ok(made)
}

/// What a witness may say of a model: the state bits by their longest stretches, and the rows of inputs of which a bit is read. No line of
/// the model is made, so the states' lines have number 0.
pub fn open_shape(alloc: Global, model: &WordModel, rows: &Rows) -> Result<Shape, AllocError>
    requires { AreRowsOf model.now.inputs rows.now }
    ensures states { IfOk result (λ s. AreStretches model.now s.states.items) }
    ensures inputs { IfOk result (λ s. AreReadInputs model.now rows.now s.inputs) }
    ensures rows { IfOk result (λ s. AreRowsOf model.now.inputs s.inputs) }
{
    let _size = model.size();
    let states = stretches(alloc, model)?;
    let inputs = read_rows(alloc, model, rows)?;
    Ok(Shape { states, inputs })
}
