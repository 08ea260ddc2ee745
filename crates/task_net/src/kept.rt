// Which open state bits and inputs of a model are in its slice.

ghost use Rattle.std.specs.Prelude.{◌≡◌, ◌++◌, ◌∷◌, [], ◌<◌, IfOk, OnOk, length, map};
ghost use Rattle.model_core.specs.Choices.{open_states, without_digit};
ghost use Rattle.model_core.specs.Served.{IsModel};
ghost use Rattle.model_cone.specs.Slice.{kept_by};

use model_core::model::WordModel;
use std::alloc::{AllocError, Global};

// Puts after the others whether the place is kept, where it has no start digit.
fn push_start(
    kept: &mut Vec<bool>,
    marks: &[bool],
    place: u32,
    digit: Option<bool>,
) -> Result<(), AllocError>
    requires { place < length marks.now }
    ensures { OnOk result (kept.new.items ≡ kept.old.items ++ map (kept_by marks.now) (without_digit (place ∷ []) (digit ∷ []))) }
{
    if digit.is_none() {
        kept.push(marks[place as usize])?;
    }
    Ok(())
}

// Of each open state bit whether it is kept.
pub fn kept_starts(
    alloc: Global,
    model: &WordModel,
    marks: &[bool],
) -> Result<Vec<bool>, AllocError>
    requires model { IsModel model.now }
    requires marks { length marks.now ≡ model.now.size }
    ensures { IfOk result (λ kept. kept.items ≡ map (kept_by marks.now) (open_states model.now)) }
{
    let (places, digits) = (model.states(), model.starts());
    let mut kept = Vec::new(alloc);
    for k in 0..places.len() {
        push_start(&mut kept, marks, places[k], digits[k])?;
    }
    Ok(kept)
}

// Of each input whether it is kept.
pub fn kept_inputs(
    alloc: Global,
    model: &WordModel,
    marks: &[bool],
) -> Result<Vec<bool>, AllocError>
    requires model { IsModel model.now }
    requires marks { length marks.now ≡ model.now.size }
    ensures { IfOk result (λ kept. kept.items ≡ map (kept_by marks.now) model.now.inputs) }
{
    let places = model.inputs();
    let mut kept = Vec::new(alloc);
    for k in 0..places.len() {
        kept.push(marks[places[k] as usize])?;
    }
    Ok(kept)
}
