// The states and inputs of a model's lines, as those of a witness.

ghost use Rattle.std.specs.Prelude.{◌≡◌, IfOk, map};
ghost use Rattle.witness_judge.specs.Choosing.{input_slot, state_slot};

use btor_emit::shape::{Shape, State};
use btor_witness::{Shape as WitnessShape, Slot, Slots};
use place_rows::Rows;
use std::alloc::{AllocError, Global};

fn state_slots(alloc: Global, states: &[State]) -> Result<Slots, AllocError>
    ensures { IfOk result (λ slots. slots ≡ map state_slot states.now) }
{
    let mut slots = Slots::new(alloc);
    for state in states {
        slots.push(Slot {
            width: state.word.width,
            is_open: !state.has_start,
        })?;
    }
    Ok(slots)
}

fn input_slots(alloc: Global, inputs: &Rows) -> Result<Slots, AllocError>
    ensures { IfOk result (λ slots. slots ≡ map input_slot inputs.now) }
{
    let mut slots = Slots::new(alloc);
    for row in 0..inputs.len() {
        slots.push(Slot {
            width: inputs.width(row),
            is_open: true,
        })?;
    }
    Ok(slots)
}

/// What a witness may say of a model's states and inputs.
pub(crate) fn witness_shape(alloc: Global, shape: &Shape) -> Result<WitnessShape, AllocError>
    ensures states { IfOk result (λ s. s.states ≡ map state_slot shape.now.states.items) }
    ensures inputs { IfOk result (λ s. s.inputs ≡ map input_slot shape.now.inputs) }
{
    let states = state_slots(alloc, &shape.states)?;
    let inputs = input_slots(alloc, &shape.inputs)?;
    Ok(WitnessShape { states, inputs })
}
