// Choices for a slice as choices for the whole model.

ghost use Rattle.std.specs.Prelude.{◌≡◌, ◌++◌, IfOk, OnOk};
ghost use Rattle.task_net.specs.Spreading.{spread_bits, spread_choices};

use model_play::choices::Choices;
use std::alloc::{AllocError, Global};

// Puts a bit for each place after the others: the next of the row's where the place is kept, else 0.
fn spread_row(bits: &mut Vec<bool>, kept: &[bool], row: &[bool]) -> Result<(), AllocError>
    ensures { OnOk result (bits.new.items ≡ bits.old.items ++ spread_bits kept.now row.now) }
{
    let mut next = 0;
    for k in 0..kept.len() {
        if kept[k] && next < row.len() {
            bits.push(row[next])?;
            next += 1;
        } else {
            bits.push(false)?;
        }
    }
    Ok(())
}

// The choices for the whole model, by which of its open state bits and inputs are kept.
pub fn spread_choices(
    alloc: Global,
    choices: &Choices,
    starts: &[bool],
    inputs: &[bool],
) -> Result<Choices, AllocError>
    ensures { IfOk result (λ c. c ≡ spread_choices starts.now inputs.now choices.now) }
{
    let mut begun = Vec::new(alloc);
    spread_row(&mut begun, starts, choices.starts())?;
    let mut rows = Vec::new(alloc);
    let cycles = choices.cycles();
    for cycle in 0..cycles {
        spread_row(&mut rows, inputs, choices.inputs(cycle))?;
    }
    Ok(Choices::new(begun, rows, inputs.len(), cycles))
}
