//! What is chosen for a run.

ghost use Rattle.std.specs.Prelude.{◌≡◌, ◌*◌, ◌<◌, Some, length, slice_get};
ghost use Rattle.sby_bits.specs.Rows.{Row};
ghost use Rattle.model_play.specs.Packed.{rows_of};

use std::marker::Model;

/// What is chosen for a run of a model: a bit for each open state bit, in the model's order, and for each cycle a row with a bit for
/// each input, in the model's order.
#[derive(Drop)]
pub struct Choices {
    starts: Vec<bool>,
    // the rows one after the other
    inputs: Vec<bool>,
    width: usize,
    cycles: usize,
}

impl Model for Choices {
    ghost use Rattle.std.specs.Prelude.{◌≡◌, ◌*◌, length};
    ghost use Rattle.model_core.specs.Choices.{ChoicesOf};
    ghost use Rattle.model_play.specs.Packed.{rows_of};

    ghost Value = { ChoicesOf };

    ghost view = { λ a. record { starts = a.starts.items; inputs = rows_of a.width a.cycles a.inputs.items } };

    ghost invariant = { λ a. length a.inputs.items ≡ a.cycles * a.width };
}

impl Choices {
    /// The choices of these start bits and of this many cycles, whose rows of inputs, of `width` bits each, stand one after the other.
    pub fn new(starts: Vec<bool>, inputs: Vec<bool>, width: usize, cycles: usize) -> Choices
        requires { length inputs.items ≡ cycles * width }
        ensures { result ≡ record { starts = starts.items; inputs = rows_of width cycles inputs.items } }
    {
        Choices {
            starts,
            inputs,
            width,
            cycles,
        }
    }

    /// The bits with which open state bits start.
    pub fn starts(&self) -> &[bool]
        ensures { result.now ≡ self.now.starts }
    {
        self.starts.as_slice()
    }

    /// How many cycles there are.
    pub fn cycles(&self) -> usize
        ensures { result ≡ length self.now.inputs }
    {
        self.cycles
    }

    /// The inputs of a cycle, counted from 0.
    pub fn inputs(&self, cycle: usize) -> &[bool]
        requires { cycle < length self.now.inputs }
        ensures { slice_get self.now.inputs cycle ≡ Some result.now }
    {
        let start = cycle * self.width;
        &self.inputs[start..start + self.width]
    }
}
