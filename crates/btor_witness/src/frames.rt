// What the frames of a witness choose for a run.

ghost use Rattle.std.specs.Prelude.{◌≡◌, ◌+◌, ◌-◌, ◌<◌, ◌≤◌, ◌^◌, ◌++◌, Some, IfOk, OnErr, OnOk, IfSome, length, replicate, reverse, slice_get, false};
ghost use Rattle.btor_witness.specs.Machine.{FramesOf, framed, no_frames, put_row, with_input, with_state};
ghost use Rattle.btor_witness.specs.Shape.{open_bits, widths};

use crate::shape::{Place, Shape};
use std::alloc::{AllocError, Global};
use std::marker::Model;

/// What a witness chooses for a run: the bits with which open states start, and the bits of the inputs in each frame, one row after the
/// other. What a witness doesn't assign is 0.
#[derive(Drop)]
pub struct Chosen {
    pub starts: Vec<bool>,
    pub inputs: Vec<bool>,
}

/// What is kept of frames.
#[derive(Drop)]
pub(crate) struct Frames {
    shape: Shape,
    most: u64,
    count: u64,
    starts: Vec<bool>,
    inputs: Vec<bool>,
}

impl Model for Frames {
    ghost use Rattle.std.specs.Prelude.{◌≡◌, ◌<◌, ◌≤◌, length};
    ghost use Rattle.btor_witness.specs.Machine.{FramesOf};
    ghost use Rattle.btor_witness.specs.Shape.{open_bits};

    ghost Value = { FramesOf };

    ghost view = { λ a. record { shape = record { states = a.shape.states; inputs = a.shape.inputs }; most = a.most; count = a.count; starts = a.starts.items; inputs = a.inputs.items } };

    ghost invariant = { λ a. (length a.starts.items ≡ open_bits a.shape.states) × (0 < a.count → a.count ≤ a.most → open_bits a.shape.inputs ≤ length a.inputs.items) };
}

fn push_zeros(bits: &mut Vec<bool>, count: usize) -> Result<(), AllocError>
    ensures ok { OnOk result (bits.new.items ≡ bits.old.items ++ replicate count false) }
    ensures longer { length bits.old.items ≤ length bits.new.items }
{
    for _ in 0..count {
        bits.push(false)?;
    }
    Ok(())
}

// Puts a row, given from its highest bit on, in place of the bits of a state or input, if they are kept.
fn put(target: &mut [bool], base: usize, place: Option<Place>, bits: &[bool])
    requires { IfSome place (λ p. IfSome p.first (λ first. base + first + length bits.now ≤ length target.old)) }
    ensures row { target.new ≡ put_row target.old base place (reverse bits.now) }
    ensures len { length target.new ≡ length target.old }
{
    let Some(place) = place else {
        return;
    };
    let Some(first) = place.first else {
        return;
    };
    for i in 0..bits.len() {
        target[base + first + i] = bits[bits.len() - 1 - i];
    }
}

impl Frames {
    pub(crate) fn new(alloc: Global, shape: Shape, most: u64) -> Result<Frames, AllocError>
        ensures { IfOk result (λ frames. frames ≡ no_frames (record { states = shape.states; inputs = shape.inputs }) most) }
    {
        let starts = vec![in alloc; false; shape.states.open_bits()]?;
        Ok(Frames {
            shape,
            most,
            count: 0,
            starts,
            inputs: Vec::new(alloc),
        })
    }

    /// How many there were.
    pub(crate) fn count(&self) -> u64
        ensures { result ≡ self.now.count }
    {
        self.count
    }

    pub(crate) fn state_width(&self, number: u64) -> Option<u32>
        ensures { result ≡ slice_get (widths self.now.shape.states) number }
    {
        self.shape.states.width(number)
    }

    pub(crate) fn input_width(&self, number: u64) -> Option<u32>
        ensures { result ≡ slice_get (widths self.now.shape.inputs) number }
    {
        self.shape.inputs.width(number)
    }

    // A frame begins.
    pub(crate) fn begin(&mut self) -> Result<(), AllocError>
        requires { self.old.count + 1 < 2 ^ 64 }
        ensures ok { OnOk result (self.new ≡ framed self.old) }
        ensures err { OnErr result ((self.new.shape ≡ self.old.shape) × (self.new.count ≡ self.old.count)) }
    {
        if self.count < self.most {
            push_zeros(&mut self.inputs, self.shape.inputs.open_bits())?;
        }
        self.count += 1;
        Ok(())
    }

    // A row of a state, given from its highest bit on.
    pub(crate) fn assign_state(&mut self, number: u64, bits: &[bool])
        requires { slice_get (widths self.old.shape.states) number ≡ Some (length bits.now) }
        ensures { self.new ≡ with_state self.old number (reverse bits.now) }
    {
        if self.count == 1 {
            let place = self.shape.states.place(number);
            put(&mut self.starts, 0, place, bits);
        }
    }

    // A row of an input, given from its highest bit on.
    pub(crate) fn assign_input(&mut self, number: u64, bits: &[bool])
        requires some { 0 < self.old.count }
        requires width { slice_get (widths self.old.shape.inputs) number ≡ Some (length bits.now) }
        ensures { self.new ≡ with_input self.old number (reverse bits.now) }
    {
        if self.count <= self.most {
            let place = self.shape.inputs.place(number);
            let base = self.inputs.len() - self.shape.inputs.open_bits();
            put(&mut self.inputs, base, place, bits);
        }
    }

    pub(crate) fn into_chosen(self) -> Chosen
        ensures starts { result.starts.items ≡ self.starts }
        ensures inputs { result.inputs.items ≡ self.inputs }
    {
        Chosen {
            starts: self.starts,
            inputs: self.inputs,
        }
    }
}
