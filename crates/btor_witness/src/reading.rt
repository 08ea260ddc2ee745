// Whole lines, one after the other.

ghost use Rattle.std.specs.Prelude.{◌≡◌, ◌↔◌, ◌+◌, ◌<◌, ◌^◌, ℕ, Option, Some, IfOk, OnErr, IsTrue, OnOk, length, slice_get};
ghost use Rattle.btor_witness.specs.Machine.{ReadingOf, assigns, begins_frame, begins_inputs, ended_by, ends, enters, goes_on, is_over, moved, names, no_reading, seen_by, skips, width_at, widths_at};
ghost use Rattle.btor_witness.specs.Within.{HasFrame};
ghost use Rattle.btor_witness.specs.declared.line.Entry.TheVariants.{Assign};
ghost use Rattle.btor_witness.specs.declared.spot.Spot.TheVariants.{Lost};

use crate::frames::{Chosen, Frames};
use crate::line::Entry;
use crate::shape::Shape;
use crate::spot::{Seen, Spot};
use std::alloc::{AllocError, Global};
use std::marker::Model;

/// How the reading of lines stands.
#[derive(Drop)]
pub(crate) struct Reading {
    frames: Frames,
    spot: Spot,
    bad: u64,
}

impl Model for Reading {
    ghost use Rattle.btor_witness.specs.Machine.{ReadingOf};
    ghost use Rattle.btor_witness.specs.Within.{HasFrame};

    ghost Value = { ReadingOf };

    ghost view = { λ a. record { frames = a.frames; spot = a.spot; bad = a.bad } };

    ghost invariant = { λ a. HasFrame a.spot a.frames.count };
}

impl Reading {
    pub(crate) fn new(alloc: Global, shape: Shape, most: u64) -> Result<Reading, AllocError>
        ensures { IfOk result (λ r. r ≡ no_reading (record { states = shape.states; inputs = shape.inputs }) most) }
    {
        let frames = Frames::new(alloc, shape, most)?;
        Ok(Reading {
            frames,
            spot: Spot::Skipping,
            bad: 0,
        })
    }

    pub(crate) fn bad(&self) -> u64
        ensures { result ≡ self.now.bad }
    {
        self.bad
    }

    pub(crate) fn count(&self) -> u64
        ensures { result ≡ self.now.frames.count }
    {
        self.frames.count()
    }

    pub(crate) fn into_chosen(self) -> Chosen
        ensures starts { result.starts.items ≡ self.frames.starts }
        ensures inputs { result.inputs.items ≡ self.frames.inputs }
    {
        self.frames.into_chosen()
    }

    // What is seen in the lines so far.
    pub(crate) fn so_far(&self) -> Seen
        ensures { result ≡ seen_by self.now.spot }
    {
        match self.spot {
            Spot::Whole => Seen::Whole,
            Spot::Refused(byte) => Seen::BadWitness(byte),
            _ => Seen::More,
        }
    }

    // What is seen in them where the stream ends after this many bytes, the last line being this.
    pub(crate) fn ended(&self, taken: u64, entry: Option<Entry>) -> Seen
        ensures { result ≡ ended_by taken self.now.spot entry }
    {
        match self.spot {
            Spot::Skipping if entry != Some(Entry::Sat) => Seen::Unknown,
            Spot::InStates | Spot::InInputs if entry == Some(Entry::End) => Seen::Whole,
            Spot::Whole | Spot::Refused(_) | Spot::Lost => self.so_far(),
            _ => Seen::EarlyEnd(taken),
        }
    }

    // Whether nothing is read any more.
    pub(crate) fn is_over(&self) -> bool
        ensures { result ≡ is_over self.now.spot }
    {
        matches!(self.spot, Spot::Whole | Spot::Refused(_) | Spot::Lost)
    }

    pub(crate) fn is_lost(&self) -> bool
        ensures { IsTrue result ↔ (self.now.spot ≡ Lost) }
    {
        matches!(self.spot, Spot::Lost)
    }

    pub(crate) fn lose(&mut self)
        ensures spot { self.new.spot ≡ Lost }
        ensures frames { self.new.frames ≡ self.old.frames }
    {
        self.spot = Spot::Lost;
    }

    // The width of the state or input of this number.
    pub(crate) fn width(&self, number: Option<u64>) -> Option<u32>
        ensures { result ≡ width_at (widths_at self.now.frames.shape self.now.spot) number }
    {
        match self.spot {
            Spot::InStates => self.frames.state_width(number?),
            Spot::InInputs => self.frames.input_width(number?),
            _ => None,
        }
    }

    fn refuse(&mut self, first: u64)
        ensures { let r : ReadingOf = moved self.old (Spot.Refused first) in self.new ≡ r }
    {
        self.spot = Spot::Refused(first);
    }

    fn begin_frame(&mut self, first: u64, spot: Spot, number: u64) -> Result<(), AllocError>
        requires { self.old.frames.count + 1 < 2 ^ 64 }
        ensures ok { OnOk result (self.new ≡ begins_frame self.old first spot number) }
        ensures err { OnErr result ((self.new.spot ≡ self.old.spot) × (self.new.frames.shape ≡ self.old.frames.shape) × (self.new.frames.count ≡ self.old.frames.count)) }
    {
        if number == self.frames.count() {
            self.frames.begin()?;
            self.spot = spot;
        } else {
            self.refuse(first);
        }
        Ok(())
    }

    // The inputs of the frame whose states were read, or those of a new one.
    fn begin_inputs(&mut self, first: u64, number: u64) -> Result<(), AllocError>
        requires { self.old.frames.count + 1 < 2 ^ 64 }
        ensures ok { OnOk result (self.new ≡ begins_inputs self.old first number) }
        ensures err { OnErr result ((self.new.spot ≡ self.old.spot) × (self.new.frames.shape ≡ self.old.frames.shape) × (self.new.frames.count ≡ self.old.frames.count)) }
    {
        if self.spot == Spot::InStates && number == self.frames.count() - 1 {
            self.spot = Spot::InInputs;
            return Ok(());
        }
        self.begin_frame(first, Spot::InInputs, number)
    }

    fn assign(&mut self, first: u64, bits: &[bool], number: u64)
        requires { slice_get (widths_at self.old.frames.shape self.old.spot) number ≡ Some (length bits.now) }
        ensures { self.new ≡ assigns self.old first bits.now self.old.spot number }
    {
        match self.spot {
            Spot::InStates => self.frames.assign_state(number, bits),
            Spot::InInputs => self.frames.assign_input(number, bits),
            _ => self.refuse(first),
        }
    }

    fn end(&mut self, first: u64)
        ensures { self.new ≡ ends self.old first }
    {
        if self.frames.count() == 0 {
            self.refuse(first);
        } else {
            self.spot = Spot::Whole;
        }
    }

    // A line before one that is `sat`.
    fn skip(&mut self, entry: Option<Entry>)
        ensures { self.new ≡ skips self.old entry }
    {
        if entry == Some(Entry::Sat) {
            self.spot = Spot::Found;
        }
    }

    fn name(&mut self, first: u64, entry: Option<Entry>)
        ensures { self.new ≡ names self.old first entry }
    {
        match entry {
            Some(Entry::Bads(bad)) => {
                self.spot = Spot::Named;
                self.bad = bad;
            }
            _ => self.refuse(first),
        }
    }

    // A line of frames, or the last.
    fn go_on(&mut self, first: u64, bits: &[bool], entry: Option<Entry>) -> Result<(), AllocError>
        requires count { self.old.frames.count + 1 < 2 ^ 64 }
        requires bits { (n : ℕ) → entry ≡ Some (Assign n) → slice_get (widths_at self.old.frames.shape self.old.spot) n ≡ Some (length bits.now) }
        ensures ok { OnOk result (self.new ≡ goes_on self.old first bits.now entry) }
        ensures err { OnErr result ((self.new.spot ≡ self.old.spot) × (self.new.frames.shape ≡ self.old.frames.shape) × (self.new.frames.count ≡ self.old.frames.count)) }
    {
        match entry {
            Some(Entry::States(number)) => {
                return self.begin_frame(first, Spot::InStates, number);
            }
            Some(Entry::Inputs(number)) => return self.begin_inputs(first, number),
            Some(Entry::Assign(number)) => self.assign(first, bits, number),
            Some(Entry::End) => self.end(first),
            _ => self.refuse(first),
        }
        Ok(())
    }

    // A whole line that begins with byte number `first`, with these bits in its row, the highest first.
    pub(crate) fn enter(
        &mut self,
        first: u64,
        bits: &[bool],
        entry: Option<Entry>,
    ) -> Result<(), AllocError>
        requires count { self.old.frames.count + 1 < 2 ^ 64 }
        requires bits { (n : ℕ) → entry ≡ Some (Assign n) → slice_get (widths_at self.old.frames.shape self.old.spot) n ≡ Some (length bits.now) }
        ensures ok { OnOk result (self.new ≡ enters self.old first bits.now entry) }
        ensures err { OnErr result ((self.new.spot ≡ self.old.spot) × (self.new.frames.shape ≡ self.old.frames.shape) × (self.new.frames.count ≡ self.old.frames.count)) }
    {
        match self.spot {
            Spot::Skipping => self.skip(entry),
            Spot::Found => self.name(first, entry),
            Spot::Named | Spot::InStates | Spot::InInputs => return self.go_on(first, bits, entry),
            Spot::Whole | Spot::Refused(_) | Spot::Lost => {}
        }
        Ok(())
    }
}
