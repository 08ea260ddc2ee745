// Witnesses, byte by byte.

ghost use Rattle.std.specs.Prelude.{◌≡◌, ◌↔◌, ◌+◌, ◌<◌, ◌≤◌, ◌^◌, IfOk, IsTrue, OnOk, length, drop, take};
ghost use Rattle.btor_witness.specs.Grammar.{is_blank};
ghost use Rattle.btor_witness.specs.Machine.{WitnessesOf, after, ended, fresh, is_over, left, line_ended, read_open, seen, so_far, turn};
ghost use Rattle.btor_witness.specs.Streams.{NoFeed};
ghost use Rattle.btor_witness.specs.declared.spot.Spot.TheVariants.{Lost};

use crate::frames::Chosen;
use crate::line::Scanner;
use crate::reading::Reading;
use crate::shape::Shape;
use crate::spot::Seen;
use memchr::memchr;
use std::alloc::{AllocError, Global};
use std::marker::Model;

/// Reads a stream as a witness for a model with the states and inputs of a shape.
#[derive(Drop)]
pub struct Witnesses {
    reading: Reading,
    scan: Scanner,
    first: u64,
    taken: u64,
}

impl Model for Witnesses {
    ghost use Rattle.btor_witness.specs.Machine.{WitnessesOf};
    ghost use Rattle.btor_witness.specs.Within.{IsSound};

    ghost Value = { WitnessesOf };

    ghost view = { λ a. record { reading = a.reading; scan = a.scan; first = a.first; taken = a.taken } };

    ghost invariant = { λ a. IsSound (record { reading = a.reading; scan = a.scan; first = a.first; taken = a.taken }) };
}

fn is_blank(b: u8) -> bool
    ensures { result ≡ is_blank b }
{
    b == b' ' || (b == b'\t' || b == b'\r')
}

// How many bytes stand before the first line feed.
#[tactic(auto, using(crate::proofs::Passing::no_feed_take))]
fn before_feed(bytes: &[u8]) -> usize
    ensures within { result ≤ length bytes.now }
    ensures none { NoFeed (take result bytes.now) }
{
    match memchr(b'\n', bytes) {
        Some(count) => count,
        None => bytes.len(),
    }
}

impl Witnesses {
    /// Before the first byte of a stream. Of at most this many frames what they choose is kept; those past them are counted.
    pub fn new(alloc: Global, shape: Shape, most: u64) -> Result<Witnesses, AllocError>
        ensures { IfOk result (λ w. w ≡ fresh (record { states = shape.states; inputs = shape.inputs }) most) }
    {
        let reading = Reading::new(alloc, shape, most)?;
        Ok(Witnesses {
            reading,
            scan: Scanner::new(alloc),
            first: 0,
            taken: 0,
        })
    }

    /// The bad that a whole witness is for, counted from 0; 2^64 - 1 stands for all past it.
    pub fn bad(&self) -> u64
        ensures { result ≡ self.now.reading.bad }
    {
        self.reading.bad()
    }

    /// How many frames there were.
    pub fn frames(&self) -> u64
        ensures { result ≡ self.now.reading.frames.count }
    {
        self.reading.count()
    }

    /// How many bytes were taken; none is after a whole witness, a refused line, or where memory ran out.
    pub fn taken(&self) -> u64
        ensures { result ≡ self.now.taken }
    {
        self.taken
    }

    /// What the frames choose for a run.
    pub fn into_chosen(self) -> Chosen
        ensures starts { result.starts.items ≡ self.reading.frames.starts }
        ensures inputs { result.inputs.items ≡ self.reading.frames.inputs }
    {
        self.reading.into_chosen()
    }

    // What is seen in the bytes so far.
    pub(crate) fn so_far(&self) -> Seen
        ensures { result ≡ so_far self.now }
    {
        self.reading.so_far()
    }

    // What is seen in them where the stream ends.
    pub(crate) fn ended(&self) -> Seen
        ensures { result ≡ ended self.now }
    {
        self.reading.ended(self.taken, self.scan.entry())
    }

    // Whether nothing is read any more.
    pub(crate) fn is_over(&self) -> bool
        ensures { result ≡ is_over self.now.reading.spot }
    {
        self.reading.is_over()
    }

    pub(crate) fn is_lost(&self) -> bool
        ensures { IsTrue result ↔ (self.now.reading.spot ≡ Lost) }
    {
        self.reading.is_lost()
    }

    // Memory ran out: nothing is known any more.
    pub(crate) fn lose(&mut self)
        ensures spot { self.new.reading.spot ≡ Lost }
        ensures taken { self.new.taken ≡ self.old.taken }
    {
        self.reading.lose();
        self.scan.clear();
    }

    // A line feed.
    fn end_line(&mut self) -> Result<(), AllocError>
        requires { self.old.taken + 1 < 2 ^ 64 }
        ensures ok { OnOk result (self.new ≡ line_ended self.old) }
        ensures taken { self.new.taken ≤ self.old.taken + 1 }
    {
        let entry = self.scan.entry();
        self.reading.enter(self.first, self.scan.bits(), entry)?;
        self.scan.clear();
        self.taken += 1;
        self.first = self.taken;
        Ok(())
    }

    // White space.
    fn leave(&mut self)
        requires { self.old.taken + 1 < 2 ^ 64 }
        ensures { self.new ≡ left self.old }
    {
        self.scan.leave();
        self.taken += 1;
    }

    // A visible byte.
    fn see(&mut self, b: u8) -> Result<(), AllocError>
        requires { self.old.taken + 1 < 2 ^ 64 }
        ensures ok { OnOk result (self.new ≡ seen self.old b) }
        ensures taken { self.new.taken ≤ self.old.taken + 1 }
    {
        let width = self.reading.width(self.scan.number());
        self.scan.visible(width, b)?;
        self.taken += 1;
        Ok(())
    }

    // A byte, where the reading isn't over.
    fn read(&mut self, b: u8) -> Result<(), AllocError>
        requires { self.old.taken + 1 < 2 ^ 64 }
        ensures ok { OnOk result (self.new ≡ read_open self.old b) }
        ensures taken { self.new.taken ≤ self.old.taken + 1 }
    {
        if b == b'\n' {
            return self.end_line();
        }
        if is_blank(b) {
            self.leave();
            return Ok(());
        }
        self.see(b)
    }

    // Passes over bytes before a line feed that change nothing, and answers how many.
    pub(crate) fn pass(&mut self, bytes: &[u8]) -> usize
        requires { self.old.taken + length bytes.now < 2 ^ 64 }
        ensures within { result ≤ length bytes.now }
        ensures taken { self.new.taken ≡ self.old.taken + result }
        ensures after { after self.new (drop result bytes.now) ≡ after self.old bytes.now }
    {
        if !self.scan.is_other() || self.reading.is_over() {
            return 0;
        }
        let count = before_feed(bytes);
        self.taken += count as u64;
        count
    }

    // A byte.
    pub(crate) fn turn(&mut self, b: u8) -> Result<(), AllocError>
        requires { self.old.taken + 1 < 2 ^ 64 }
        ensures ok { OnOk result (self.new ≡ turn self.old b) }
        ensures taken { self.new.taken ≤ self.old.taken + 1 }
    {
        if self.reading.is_over() {
            return Ok(());
        }
        self.read(b)
    }
}
