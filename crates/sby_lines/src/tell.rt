// Printing: lines are offered to a sink one after the other.

ghost use Rattle.std.specs.Prelude.{◌≡◌, ◌≢◌, ◌+◌, ◌-◌, ◌<◌, ◌≤◌, [], ◌∷◌, ◌++◌, ℕ, List, OnErr, OnOk, length, option_map, slice_index, string_bytes};
ghost use Rattle.std.specs.List.{concat};
ghost use Rattle.sby_edge.specs.Cause.{Rose};
ghost use Rattle.sby_edge.specs.Sink.{AreAll};
ghost use Rattle.sby_lines.specs.Lines.{line_if};
ghost use Rattle.sby_lines.specs.Telling.{GrownBySome, Tells, grown};
ghost use Rattle.sby_lines.specs.Texts.{line_of};

use crate::text;
use memchr::memchr;
use sby_edge::{Failed, Sink};
use std::alloc::Global;

/// Why no more lines are printed.
#[derive(Clone, Copy, Debug, PartialEq, Eq)]
pub enum Stop {
    Memory,
    Sink,
}

/// Offers a piece until it is taken whole.
pub fn offer<S: Sink>(out: &mut S, piece: &[u8]) -> Result<(), Failed>
    ensures whole { OnOk result (S.taken out.new ≡ grown (S.taken out.old) piece.now) }
    ensures part { OnErr result (GrownBySome (S.taken out.old) (S.taken out.new) piece.now) }
    ensures later { S.faults out.old ≤ S.faults out.new }
    ensures still { OnOk result (S.faults out.new ≡ S.faults out.old) }
    ensures failed { OnErr result (Rose (S.faults out.old) (S.faults out.new)) }
    ensures last { OnErr result (AreAll (S.ended out.new) (S.taken out.new)) }
{
    let mut at = 0;
    while at < piece.len() {
        let count = out.write(piece.split_at(at).1)?;
        if count == 0 {
            return Err(Failed);
        }
        at += count;
    }
    Ok(())
}

// How many bytes the first line of a text has, with its line feed.
fn first_line(text: &[u8]) -> usize
    requires { 0 < length text.now }
    ensures some { 0 < result }
    ensures within { result ≤ length text.now }
    ensures alone { (k : ℕ) → k + 1 < result → slice_index text.now k ≢ 10 }
    ensures ends { result < length text.now → slice_index text.now (result - 1) ≡ 10 }
{
    match memchr(b'\n', text) {
        Some(at) => at + 1,
        None => text.len(),
    }
}

// Offers a text line by line: each line is one piece.
fn offer_lines<S: Sink>(out: &mut S, text: &[u8]) -> Result<(), Failed>
    ensures whole { OnOk result (S.taken out.new ≡ grown (S.taken out.old) text.now) }
    ensures part { OnErr result (GrownBySome (S.taken out.old) (S.taken out.new) text.now) }
    ensures later { S.faults out.old ≤ S.faults out.new }
    ensures still { OnOk result (S.faults out.new ≡ S.faults out.old) }
    ensures failed { OnErr result (Rose (S.faults out.old) (S.faults out.new)) }
    ensures last { OnErr result (AreAll (S.ended out.new) (S.taken out.new)) }
{
    let mut at = 0;
    while at < text.len() {
        let rest = text.split_at(at).1;
        let count = first_line(rest);
        offer(out, rest.split_at(count).0)?;
        at += count;
    }
    Ok(())
}

/// Offers the lines of a text.
pub fn tell_lines<S: Sink>(out: &mut S, text: &[u8]) -> Result<(), Stop>
    ensures { (lines : List (List ℕ)) → concat lines ≡ text.now
        → Tells (S.taken out.old) (S.taken out.new) (S.faults out.old) (S.faults out.new) (S.ended out.new) lines result }
{
    match offer_lines(out, text) {
        Ok(()) => Ok(()),
        Err(Failed) => Err(Stop::Sink),
    }
}

/// Offers the line of a text, made whole before it is offered.
pub fn tell_line<S: Sink>(alloc: Global, out: &mut S, name: &str, text: &str) -> Result<(), Stop>
    ensures { Tells (S.taken out.old) (S.taken out.new) (S.faults out.old) (S.faults out.new) (S.ended out.new) (line_of name.now text.now ∷ []) result }
{
    match text::line_of(alloc, name, text) {
        Ok(line) => match offer(out, line.as_bytes()) {
            Ok(()) => Ok(()),
            Err(Failed) => Err(Stop::Sink),
        },
        Err(_) => Err(Stop::Memory),
    }
}

/// Offers a line that is a name alone.
pub fn tell_name<S: Sink>(alloc: Global, out: &mut S, name: &str) -> Result<(), Stop>
    ensures { Tells (S.taken out.old) (S.taken out.new) (S.faults out.old) (S.faults out.new) (S.ended out.new) ((name.now ++ 10 ∷ []) ∷ []) result }
{
    match text::name_line(alloc, name) {
        Ok(line) => match offer(out, line.as_bytes()) {
            Ok(()) => Ok(()),
            Err(Failed) => Err(Stop::Sink),
        },
        Err(_) => Err(Stop::Memory),
    }
}

/// Offers the line of a text where there is one.
pub fn tell_line_if<S: Sink>(
    alloc: Global,
    out: &mut S,
    name: &str,
    text: &Option<String>,
) -> Result<(), Stop>
    ensures { Tells (S.taken out.old) (S.taken out.new) (S.faults out.old) (S.faults out.new) (S.ended out.new) (line_if name.now (option_map string_bytes text.now)) result }
{
    match text {
        Some(text) => tell_line(alloc, out, name, text.as_str()),
        None => Ok(()),
    }
}
