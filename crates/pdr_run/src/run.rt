// The top call.

ghost use Rattle.std.specs.Prelude.{◌≡◌, ◌⊎◌, ◌≤◌, ◌^◌, ℕ, List, length, map, string_bytes, IfOk};
ghost use Rattle.sby_edge.specs.Cause.{Rose};
ghost use Rattle.cdcl_run.specs.Output.{GrownBySome, grown};
ghost use Rattle.cdcl_run.specs.Run.{IsOutOfMemory, World, Writes};
ghost use Rattle.pdr_run.specs.Deciding.{IsOutcome};
ghost use Rattle.pdr_run.specs.Run.{Answers, Did, IsDone, IsServed};
ghost use Rattle.pdr_run.specs.Text.{broken_text, pair_fault_line, spent_text};

use crate::deciding::{Outcome, decide};
use cdcl_run::{budget_of, fault_line, offer, refuse};
use cdcl_words::read_plain_words;
use pair_form::Pair;
use pair_reader::{PairFault, read_pair};
use pdr_core::Work;
use sby_edge::{Fail, Failed, Files, Got, Sink};
use std::alloc::{AllocError, Global};

// The most bytes that a file may have.
const MOST: u64 = 1 << 32;

const FAULT: u8 = 1;

const PROVED: u8 = 20;

const UNKNOWN: u8 = 0;

const OUT_OF_MEMORY: u8 = 32;

fn spent_text(alloc: Global, work: &Work) -> Result<String, AllocError>
    ensures { IfOk result (λ text. string_bytes text ≡ spent_text work.now.conflicts work.now.queries) }
{
    let conflicts = work.conflicts();
    let queries = work.queries();
    format!(in alloc; "c {conflicts} conflicts in {queries} queries\ns UNKNOWN\n")
}

fn broken_text(alloc: Global, length: usize) -> Result<String, AllocError>
    ensures { IfOk result (λ text. string_bytes text ≡ broken_text length) }
{
    format!(in alloc; "c an assertion breaks at length {length}\ns UNKNOWN\n")
}

// Writes a stream with which the program ends with this exit status.
fn tell<S: Sink>(sink: &mut S, stream: &[u8], exit: u8) -> u8
    ensures { ((result ≡ exit) × (S.taken sink.new ≡ grown (S.taken sink.old) stream.now) × (S.faults sink.new ≡ S.faults sink.old))
        ⊎ ((result ≡ 1) × GrownBySome (S.taken sink.old) (S.taken sink.new) stream.now × Rose (S.faults sink.old) (S.faults sink.new)) }
{
    match offer(sink, stream) {
        Ok(()) => exit,
        Err(Failed) => FAULT,
    }
}

// Writes a text if memory suffices for it.
fn tell_text<S: Sink>(sink: &mut S, text: Result<String, AllocError>) -> u8
    ensures { (stream : List ℕ) → IfOk text (λ own. string_bytes own ≡ stream) →
        ((result ≡ 32) × (S.taken sink.new ≡ S.taken sink.old) × (S.faults sink.new ≡ S.faults sink.old))
        ⊎ ((result ≡ 0) × (S.taken sink.new ≡ grown (S.taken sink.old) stream) × (S.faults sink.new ≡ S.faults sink.old))
        ⊎ ((result ≡ 1) × GrownBySome (S.taken sink.old) (S.taken sink.new) stream × Rose (S.faults sink.old) (S.faults sink.new)) }
{
    match text {
        Ok(text) => tell(sink, text.as_bytes(), UNKNOWN),
        Err(AllocError) => OUT_OF_MEMORY,
    }
}

// Writes the stream of an outcome.
fn tell_outcome<S: Sink>(alloc: Global, outcome: &Outcome, work: &Work, sink: &mut S) -> u8
    ensures { (told : _) (faults : ℕ) (p : _) → IsOutcome p work.now outcome.now →
        let before : World = record { told = told; file_faults = faults; taken = S.taken sink.old; sink_faults = S.faults sink.old } in
        let after : World = record { told = told; file_faults = faults; taken = S.taken sink.new; sink_faults = S.faults sink.new } in
        IsOutOfMemory before after result ⊎ Answers before after p work.now.budget result }
{
    match outcome {
        Outcome::Proved(stream) => tell(sink, stream, PROVED),
        Outcome::Broken(length) => tell_text(sink, broken_text(alloc, *length)),
        Outcome::Spent => tell_text(sink, spent_text(alloc, work)),
    }
}

// Searches, and writes the stream with the answer.
fn answer<S: Sink>(alloc: Global, pair: &Pair, budget: u64, sink: &mut S) -> u8
    ensures { (told : _) (faults : ℕ) →
        let before : World = record { told = told; file_faults = faults; taken = S.taken sink.old; sink_faults = S.faults sink.old } in
        let after : World = record { told = told; file_faults = faults; taken = S.taken sink.new; sink_faults = S.faults sink.new } in
        IsOutOfMemory before after result ⊎ Answers before after pair.now budget result }
{
    let mut work = Work::new(budget);
    match decide(alloc, pair, &mut work) {
        Ok(outcome) => tell_outcome(alloc, &outcome, &work, sink),
        Err(AllocError) => OUT_OF_MEMORY,
    }
}

// Tells why the file's text is no pair's.
fn tell_fault<S: Sink>(alloc: Global, fault: PairFault, sink: &mut S) -> u8
    ensures { (told : _) (faults : ℕ) →
        let before : World = record { told = told; file_faults = faults; taken = S.taken sink.old; sink_faults = S.faults sink.old } in
        let after : World = record { told = told; file_faults = faults; taken = S.taken sink.new; sink_faults = S.faults sink.new } in
        IsOutOfMemory before after result ⊎ ((result ≡ 1) × Writes before after (pair_fault_line fault)) }
{
    match fault {
        PairFault::Dimacs(fault) => match fault_line(alloc, fault) {
            Ok(line) => refuse(sink, line.as_bytes()),
            Err(AllocError) => OUT_OF_MEMORY,
        },
        PairFault::Lines => refuse(sink, b"c fault: pair\n"),
    }
}

// Serves the bytes of a file, whose memory is given back before the search.
fn serve<S: Sink>(alloc: Global, bytes: Vec<u8>, budget: u64, sink: &mut S) -> u8
    requires { length bytes.items ≤ 2 ^ 32 }
    ensures { (told : _) (faults : ℕ) →
        let before : World = record { told = told; file_faults = faults; taken = S.taken sink.old; sink_faults = S.faults sink.old } in
        let after : World = record { told = told; file_faults = faults; taken = S.taken sink.new; sink_faults = S.faults sink.new } in
        IsOutOfMemory before after result ⊎ IsServed before after bytes.items budget result }
{
    let read = read_pair(alloc, &bytes);
    drop(bytes);
    match read {
        Ok(Ok(pair)) => answer(alloc, &pair, budget, sink),
        Ok(Err(fault)) => tell_fault(alloc, fault, sink),
        Err(AllocError) => OUT_OF_MEMORY,
    }
}

// Does what the words ask for.
fn run_asked<F: Files, S: Sink>(
    alloc: Global,
    conflicts: Option<u32>,
    file: &str,
    files: &mut F,
    sink: &mut S,
) -> u8
    ensures told { F.told files.new ≡ F.told files.old }
    ensures done { IsDone
        (record { told = F.told files.old; file_faults = F.faults files.old; taken = S.taken sink.old; sink_faults = S.faults sink.old })
        (record { told = F.told files.new; file_faults = F.faults files.new; taken = S.taken sink.new; sink_faults = S.faults sink.new })
        conflicts file.now result }
{
    match files.get(alloc, file, MOST) {
        Ok(Got::All(bytes)) => serve(alloc, bytes, budget_of(conflicts), sink),
        Ok(Got::Long(_)) => refuse(sink, b"c fault: long\n"),
        Err(Fail::Failed) => refuse(sink, b"c fault: file\n"),
        Err(Fail::Memory) => OUT_OF_MEMORY,
    }
}

/// Does all that the program `pdr_program` does: `words` are its arguments, `files` and `sink` the file store and the output
/// that it uses. It answers the exit status: 20 after a stream that is a certificate of an invariant of the file's pair; 0 after one that
/// says that it doesn't know, since a run breaks an assertion, or since all of its budget was spent; 1 where the words are
/// refused, the file can't be got, has more than 2^32 bytes or isn't a pair's, each with a line that begins with `c usage:` or
/// `c fault:`, or where the output failed; and 32 at out of memory, when nothing was written. Where the output failed, what was written
/// is a first part of the line or the stream that was to be.
///
/// Words are a file, or `--conflicts`, a number from 1 to 1,000,000,000 and a file; the number is the budget, of which a conflict costs
/// one, as do a query and the beginning of a search. Without it the budget is 2^64 - 1. A stream that doesn't know begins with a comment:
/// the length, in cycles, of the run that breaks an assertion, or what the budget was spent on.
pub fn run_pdr<F: Files, S: Sink>(
    alloc: Global,
    words: &[String],
    files: &mut F,
    sink: &mut S,
) -> u8
    ensures did { Did
        (record { told = F.told files.old; file_faults = F.faults files.old; taken = S.taken sink.old; sink_faults = S.faults sink.old })
        (record { told = F.told files.new; file_faults = F.faults files.new; taken = S.taken sink.new; sink_faults = S.faults sink.new })
        (map string_bytes words.now) result }
{
    match read_plain_words(words) {
        Some((conflicts, file)) => run_asked(alloc, conflicts, file, files, sink),
        None => refuse(sink, b"c usage: pdr_program [--conflicts n] FILE\n"),
    }
}
