// The top call.

ghost use Rattle.std.specs.Prelude.{◌≡◌, ◌⊎◌, ◌≤◌, ◌^◌, [], ℕ, List, length, map, string_bytes, IfOk, OnErr, OnOk, Err};
ghost use Rattle.cnf_form.specs.Cnf.{FormulaOf};
ghost use Rattle.cnf_form.specs.declared.literal.TheConstants.{MAX_VARS};
ghost use Rattle.cnf_form.specs.Dimacs.{IsDimacs};
ghost use Rattle.cdcl_core.specs.declared.solver.Solved.TheVariants.{LogFailed};
ghost use Rattle.sby_edge.specs.Cause.{Rose};
ghost use Rattle.sby_edge.specs.declared.outside.Fail.TheVariants as fail;
ghost use Rattle.net_answer.specs.Written.{Wrote};
ghost use Rattle.cdcl_run.specs.Answer.{IsAnswer, budget_of};
ghost use Rattle.cdcl_run.specs.Searching.{EndBreaks, IsEnd, Searches, Stops};
ghost use Rattle.cdcl_run.specs.Output.{Puts, grown};
ghost use Rattle.cdcl_run.specs.Run.{Answers, Did, IsDone, IsOutOfMemory, IsServed, World, Writes};
ghost use Rattle.cdcl_run.specs.Serving.{Ran};
ghost use Rattle.cdcl_run.specs.Stream.{IsStream, exit_of};
ghost use Rattle.cdcl_run.specs.Text.{fault_line, file_line, kind_text, long_line, usage_line};

use crate::fitting::fitted;
use crate::log::search;
use crate::output::{flush, offer, put};
use crate::piece::Piece;
use crate::serving::serve_all;
use crate::values::put_values;
use cdcl_core::Solved;
use cdcl_words::{read_serving, read_words};
use cnf_form::{DimacsFault, DimacsFaultKind, Formula, read_dimacs};
use net_link::Door;
use sby_edge::{Fail, Failed, Files, Got, Sink};
use std::alloc::{AllocError, Global};

// The most bytes that a file may have.
const MOST: u64 = 1 << 32;

const FAULT: u8 = 1;

pub(crate) const OUT_OF_MEMORY: u8 = 32;

/// Writes a line alone. Returns the exit status 1, also where a call fails.
pub fn refuse<S: Sink>(sink: &mut S, line: &[u8]) -> u8
    ensures exit { result ≡ 1 }
    ensures line { (told : _) (faults : ℕ) → Writes
        (record { told = told; file_faults = faults; taken = S.taken sink.old; sink_faults = S.faults sink.old })
        (record { told = told; file_faults = faults; taken = S.taken sink.new; sink_faults = S.faults sink.new }) line.now }
{
    // A failed call has the same exit status.
    let _ = offer(sink, line);
    FAULT
}

fn kind_text(kind: DimacsFaultKind) -> &'static str
    ensures { result.now ≡ kind_text kind }
{
    match kind {
        DimacsFaultKind::Header => "Header",
        DimacsFaultKind::Literal => "Literal",
        DimacsFaultKind::Count => "Count",
    }
}

/// The line of a fault of the file's text.
pub fn fault_line(alloc: Global, fault: DimacsFault) -> Result<String, AllocError>
    ensures { IfOk result (λ text. string_bytes text ≡ fault_line fault.kind fault.byte) }
{
    let byte = fault.byte;
    let kind = kind_text(fault.kind);
    format!(in alloc; "c fault: byte {byte} {kind}\n")
}

// Gathers how the stream of an answer for a formula of this many variables ends. Returns the exit status.
fn put_end<S: Sink>(
    sink: &mut S,
    piece: &mut Piece,
    vars: u32,
    solved: &Solved,
) -> Result<u8, Failed>
    requires { vars ≤ MAX_VARS }
    ensures end { IfOk result (λ exit. (text : List ℕ) × IsEnd vars solved.now text exit × Puts
        (record { taken = S.taken sink.old; faults = S.faults sink.old; gathered = piece.old })
        (record { taken = S.taken sink.new; faults = S.faults sink.new; gathered = piece.new }) text) }
    ensures failed { OnErr result (EndBreaks vars
        (record { taken = S.taken sink.old; faults = S.faults sink.old; gathered = piece.old })
        (record { taken = S.taken sink.new; faults = S.faults sink.new; gathered = piece.new }) solved.now) }
{
    match solved {
        Solved::Unsat => {
            put(sink, piece, b"s UNSATISFIABLE\n")?;
            Ok(20)
        }
        Solved::Sat(values) => {
            put(sink, piece, b"s SATISFIABLE\n")?;
            put_values(sink, piece, vars, values)?;
            Ok(10)
        }
        Solved::Budget => {
            put(sink, piece, b"s UNKNOWN\n")?;
            Ok(0)
        }
        Solved::LogFailed => Err(Failed),
    }
}

// Writes how the stream of an answer for a formula of this many variables ends. Returns the exit status.
fn finish<S: Sink>(
    sink: &mut S,
    piece: &mut Piece,
    vars: u32,
    solved: &Solved,
) -> Result<u8, Failed>
    requires { vars ≤ MAX_VARS }
    ensures end { IfOk result (λ exit. (text : List ℕ) × IsEnd vars solved.now text exit × Puts
        (record { taken = S.taken sink.old; faults = S.faults sink.old; gathered = piece.old })
        (record { taken = S.taken sink.new; faults = S.faults sink.new; gathered = [] }) text) }
    ensures failed { OnErr result (EndBreaks vars
        (record { taken = S.taken sink.old; faults = S.faults sink.old; gathered = piece.old })
        (record { taken = S.taken sink.new; faults = S.faults sink.new; gathered = piece.new }) solved.now) }
{
    let exit = put_end(sink, piece, vars, solved)?;
    flush(sink, piece)?;
    Ok(exit)
}

// Searches over the variables up to the greatest of a clause, and writes the proof, with hints or without.
fn search_by<S: Sink>(
    alloc: Global,
    formula: Formula,
    hinted: bool,
    budget: u64,
    sink: &mut S,
    piece: &mut Piece,
) -> Result<Solved, AllocError>
    ensures searches { IfOk result (λ solved. Searches hinted formula budget
        (record { taken = S.taken sink.old; faults = S.faults sink.old; gathered = piece.old })
        (record { taken = S.taken sink.new; faults = S.faults sink.new; gathered = piece.new }) solved) }
    ensures stops { OnErr result (Stops hinted formula budget
        (record { taken = S.taken sink.old; faults = S.faults sink.old; gathered = piece.old })
        (record { taken = S.taken sink.new; faults = S.faults sink.new; gathered = piece.new })) }
{
    let searched = fitted(formula);
    if hinted {
        search::<S, true>(alloc, &searched, budget, sink, piece)
    } else {
        search::<S, false>(alloc, &searched, budget, sink, piece)
    }
}

// Searches, and writes the stream with the answer.
fn answer<S: Sink>(
    alloc: Global,
    formula: Formula,
    hinted: bool,
    budget: u64,
    sink: &mut S,
) -> Result<u8, Fail>
    ensures answers { (told : _) (faults : ℕ) (job : List ℕ) → IsDimacs job formula → Answers hinted
        (record { told = told; file_faults = faults; taken = S.taken sink.old; sink_faults = S.faults sink.old })
        (record { told = told; file_faults = faults; taken = S.taken sink.new; sink_faults = S.faults sink.new }) job budget (exit_of result) }
    ensures whole { IfOk result (λ exit. (job : List ℕ) → IsDimacs job formula → Wrote (S.taken sink.old) (S.taken sink.new) (λ stream. IsAnswer hinted job budget stream exit)) }
    ensures failed { result ≡ Err fail.Failed → Rose (S.faults sink.old) (S.faults sink.new) }
    ensures later { S.faults sink.old ≤ S.faults sink.new }
{
    let mut piece = match Piece::new(alloc) {
        Ok(piece) => piece,
        Err(AllocError) => return Err(Fail::Memory),
    };
    let vars = formula.vars();
    let solved = match search_by(alloc, formula, hinted, budget, sink, &mut piece) {
        Ok(solved) => solved,
        Err(AllocError) => return Err(Fail::Memory),
    };
    match finish(sink, &mut piece, vars, &solved) {
        Ok(exit) => Ok(exit),
        Err(Failed) => Err(Fail::Failed),
    }
}

// Tells a fault of the bytes' text.
fn tell_fault<S: Sink>(alloc: Global, fault: DimacsFault, sink: &mut S) -> Result<u8, Fail>
    ensures tells { (told : _) (faults : ℕ) →
        let before : World = record { told = told; file_faults = faults; taken = S.taken sink.old; sink_faults = S.faults sink.old } in
        let after : World = record { told = told; file_faults = faults; taken = S.taken sink.new; sink_faults = S.faults sink.new } in
        IsOutOfMemory before after (exit_of result) ⊎ ((exit_of result ≡ 1) × Writes before after (fault_line fault.kind fault.byte)) }
    ensures whole { OnOk result (S.taken sink.new ≡ grown (S.taken sink.old) (fault_line fault.kind fault.byte)) }
    ensures failed { result ≡ Err fail.Failed → Rose (S.faults sink.old) (S.faults sink.new) }
    ensures later { S.faults sink.old ≤ S.faults sink.new }
{
    let line = match fault_line(alloc, fault) {
        Ok(line) => line,
        Err(AllocError) => return Err(Fail::Memory),
    };
    let Ok(()) = offer(sink, line.as_bytes()) else {
        return Err(Fail::Failed);
    };
    Ok(FAULT)
}

// Writes the stream for the bytes of a file, whose memory is given back before the search. Returns the exit status where it was written whole.
pub(crate) fn write_stream<S: Sink>(
    alloc: Global,
    bytes: Vec<u8>,
    hinted: bool,
    budget: u64,
    sink: &mut S,
) -> Result<u8, Fail>
    requires { length bytes.items ≤ 2 ^ 32 }
    ensures served { (told : _) (faults : ℕ) →
        let before : World = record { told = told; file_faults = faults; taken = S.taken sink.old; sink_faults = S.faults sink.old } in
        let after : World = record { told = told; file_faults = faults; taken = S.taken sink.new; sink_faults = S.faults sink.new } in
        IsOutOfMemory before after (exit_of result) ⊎ IsServed hinted before after bytes.items budget (exit_of result) }
    ensures whole { OnOk result (Wrote (S.taken sink.old) (S.taken sink.new) (IsStream hinted budget bytes.items)) }
    ensures failed { result ≡ Err fail.Failed → Rose (S.faults sink.old) (S.faults sink.new) }
    ensures later { S.faults sink.old ≤ S.faults sink.new }
{
    let read = read_dimacs(alloc, &bytes);
    drop(bytes);
    match read {
        Ok(Ok(formula)) => answer(alloc, formula, hinted, budget, sink),
        Ok(Err(fault)) => tell_fault(alloc, fault, sink),
        Err(AllocError) => Err(Fail::Memory),
    }
}

// The exit status that a stream ends with.
pub(crate) fn exit_of(stream: Result<u8, Fail>) -> u8
    ensures { result ≡ exit_of stream }
{
    match stream {
        Ok(exit) => exit,
        Err(Fail::Failed) => FAULT,
        Err(Fail::Memory) => OUT_OF_MEMORY,
    }
}

/// The most conflicts: the number, or 2^64 - 1 without one.
pub fn budget_of(conflicts: Option<u32>) -> u64
    ensures { result ≡ budget_of conflicts }
{
    match conflicts {
        Some(conflicts) => u64::from(conflicts),
        None => u64::MAX,
    }
}

// Does what the words ask for.
fn run_asked<F: Files, S: Sink>(
    alloc: Global,
    hinted: bool,
    conflicts: Option<u32>,
    file: &str,
    files: &mut F,
    sink: &mut S,
) -> u8
    ensures told { F.told files.new ≡ F.told files.old }
    ensures done { IsDone
        (record { told = F.told files.old; file_faults = F.faults files.old; taken = S.taken sink.old; sink_faults = S.faults sink.old })
        (record { told = F.told files.new; file_faults = F.faults files.new; taken = S.taken sink.new; sink_faults = S.faults sink.new })
        hinted conflicts file.now result }
{
    match files.get(alloc, file, MOST) {
        Ok(Got::All(bytes)) => {
            let stream = write_stream(alloc, bytes, hinted, budget_of(conflicts), sink);
            exit_of(stream)
        }
        Ok(Got::Long(_)) => refuse(sink, b"c fault: long\n"),
        Err(Fail::Failed) => refuse(sink, b"c fault: file\n"),
        Err(Fail::Memory) => OUT_OF_MEMORY,
    }
}

// Does what words that don't ask to serve connections ask for.
fn run_file<F: Files, S: Sink>(alloc: Global, words: &[String], files: &mut F, sink: &mut S) -> u8
    ensures did { Did
        (record { told = F.told files.old; file_faults = F.faults files.old; taken = S.taken sink.old; sink_faults = S.faults sink.old })
        (record { told = F.told files.new; file_faults = F.faults files.new; taken = S.taken sink.new; sink_faults = S.faults sink.new })
        (map string_bytes words.now) result }
{
    match read_words(words) {
        Some(asked) => run_asked(
            alloc,
            asked.hinted,
            asked.conflicts,
            asked.file,
            files,
            sink,
        ),
        None => refuse(
            sink,
            b"c usage: cdcl_program [--conflicts n] FILE.cnf | cdcl_program --hints [--conflicts n] FILE.cnf | cdcl_program --serve HOST:PORT --count n\n",
        ),
    }
}

/// Does all that the program `cdcl_program` does: `words` are its arguments, `files` and `sink` the file store and the output
/// that it uses, `door` what takes connections in. It answers the exit status: 10, 20 or 0 after an answer (satisfiable,
/// unsatisfiable, unknown), 1 where the words are refused, the file can't be got, has more than 2^32 bytes or isn't DIMACS, or
/// where the output failed, and 32 at out of memory. What was written by then is a first part of the line that was to be
/// written, or of the lines of a search for values of the file's formula, or, where the output failed, of a whole answer.
///
/// Words are a file, or `--conflicts`, a number of conflicts from 1 to 1,000,000,000 and a file; without a number there are
/// 2^64 - 1 conflicts. After `--hints` the stream is one with hints. Output is written in pieces of 64 KiB, while the solver
/// searches, and what is left at the end.
///
/// With the words `--serve HOST:PORT --count n`, PORT from 1 to 65,535 and n from 1 to 1,000,000, it serves n connections that
/// come to this address, one after the other, and writes nothing to the output: each request, of 1 to 1,000,000,000 conflicts,
/// is answered by a stream as for a file of its job's bytes, without hints, in pieces; bytes that are no request by the line
/// `c fault: frame`. The exit status is then 0, 32 where memory ran out for one of them, and at once 1 where the door failed, or
/// 32 where memory for the door ran out.
pub fn run_engine<F: Files, S: Sink, D: Door>(
    alloc: Global,
    words: &[String],
    files: &mut F,
    sink: &mut S,
    door: &mut D,
) -> u8
    ensures ran { Ran
        (record { told = F.told files.old; file_faults = F.faults files.old; taken = S.taken sink.old; sink_faults = S.faults sink.old })
        (record { told = F.told files.new; file_faults = F.faults files.new; taken = S.taken sink.new; sink_faults = S.faults sink.new })
        (record { listens_at = D.listens_at door.old; coming = D.coming door.old; came_back = D.came_back door.old; backs = D.backs door.old; faults = D.faults door.old })
        (record { listens_at = D.listens_at door.new; coming = D.coming door.new; came_back = D.came_back door.new; backs = D.backs door.new; faults = D.faults door.new })
        (map string_bytes words.now) result }
{
    match read_serving(words) {
        Some(asked) => {
            let served = serve_all(alloc, asked.address, asked.count, door);
            exit_of(served)
        }
        None => run_file(alloc, words, files, sink),
    }
}
