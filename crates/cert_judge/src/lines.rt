// A parser and the certificate that hears what it reads, of whatever kind.

ghost use Rattle.std.specs.Prelude.{◌≡◌, ◌≤◌, ◌<◌, ◌+◌, ◌^◌, List, length, ℕ, Option, Some, None, IfOk};
ghost use Rattle.cert_judge.specs.Leading.{HasEnded, Heard, Leads, drup_ending, file_ending, lrat_ending};
ghost use Rattle.cert_judge.specs.Lines.{Fits, Starts, Took, TookEnd, lines_bits, lines_or, lines_outcome, lines_taken};
ghost use Rattle.cert_judge.specs.Reading.{drup_meaning, drup_parsing, file_parsing, lrat_meaning, lrat_parsing};
ghost use Rattle.cert_judge.specs.declared.stream.Outcome.{Outcome};
ghost use Rattle.cert_judge.specs.declared.stream.StreamKind.TheVariants.{Drup, Lrat, Proof, ProofBinary};
ghost use Rattle.proof_stream.specs.File.{taken_of, vars_of};

use crate::certificate::{Certificate, ProofChecker};
use crate::stream::{CertKind, Outcome, StreamKind};
use cert_stream::DrupParser;
use cert_stream::lrat::LratParser;
use clause_source::ClauseSource;
use drup_check::Checker;
use lrat_check::Hinted;
use proof_stream::{Form, ProofParser};
use std::alloc::{AllocError, Global};
use std::marker::Model;

/// What is kept of a stream: its parser, and the certificate that hears what it reads.
#[derive(Drop)]
pub(crate) struct Line<P: Drop, C: ProofChecker, S: ClauseSource> {
    parser: P,
    certificate: Certificate<C, S>,
}

impl<P: Drop, C: ProofChecker, S: ClauseSource> Model for Line<P, C, S> {
    ghost use Rattle.cert_judge.specs.Certificate.{LineOf};

    ghost Value = { LineOf P C };

    ghost view = { λ a. record { parser = a.parser; certificate = a.certificate } };

    ghost invariant = { λ a. Unit {0} };
}

/// The table of kinds: each has its parser and its checker.
#[derive(Drop)]
pub(crate) enum Lines<S: ClauseSource> {
    Drup(Line<DrupParser, Checker, S>),
    Lrat(Line<LratParser, Hinted, S>),
    Proof(Line<ProofParser, Checker, S>),
    ProofBinary(Line<ProofParser, Checker, S>),
}

fn new_drup<S: ClauseSource>(alloc: Global, source: S) -> Result<Lines<S>, AllocError>
    ensures { IfOk result (Starts (S.formula source) Drup) }
{
    let parser = DrupParser::new(alloc, source.vars());
    let certificate = Certificate::new(alloc, source)?;
    Ok(Lines::Drup(Line {
        parser,
        certificate,
    }))
}

fn new_lrat<S: ClauseSource>(alloc: Global, source: S) -> Result<Lines<S>, AllocError>
    ensures { IfOk result (Starts (S.formula source) Lrat) }
{
    let parser = LratParser::new(alloc, source.vars());
    let certificate = Certificate::new(alloc, source)?;
    Ok(Lines::Lrat(Line {
        parser,
        certificate,
    }))
}

fn new_proof<S: ClauseSource>(alloc: Global, source: S) -> Result<Lines<S>, AllocError>
    ensures { IfOk result (Starts (S.formula source) Proof) }
{
    let parser = ProofParser::new(alloc, source.vars(), Form::Text);
    let certificate = Certificate::new(alloc, source)?;
    Ok(Lines::Proof(Line {
        parser,
        certificate,
    }))
}

fn new_binary<S: ClauseSource>(alloc: Global, source: S) -> Result<Lines<S>, AllocError>
    ensures { IfOk result (Starts (S.formula source) ProofBinary) }
{
    let parser = ProofParser::new(alloc, source.vars(), Form::Binary);
    let certificate = Certificate::new(alloc, source)?;
    Ok(Lines::ProofBinary(Line {
        parser,
        certificate,
    }))
}

fn take_drup<S: ClauseSource>(
    line: &mut Line<DrupParser, Checker, S>,
    piece: &[u8],
) -> Result<(), AllocError>
    requires vars { line.old.certificate.formula.vars ≡ line.old.parser.vars }
    requires open { line.old.certificate.outcome ≡ None }
    requires count { line.old.parser.taken + length piece.now < 2 ^ 64 }
    ensures heard { IfOk result (λ _. Heard drup_parsing drup_meaning line.old.parser line.old.certificate piece.now line.new.parser line.new.certificate) }
    ensures vars { IfOk result (λ _. line.new.certificate.formula.vars ≡ line.new.parser.vars) }
    ensures count { IfOk result (λ _. line.new.parser.taken ≤ line.old.parser.taken + length piece.now) }
{
    let fed = line.parser.feed(piece, &mut line.certificate)?;
    line.certificate.conclude(fed);
    Ok(())
}

fn take_lrat<S: ClauseSource>(
    line: &mut Line<LratParser, Hinted, S>,
    piece: &[u8],
) -> Result<(), AllocError>
    requires vars { line.old.certificate.formula.vars ≡ line.old.parser.vars }
    requires open { line.old.certificate.outcome ≡ None }
    requires count { line.old.parser.taken + length piece.now < 2 ^ 64 }
    ensures heard { IfOk result (λ _. Heard lrat_parsing lrat_meaning line.old.parser line.old.certificate piece.now line.new.parser line.new.certificate) }
    ensures vars { IfOk result (λ _. line.new.certificate.formula.vars ≡ line.new.parser.vars) }
    ensures count { IfOk result (λ _. line.new.parser.taken ≤ line.old.parser.taken + length piece.now) }
{
    let fed = line.parser.feed(piece, &mut line.certificate)?;
    line.certificate.conclude(fed);
    Ok(())
}

fn take_file<S: ClauseSource>(
    line: &mut Line<ProofParser, Checker, S>,
    piece: &[u8],
) -> Result<(), AllocError>
    requires vars { line.old.certificate.formula.vars ≡ vars_of line.old.parser }
    requires open { line.old.certificate.outcome ≡ None }
    requires count { taken_of line.old.parser + length piece.now < 2 ^ 64 }
    ensures heard { IfOk result (λ _. Heard file_parsing drup_meaning line.old.parser line.old.certificate piece.now line.new.parser line.new.certificate) }
    ensures vars { IfOk result (λ _. line.new.certificate.formula.vars ≡ vars_of line.new.parser) }
    ensures count { IfOk result (λ _. taken_of line.new.parser ≤ taken_of line.old.parser + length piece.now) }
{
    let fed = line.parser.feed(piece, &mut line.certificate)?;
    line.certificate.conclude(fed);
    Ok(())
}

fn end_drup<S: ClauseSource>(line: &mut Line<DrupParser, Checker, S>) -> Result<(), AllocError>
    requires vars { line.old.certificate.formula.vars ≡ line.old.parser.vars }
    requires open { line.old.certificate.outcome ≡ None }
    ensures leads { IfOk result (λ _. Leads drup_meaning line.old.certificate (drup_ending line.old.parser) line.new.certificate) }
    ensures vars { IfOk result (λ _. line.new.certificate.formula.vars ≡ line.new.parser.vars) }
{
    let fed = line.parser.end(&mut line.certificate)?;
    line.certificate.conclude(fed);
    Ok(())
}

fn end_lrat<S: ClauseSource>(line: &mut Line<LratParser, Hinted, S>) -> Result<(), AllocError>
    requires vars { line.old.certificate.formula.vars ≡ line.old.parser.vars }
    requires open { line.old.certificate.outcome ≡ None }
    ensures leads { IfOk result (λ _. Leads lrat_meaning line.old.certificate (lrat_ending line.old.parser) line.new.certificate) }
    ensures vars { IfOk result (λ _. line.new.certificate.formula.vars ≡ line.new.parser.vars) }
{
    let fed = line.parser.end(&mut line.certificate)?;
    line.certificate.conclude(fed);
    Ok(())
}

// Ends the lines of a file.
fn end_file_lines<S: ClauseSource>(
    line: &mut Line<ProofParser, Checker, S>,
) -> Result<(), AllocError>
    requires vars { line.old.certificate.formula.vars ≡ vars_of line.old.parser }
    requires open { line.old.certificate.outcome ≡ None }
    requires count { taken_of line.old.parser + 1 < 2 ^ 64 }
    ensures leads { IfOk result (λ _. Leads drup_meaning line.old.certificate (file_ending line.old.parser) line.new.certificate) }
    ensures vars { IfOk result (λ _. line.new.certificate.formula.vars ≡ vars_of line.new.parser) }
{
    let fed = line.parser.end(&mut line.certificate)?;
    line.certificate.conclude(fed);
    Ok(())
}

// A file's end tries a last empty clause.
fn end_file<S: ClauseSource>(line: &mut Line<ProofParser, Checker, S>) -> Result<(), AllocError>
    requires vars { line.old.certificate.formula.vars ≡ vars_of line.old.parser }
    requires open { line.old.certificate.outcome ≡ None }
    requires count { taken_of line.old.parser + 1 < 2 ^ 64 }
    ensures ended { IfOk result (λ _. HasEnded line.old.parser line.old.certificate line.new.certificate) }
    ensures vars { IfOk result (λ _. line.new.certificate.formula.vars ≡ vars_of line.new.parser) }
{
    let count = line.parser.taken();
    end_file_lines(line)?;
    line.certificate.try_empty(count)?;
    line.certificate.end_at(count);
    Ok(())
}

impl<S: ClauseSource> Lines<S> {
    /// Before the first byte.
    pub(crate) fn new(alloc: Global, source: S, kind: StreamKind) -> Result<Self, AllocError>
        ensures { IfOk result (Starts (S.formula source) kind) }
    {
        match kind {
            StreamKind::Drup => new_drup(alloc, source),
            StreamKind::Lrat => new_lrat(alloc, source),
            StreamKind::Proof => new_proof(alloc, source),
            StreamKind::ProofBinary => new_binary(alloc, source),
        }
    }

    pub(crate) fn outcome(&self) -> Option<Outcome>
        ensures { result ≡ lines_outcome self.now }
    {
        match self {
            Lines::Drup(line) => line.certificate.outcome(),
            Lines::Lrat(line) => line.certificate.outcome(),
            Lines::Proof(line) => line.certificate.outcome(),
            Lines::ProofBinary(line) => line.certificate.outcome(),
        }
    }

    /// How many bytes were taken, where there is no outcome.
    pub(crate) fn taken(&self) -> u64
        ensures { result ≡ lines_taken self.now }
    {
        match self {
            Lines::Drup(line) => line.parser.taken(),
            Lines::Lrat(line) => line.parser.taken(),
            Lines::Proof(line) => line.parser.taken(),
            Lines::ProofBinary(line) => line.parser.taken(),
        }
    }

    /// A bit for each variable, at its number; place 0 is no variable's.
    pub(crate) fn values(&self) -> &[bool]
        ensures { result.now ≡ lines_bits self.now }
    {
        match self {
            Lines::Drup(line) => line.certificate.bits(),
            Lines::Lrat(line) => line.certificate.bits(),
            Lines::Proof(line) => line.certificate.bits(),
            Lines::ProofBinary(line) => line.certificate.bits(),
        }
    }

    /// Where there is no outcome yet, it is this fault; answers the outcome.
    pub(crate) fn outcome_or(&mut self, kind: CertKind, at: u64) -> Outcome
        ensures outcome { lines_outcome self.new ≡ Some result }
        ensures new { self.new ≡ lines_or self.old (Outcome.Bad (record { kind = kind; at = at })) }
    {
        match self {
            Lines::Drup(line) => line.certificate.outcome_or(kind, at),
            Lines::Lrat(line) => line.certificate.outcome_or(kind, at),
            Lines::Proof(line) => line.certificate.outcome_or(kind, at),
            Lines::ProofBinary(line) => line.certificate.outcome_or(kind, at),
        }
    }

    /// Takes the next bytes of a stream.
    pub(crate) fn take(&mut self, piece: &[u8]) -> Result<(), AllocError>
        requires fits { Fits self.old }
        requires open { lines_outcome self.old ≡ None }
        requires count { lines_taken self.old + length piece.now < 2 ^ 64 }
        ensures took { IfOk result (λ _. Took self.old piece.now self.new) }
        ensures fits { IfOk result (λ _. Fits self.new) }
        ensures count { IfOk result (λ _. lines_taken self.new ≤ lines_taken self.old + length piece.now) }
    {
        match self {
            Lines::Drup(line) => take_drup(line, piece),
            Lines::Lrat(line) => take_lrat(line, piece),
            Lines::Proof(line) => take_file(line, piece),
            Lines::ProofBinary(line) => take_file(line, piece),
        }
    }

    /// Takes the stream's end.
    pub(crate) fn end(&mut self) -> Result<(), AllocError>
        requires fits { Fits self.old }
        requires open { lines_outcome self.old ≡ None }
        requires count { lines_taken self.old + 1 < 2 ^ 64 }
        ensures took { IfOk result (λ _. TookEnd self.old self.new) }
        ensures fits { IfOk result (λ _. Fits self.new) }
    {
        match self {
            Lines::Drup(line) => end_drup(line),
            Lines::Lrat(line) => end_lrat(line),
            Lines::Proof(line) => end_file(line),
            Lines::ProofBinary(line) => end_file(line),
        }
    }
}
