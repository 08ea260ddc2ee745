// The judge of one stream.

ghost use Rattle.std.specs.Prelude.{◌≡◌, ◌≢◌, ◌≤◌, ◌^◌, ◌++◌, List, ℕ, [], IfOk, IsErr, OnErr, MatchBool, Ok, Err};
ghost use Rattle.judge.specs.Answers.{state_told};
ghost use Rattle.judge.specs.Fates.{Serves};
ghost use Rattle.judge.specs.Judging.{Ends, Feeds, Took, TookAll};
ghost use Rattle.judge.specs.Problem.{IsJob};
ghost use Rattle.cert_judge.specs.declared.stream.BadCert.{BadCert};

use crate::certificate::CertificateJudge;
use crate::finding::Finding;
use crate::invariant::InvariantReader;
use crate::problem::Problem;
use crate::witness::WitnessReader;
use cert_judge::{BadCert, Kind};
use sby_terms::JobName;
use std::alloc::{AllocError, Global};
use std::marker::Model;

/// What a judge answers to a piece of its stream.
#[derive(Drop)]
pub enum Progress {
    /// Nothing yet.
    More,
    /// The stream is a certificate up to here, for the finding's answer.
    Done(Finding),
    /// The engine doesn't know.
    Unknown,
}

/// How a judge stands.
#[derive(Clone, Copy)]
pub enum State {
    /// It takes bytes.
    Reading,
    /// It answered this, and answers it from then on.
    Refused(BadCert),
    /// It answered Done or Unknown, and takes no more bytes.
    Over,
    /// Memory ran out; every later call answers that.
    Wanting,
}

/// Whether streams of a kind are judged for a job: invariants for Inv alone, certificates for each other, witnesses for those that ask for a
/// run from the start, which Step doesn't.
pub fn serves(kind: Kind, job: JobName) -> bool
    ensures { MatchBool result (Serves kind job) (Serves kind job → ⊥) }
{
    match kind {
        Kind::Certificate(_) => job != JobName::Inv,
        Kind::Witness => job != JobName::Step && job != JobName::Inv,
        Kind::Invariant => job == JobName::Inv,
    }
}

// Who judges the stream.
#[derive(Drop)]
pub(crate) enum Reader<'a> {
    Certificate(CertificateJudge<'a>),
    Witness(WitnessReader<'a>),
    Invariant(InvariantReader<'a>),
}

/// A judge of one stream, of any kind, as evidence for a job of a problem. It keeps no bytes of the stream: each is looked at once. Of a
/// witness it keeps what its frames choose, for no more frames than the job has; of an invariant its clauses.
#[derive(Drop)]
pub struct Judge<'a> {
    reader: Reader<'a>,
}

impl<'a> Model for Judge<'a> {
    ghost use Rattle.judge.specs.Judging.{JudgeOf, judge_of};

    ghost Value = { JudgeOf };

    ghost view = { λ a. judge_of a.reader };
}

impl<'a> Judge<'a> {
    /// A judge that has taken nothing yet, and takes at most `most` bytes, from 1 to 2^32.
    pub fn new(
        alloc: Global,
        problem: &'a Problem,
        job: JobName,
        kind: Kind,
        most: u64,
    ) -> Result<Self, AllocError>
        requires job { IsJob problem.now job }
        requires serves { Serves kind job }
        requires least { 1 ≤ most }
        requires limit { most ≤ 2 ^ 32 }
        ensures asked { IfOk result (λ j. j.asked ≡ problem.now) }
        ensures job { IfOk result (λ j. j.job ≡ job) }
        ensures kind { IfOk result (λ j. j.kind ≡ kind) }
        ensures most { IfOk result (λ j. j.most ≡ most) }
        ensures took { IfOk result (λ j. Took j []) }
    {
        let reader = match kind {
            Kind::Certificate(kind) => {
                Reader::Certificate(CertificateJudge::new(alloc, problem, job, kind, most)?)
            }
            Kind::Witness => Reader::Witness(WitnessReader::new(alloc, problem, job, most)?),
            Kind::Invariant => Reader::Invariant(InvariantReader::new(alloc, problem, most)?),
        };
        Ok(Judge { reader })
    }

    /// Takes the next piece of the stream, and answers the fate of all bytes so far, or More where there is none yet. What follows a
    /// complete certificate, witness or invariant isn't read.
    ///
    /// After a BadCert every call answers it again, and after an answer out of memory every call answers that. After Done or Unknown no
    /// more bytes may come.
    pub fn feed(&mut self, piece: &[u8]) -> Result<Result<Progress, BadCert>, AllocError>
        requires { self.old.state ≢ State.Over }
        ensures feeds { (bytes : List ℕ) → Took self.old bytes → IfOk result (λ r. Feeds self.old self.new (bytes ++ piece.now) r) }
        ensures refused { (b : BadCert) → self.old.state ≡ State.Refused b → (result ≡ Ok (Err b)) × (self.new ≡ self.old) }
        ensures wanting { self.old.state ≡ State.Wanting → IsErr result }
        ensures err { OnErr result (self.new.state ≡ State.Wanting) }
    {
        match &mut self.reader {
            Reader::Certificate(judge) => judge.feed(piece),
            Reader::Witness(judge) => judge.feed(piece),
            Reader::Invariant(judge) => judge.feed(piece),
        }
    }

    /// The stream ends. Answers its fate, and never More; where Done or Unknown was answered, that again.
    pub fn end(&mut self) -> Result<Result<Progress, BadCert>, AllocError>
        ensures ends { (bytes : List ℕ) → Took self.old bytes → IfOk result (λ r. Ends self.old self.new bytes r) }
        ensures again { (bytes : List ℕ) → TookAll self.old bytes → IfOk result (λ r. Ends self.old self.new bytes r) }
        ensures refused { (b : BadCert) → self.old.state ≡ State.Refused b → (result ≡ Ok (Err b)) × (self.new ≡ self.old) }
        ensures wanting { self.old.state ≡ State.Wanting → IsErr result }
        ensures err { OnErr result (self.new.state ≡ State.Wanting) }
    {
        match &mut self.reader {
            Reader::Certificate(judge) => judge.end(),
            Reader::Witness(judge) => judge.end(),
            Reader::Invariant(judge) => judge.end(),
        }
    }
}

// How a judge stands after what it told.
pub(crate) fn state_told(told: &Result<Result<Progress, BadCert>, AllocError>) -> State
    ensures { result ≡ state_told told.now }
{
    match told {
        Ok(Ok(Progress::More)) => State::Reading,
        Ok(Ok(Progress::Done(_) | Progress::Unknown)) => State::Over,
        Ok(Err(bad)) => State::Refused(*bad),
        Err(_) => State::Wanting,
    }
}
