// A problem: a text, its design and model, and the net from which its jobs are made.

ghost use Rattle.std.specs.Prelude.{◌≡◌, ◌≢◌, ◌+◌, ◌<◌, ◌≤◌, ℕ, All, List, IfOk, MatchResult, Some, length, slice_get};
ghost use Rattle.cnf_form.specs.Cnf.{Satisfies};
ghost use Rattle.job_terms.specs.Decoding.{values_of};
ghost use Rattle.job_terms.specs.Encoding.{EncodedOf};
ghost use Rattle.judge.specs.Fault.{IsProblemFault};
ghost use Rattle.judge.specs.Jobs.{jobs_of, span_of};
ghost use Rattle.net_jobs.specs.Jobs.{job_encoding};
ghost use Rattle.net_unroll.specs.Encoding.{formula_of};
ghost use Rattle.judge.specs.Played.{IsPlayed};
ghost use Rattle.judge.specs.Telling.{design_run};
ghost use Rattle.judge.specs.Problem.{AskedOf, IsEncodedOf, IsFormulaOf, IsJob, IsJobFile, IsProblem, IsTold, asked_in, pair_in};
ghost use Rattle.judge.specs.Fates.{Serves};
ghost use Rattle.cert_judge.specs.declared.stream.Kind.TheVariants as Kind;
ghost use Rattle.judge.specs.Witness.{IsLinesFile};
ghost use Rattle.sby_terms.specs.Span.{IsSpan, whole};

use crate::basis::Basis;
use crate::encoding::{first_unfit, names_for};
use crate::job_file::JobFile;
use crate::run::PlayedRun;
use crate::text::Text;
use crate::witness::sought_of;
use btor_emit::emit::emit;
use btor_emit::shape::Shape;
use btor_text::write;
use design_check::check::DesignFault;
use design_check::flat::Flat;
use design_reader::ReadFault;
use model_core::model::WordModel;
use model_play::kept::Kept;
use model_play::whole::play;
use net_jobs::encode_again;
use net_pair::pair_again;
use net_text::EncodedClauses;
use net_unroll::Encoded;
use pair_form::Pair;
use sby_terms::{JobName, Mode, Span};
use source_rows::source_rows;
use std::alloc::{AllocError, Global};
use std::marker::Model;
use std::sync::Arc;

/// What is asked: a design's text, a mode and the cycles to look at; with the design that the text reads, its model, and the net of
/// what the mode asks, which problems can share. No job is kept: each is made from the net when it is wanted.
#[derive(Drop)]
pub struct Problem {
    text: Text,
    mode: Mode,
    span: Span,
    basis: Arc<Basis, Global>,
    names: Vec<JobName>,
}

impl Model for Problem {
    ghost use Rattle.std.specs.Arc.{arc_value};
    ghost use Rattle.judge.specs.Problem.{AskedOf};

    ghost Value = { AskedOf };

    ghost use Rattle.judge.specs.Stored.{IsStored, asked_by};

    ghost view = { λ a. asked_by a.text a.mode a.span (arc_value a.basis).design (arc_value a.basis).model (arc_value a.basis).shape (arc_value a.basis).net (arc_value a.basis).bits };

    ghost invariant = { λ a. IsStored (asked_by a.text a.mode a.span (arc_value a.basis).design (arc_value a.basis).model (arc_value a.basis).shape (arc_value a.basis).net (arc_value a.basis).bits) a.names.items };
}

/// Why a problem is refused: the text reads no design, the design has a fault, or a job has too many variables.
#[derive(Drop)]
pub enum ProblemFault {
    Read(ReadFault),
    Design(DesignFault),
    TooMany(JobName),
}

impl Problem {
    /// The problem of a design's text, over a span of at most 100,000 cycles; only bmc may skip cycles and have several slices. Each
    /// job of the mode, of bmc one for each slice, is made once, in their order, and dropped, so that each fits. A refusal is that of the
    /// earliest stage, and drops the text.
    pub fn new(
        alloc: Global,
        text: Vec<u8>,
        mode: Mode,
        span: Span,
    ) -> Result<Result<Problem, ProblemFault>, AllocError>
        requires span { IsSpan span }
        requires most { span.depth ≤ 100000 }
        requires mode { mode ≢ Mode.Bmc → span ≡ whole span.depth }
        ensures problem { IfOk result (λ r. MatchResult r
            (λ p. (p.problem ≡ record { text = text.items; mode = mode; span = span }) × IsProblem p)
            (IsProblemFault (record { text = text.items; mode = mode; span = span }))) }
    {
        let basis = match Basis::new(alloc, text, mode, span)? {
            Ok(basis) => basis,
            Err(fault) => return Ok(Err(fault)),
        };
        match Arc::new(alloc, basis) {
            Ok(basis) => Problem::over(alloc, basis, mode, span),
            Err(_) => Err(AllocError),
        }
    }

    // The problem over what was made of its text for what its mode asks.
    pub(crate) fn over(
        alloc: Global,
        basis: Arc<Basis, Global>,
        mode: Mode,
        span: Span,
    ) -> Result<Result<Problem, ProblemFault>, AllocError>
        requires span { IsSpan span }
        requires most { span.depth ≤ 100000 }
        requires mode { mode ≢ Mode.Bmc → span ≡ whole span.depth }
        requires asked { basis.value.asked ≡ asked_in mode }
        ensures problem { IfOk result (λ r. MatchResult r
            (λ p. (p.problem ≡ record { text = basis.value.text; mode = mode; span = span }) × IsProblem p)
            (IsProblemFault (record { text = basis.value.text; mode = mode; span = span }))) }
    {
        let made = &*basis;
        let (flat, model, net, bits) = (made.flat(), made.model(), made.net(), made.bits());
        let names = names_for(alloc, flat, model, mode, span)?;
        let unfit = first_unfit(alloc, flat, model, net, bits, mode, span, names.as_slice())?;
        if let Some(job) = unfit {
            return Ok(Err(ProblemFault::TooMany(job)));
        }
        let text = made.text().share()?;
        let problem = Problem {
            text,
            mode,
            span,
            basis,
            names,
        };
        let _ = problem.flat();
        Ok(Ok(problem))
    }

    // What was made of the text, with one more owner.
    pub(crate) fn share_basis(&self) -> Result<Arc<Basis, Global>, AllocError> {
        let basis = Arc::try_clone(&self.basis)?;
        Ok(basis)
    }

    /// The design's text.
    pub fn text(&self) -> &[u8]
        ensures { result.now ≡ self.now.problem.text }
    {
        self.text.as_slice()
    }

    // The text, with one more owner.
    pub(crate) fn share_text(&self) -> Result<Text, AllocError>
        ensures { IfOk result (λ text. text ≡ self.now.problem.text) }
    {
        let text = self.text.share()?;
        Ok(text)
    }

    /// The design's text, which the problem gives up.
    pub fn into_text(self) -> Text
        ensures { result ≡ self.problem.text }
    {
        self.text
    }

    /// The mode.
    pub fn mode(&self) -> Mode
        ensures { result ≡ self.now.problem.mode }
    {
        self.mode
    }

    /// The cycles to look at.
    pub fn span(&self) -> Span
        ensures { result ≡ self.now.problem.span }
    {
        self.span
    }

    /// The design that the text reads.
    pub fn flat(&self) -> &Flat
        ensures flat { result.now ≡ self.now.design }
        ensures problem { IsProblem self.now }
    {
        self.basis.flat()
    }

    /// How many jobs there are.
    pub fn jobs(&self) -> usize
        ensures { result ≡ length (jobs_of self.now.problem self.now.design) }
    {
        self.names.len()
    }

    /// The job at a place, in the order of the jobs.
    pub fn job(&self, place: usize) -> JobName
        requires { place < length (jobs_of self.now.problem self.now.design) }
        ensures { slice_get (jobs_of self.now.problem self.now.design) place ≡ Some result }
    {
        self.names[place]
    }

    /// What is put as the job's file, made for it: its formula in DIMACS; of Inv the pair of two neighbouring cycles.
    pub fn job_file(&self, alloc: Global, job: JobName) -> Result<JobFile, AllocError>
        requires { IsJob self.now job }
        ensures { IfOk result (λ file. IsJobFile self.now job file) }
    {
        let _flat = self.flat();
        match job {
            JobName::Base(_) | JobName::Step | JobName::Cover(_) => {
                let encoded = self.encoded(alloc, job)?;
                Ok(JobFile::of_formula(encoded))
            }
            JobName::Inv => {
                let pair = self.pair(alloc)?;
                Ok(JobFile::of_pair(pair))
            }
        }
    }

    /// Each job has a file.
    pub fn has_file(&self, job: JobName)
        requires { IsJob self.now job }
        ensures { (bytes : List ℕ) × IsJobFile self.now job bytes }
    {
        let _flat = self.flat();
    }

    /// What is put as the job's file for engines that print witnesses: the model in BTOR2, made for it. Its one bad, or one for each
    /// assertion in file order, is what the job asks for.
    pub fn lines_file(&self, alloc: Global, job: JobName) -> Result<Vec<u8>, AllocError>
        requires job { IsJob self.now job }
        requires run { Serves Kind.Witness job }
        ensures { IfOk result (λ bytes. IsLinesFile self.now job bytes.items) }
    {
        let flat = self.flat();
        let Some(sought) = sought_of(self.span, job) else {
            unreachable!()
        };
        let rows = source_rows(alloc, flat)?;
        let emitted = emit(alloc, self.model(), &rows, sought.goal)?;
        let text = write(alloc, &emitted.model)?;
        Ok(text)
    }

    // The pair of two neighbouring cycles, made from the net.
    pub(crate) fn pair(&self, alloc: Global) -> Result<Pair, AllocError>
        requires { IsJob self.now JobName.Inv }
        ensures { IfOk result (λ pair. pair ≡ pair_in self.now) }
    {
        let _flat = self.flat();
        pair_again(alloc, self.basis.net().net(), self.basis.bits())
    }

    // A job of cycles told one after the other as it is encoded, made from the net.
    fn encoded(&self, alloc: Global, job: JobName) -> Result<Encoded, AllocError>
        requires { IsTold self.now job }
        ensures { IfOk result (λ e. e ≡ job_encoding self.now.net.net job (span_of self.now.problem)) }
    {
        let _flat = self.flat();
        encode_again(alloc, self.basis.net().net(), job, self.span)
    }

    // Such a job's formula, which gives its clauses as they are asked for.
    pub(crate) fn clauses(&self, alloc: Global, job: JobName) -> Result<EncodedClauses, AllocError>
        requires { IsTold self.now job }
        ensures { IfOk result (λ e. IsFormulaOf self.now job (formula_of e)) }
    {
        let encoded = self.encoded(alloc, job)?;
        EncodedClauses::new(encoded)
    }

    // The run for which values that satisfy the formula of Base or Cover stand.
    pub(crate) fn played(
        &self,
        alloc: Global,
        job: JobName,
        values: &[bool],
    ) -> Result<PlayedRun, AllocError>
        requires run { job ≢ JobName.Step }
        requires satisfying { (e : EncodedOf) × IsEncodedOf self.now job e × Satisfies (values_of values.now) e.formula.clauses }
        ensures { IfOk result (λ run. (e : EncodedOf) × IsEncodedOf self.now job e × IsPlayed self.now e (values_of values.now) run) }
    {
        let encoded = self.encoded(alloc, job)?;
        let basis = &*self.basis;
        let (flat, model, net) = (basis.flat(), basis.model(), basis.net());
        let choices = net.decode(alloc, job, self.span, &encoded, values)?;
        let rows = play(alloc, model, &choices)?;
        let run = self.run_of(alloc, rows)?;
        Ok(run)
    }

    // The design's run in the rows of its model.
    pub(crate) fn run_of(&self, alloc: Global, rows: Kept) -> Result<PlayedRun, AllocError>
        requires { All (λ row. length row ≡ self.now.model.size) rows }
        ensures { IfOk result (λ run. run ≡ design_run self.now.design rows) }
    {
        let basis = &*self.basis;
        let (flat, model) = (basis.flat(), basis.model());
        let design = flat.design();
        let wires = design.bits();
        let free = design.free();
        let kept = model.size() - (wires + free + 2);
        let run = PlayedRun::new(alloc, rows, wires, free, kept)?;
        Ok(run)
    }

    // The design's model.
    pub(crate) fn model(&self) -> &WordModel
        ensures { result.now ≡ self.now.model }
    {
        self.basis.model()
    }

    // What a witness may say of the model.
    pub(crate) fn shape(&self, alloc: Global) -> Result<Shape, AllocError>
        ensures states { IfOk result (λ s. s.states.items ≡ self.now.shape.states) }
        ensures inputs { IfOk result (λ s. s.inputs ≡ self.now.shape.inputs) }
    {
        copied(alloc, self.basis.shape())
    }
}

// A copy of a shape.
fn copied(alloc: Global, shape: &Shape) -> Result<Shape, AllocError>
    ensures states { IfOk result (λ s. s.states.items ≡ shape.now.states.items) }
    ensures inputs { IfOk result (λ s. s.inputs ≡ shape.now.inputs) }
{
    let mut states = Vec::new(alloc);
    states.extend_from_slice(&shape.states)?;
    let inputs = shape.inputs.copy(alloc)?;
    Ok(Shape { states, inputs })
}
