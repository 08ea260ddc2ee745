// The model of a problem, and the net from which its jobs are made.

ghost use Rattle.std.specs.Prelude.{◌≡◌, ◌⊎◌, ◌<◌, ◌≤◌, ◌^◌, IfErr, IfNone, IfOk, IfSome, IsFalse, IsTrue, length};
ghost use Rattle.design_core.specs.Shape.{DesignOf};
ghost use Rattle.design_meaning.specs.Meaning.{covers as covers_in};
ghost use Rattle.judge.specs.Jobs.{jobs_in};
ghost use Rattle.judge.specs.Problem.{asked_in as asked_by_mode, job_size};
ghost use Rattle.judge.specs.Stored.{FitUpTo, IsBuiltFor, IsRefusedAmong};
ghost use Rattle.net_jobs.specs.Jobs.{IsOfSpan, job_made};
ghost use Rattle.net_pair.specs.Numbers.{HaveStates};
ghost use Rattle.word_model.specs.Numbers.{numbered_places};
ghost use Rattle.sby_terms.specs.Span.{IsSpan};
ghost use Rattle.task_net.specs.Net.{IsTaskNet};

use design_check::flat::Flat;
use model_cone::asked::Asked;
use model_core::model::WordModel;
use net_jobs::{encode, surely_fits};
use sby_terms::{JobName, Mode, Span};
use std::alloc::{AllocError, Global};
use task_net::TaskNet;
use word_model::build::build;

// The design's model.
pub(crate) fn model_of(alloc: Global, flat: &Flat) -> Result<WordModel, AllocError>
    ensures { IfOk result (λ m. IsBuiltFor flat.now m) }
{
    let _places = flat.design().places();
    let model = build(alloc, flat)?;
    let _size = model.size();
    Ok(model)
}

// The jobs of a mode over a span, in order, where there are this many cover statements.
fn names_of(alloc: Global, mode: Mode, span: Span, covers: u32) -> Result<Vec<JobName>, AllocError>
    requires { IsSpan span }
    ensures { (d : DesignOf) → length (covers_in d) ≡ covers → IfOk result (λ names. names.items ≡ jobs_in mode span d) }
{
    match mode {
        Mode::Bmc => {
            let mut names = Vec::new(alloc);
            for i in 0..span.slices() {
                names.push(JobName::Base(i))?;
            }
            Ok(names)
        }
        Mode::Prove => {
            let names = vec![in alloc; JobName::Base(0), JobName::Step]?;
            Ok(names)
        }
        Mode::ProveInv => {
            let names = vec![in alloc; JobName::Base(0), JobName::Inv]?;
            Ok(names)
        }
        Mode::Cover => {
            let mut names = Vec::new(alloc);
            for k in 0..covers {
                names.push(JobName::Cover(k))?;
            }
            Ok(names)
        }
    }
}

// The jobs of a problem, in order.
pub(crate) fn names_for(
    alloc: Global,
    flat: &Flat,
    model: &WordModel,
    mode: Mode,
    span: Span,
) -> Result<Vec<JobName>, AllocError>
    requires built { IsBuiltFor flat.now model.now }
    requires span { IsSpan span }
    ensures { IfOk result (λ names. names.items ≡ jobs_in mode span flat.now) }
{
    let covers = model.covers().len() as u32;
    let names = names_of(alloc, mode, span, covers)?;
    Ok(names)
}

// What the jobs of a mode ask.
pub(crate) fn asked_in(mode: Mode) -> Asked
    ensures { result ≡ asked_by_mode mode }
{
    match mode {
        Mode::Bmc | Mode::Prove | Mode::ProveInv => Asked::Asserts,
        Mode::Cover => Asked::Covers,
    }
}

// Whether a job of cycles told one after the other fits: by counting, or else by making it.
fn fits_told(alloc: Global, net: &TaskNet, job: JobName, span: Span) -> Result<bool, AllocError>
    requires span { IsSpan span }
    requires most { span.depth ≤ 100000 }
    requires job { IsOfSpan job span }
    ensures yes { IfOk result (λ b. IsTrue b → job_made net.now.net job span ≤ 2 ^ 27) }
    ensures no { IfOk result (λ b. IsFalse b → 2 ^ 27 < job_made net.now.net job span) }
{
    if surely_fits(net.net(), job, span) {
        return Ok(true);
    }
    let encoded = encode(alloc, net.net(), job, span)?;
    Ok(encoded.is_ok())
}

// Whether a job fits. The state bits stand by their numbers among those of the net.
fn fits(
    alloc: Global,
    net: &TaskNet,
    bits: &[Option<u32>],
    job: JobName,
    span: Span,
) -> Result<bool, AllocError>
    requires span { IsSpan span }
    requires most { span.depth ≤ 100000 }
    requires job { IsOfSpan job span ⊎ (job ≡ JobName.Inv) }
    ensures yes { IfOk result (λ b. IsTrue b → job_size net.now.net bits.now job span ≤ 2 ^ 27) }
    ensures no { IfOk result (λ b. IsFalse b → 2 ^ 27 < job_size net.now.net bits.now job span) }
{
    match job {
        JobName::Base(_) | JobName::Step | JobName::Cover(_) => fits_told(alloc, net, job, span),
        JobName::Inv => Ok(net_pair::fits(net.net(), bits)),
    }
}

// The first of the jobs that has too many variables, if one has.
pub(crate) fn first_unfit(
    alloc: Global,
    flat: &Flat,
    model: &WordModel,
    net: &TaskNet,
    bits: &[Option<u32>],
    mode: Mode,
    span: Span,
    names: &[JobName],
) -> Result<Option<JobName>, AllocError>
    requires built { IsBuiltFor flat.now model.now }
    requires span { IsSpan span }
    requires most { span.depth ≤ 100000 }
    requires net { IsTaskNet model.now (asked_by_mode mode) net.now }
    requires bits { HaveStates net.now.states (numbered_places flat.now) bits.now }
    requires names { names.now ≡ jobs_in mode span flat.now }
    ensures none { IfOk result (λ r. IfNone r (FitUpTo net.now bits.now span names.now (length names.now))) }
    ensures some { IfOk result (λ r. IfSome r (λ job. IsRefusedAmong flat.now model.now span names.now job)) }
{
    for name in names {
        if !fits(alloc, net, bits, *name, span)? {
            return Ok(Some(*name));
        }
    }
    Ok(None)
}
