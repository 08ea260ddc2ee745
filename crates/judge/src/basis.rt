// What problems of one text have in common.

ghost use Rattle.std.specs.Prelude.{◌≡◌, ◌<◌, IfOk, MatchResult, Some, length, slice_get};
ghost use Rattle.design_core.specs.Shape.{DesignOf};
ghost use Rattle.judge.specs.Basis.{IsBasis};
ghost use Rattle.judge.specs.Fault.{IsProblemFault};
ghost use Rattle.judge.specs.Jobs.{jobs_in};
ghost use Rattle.judge.specs.Problem.{asked_in};
ghost use Rattle.net_pair.specs.Numbers.{HaveStates};
ghost use Rattle.task_net.specs.Net.{IsTaskNet};
ghost use Rattle.word_model.specs.Numbers.{numbered_places};
ghost use Rattle.sby_terms.specs.Span.{IsSpan};

use crate::encoding::{asked_in, model_of};
use crate::problem::ProblemFault;
use crate::text::Text;
use btor_emit::shape::Shape;
use design_check::check::check;
use design_check::flat::Flat;
use design_reader::read;
use model_cone::asked::Asked;
use model_core::model::WordModel;
use net_pair::states_at;
use sby_terms::{JobName, Mode, Span};
use source_rows::source_rows;
use std::alloc::{AllocError, Global};
use std::marker::Model;
use task_net::TaskNet;
use witness_judge::open_shape;
use word_model::numbers::numbered_places;

// A text, what is asked of it, the design that it reads, its model, what a witness may say of that, the net of what is asked, and by their
// numbers the design's state bits among those of the net.
#[derive(Drop)]
pub(crate) struct Basis {
    text: Text,
    asked: Asked,
    flat: Flat,
    model: WordModel,
    shape: Shape,
    net: TaskNet,
    bits: Vec<Option<u32>>,
}

impl Model for Basis {
    ghost use Rattle.judge.specs.Basis.{BasisOf, IsBasis};

    ghost Value = { BasisOf };

    ghost view = { λ a. record { text = a.text; asked = a.asked; design = a.flat; model = a.model; shape = record { states = a.shape.states.items; inputs = a.shape.inputs }; net = a.net; bits = a.bits.items } };

    ghost invariant = { λ a. IsBasis (record { text = a.text; asked = a.asked; design = a.flat; model = a.model; shape = record { states = a.shape.states.items; inputs = a.shape.inputs }; net = a.net; bits = a.bits.items }) };
}

// The first job of a mode that has jobs.
fn first_job(mode: Mode) -> JobName
    ensures { (span : Span) (d : DesignOf) → 0 < length (jobs_in mode span d) → slice_get (jobs_in mode span d) 0 ≡ Some result }
{
    match mode {
        Mode::Bmc | Mode::Prove | Mode::ProveInv => JobName::Base(0),
        Mode::Cover => JobName::Cover(0),
    }
}

// By their numbers the design's state bits among those of the net.
fn bits_of(
    alloc: Global,
    flat: &Flat,
    model: &WordModel,
    net: &TaskNet,
) -> Result<Vec<Option<u32>>, AllocError>
    requires net { (asked : Asked) × IsTaskNet model.now asked net.now }
    ensures { IfOk result (λ bits. HaveStates net.now.states (numbered_places flat.now) bits.items) }
{
    let places = numbered_places(alloc, flat)?;
    states_at(alloc, model.size(), net.states(), &places)
}

impl Basis {
    // What is made of a text for the jobs of a mode, or why it is refused.
    pub(crate) fn new(
        alloc: Global,
        text: Vec<u8>,
        mode: Mode,
        span: Span,
    ) -> Result<Result<Basis, ProblemFault>, AllocError>
        requires span { IsSpan span }
        ensures basis { IfOk result (λ r. MatchResult r
            (λ b. (b.text ≡ text.items) × (b.asked ≡ asked_in mode))
            (IsProblemFault (record { text = text.items; mode = mode; span = span }))) }
    {
        let design = match read(alloc, text.as_slice())? {
            Ok(design) => design,
            Err(fault) => return Ok(Err(ProblemFault::Read(fault))),
        };
        let flat = match check(alloc, design)? {
            Ok(flat) => flat,
            Err(fault) => return Ok(Err(ProblemFault::Design(fault))),
        };
        let model = model_of(alloc, &flat)?;
        let asked = asked_in(mode);
        let net = match TaskNet::new(alloc, &model, asked)? {
            Ok(net) => net,
            Err(_) => return Ok(Err(ProblemFault::TooMany(first_job(mode)))),
        };
        let rows = source_rows(alloc, &flat)?;
        let shape = open_shape(alloc, &model, &rows)?;
        let bits = bits_of(alloc, &flat, &model, &net)?;
        let text = Text::new(alloc, text)?;
        Ok(Ok(Basis {
            text,
            asked,
            flat,
            model,
            shape,
            net,
            bits,
        }))
    }

    // The text.
    pub(crate) fn text(&self) -> &Text
        ensures { result.now ≡ self.now.text }
    {
        &self.text
    }

    // What is asked.
    pub(crate) fn asked(&self) -> Asked
        ensures { result ≡ self.now.asked }
    {
        self.asked
    }

    // The design.
    pub(crate) fn flat(&self) -> &Flat
        ensures flat { result.now ≡ self.now.design }
        ensures basis { IsBasis self.now }
    {
        &self.flat
    }

    // Its model.
    pub(crate) fn model(&self) -> &WordModel
        ensures { result.now ≡ self.now.model }
    {
        &self.model
    }

    // What a witness may say of the model.
    pub(crate) fn shape(&self) -> &Shape
        ensures states { result.now.states.items ≡ self.now.shape.states }
        ensures inputs { result.now.inputs ≡ self.now.shape.inputs }
    {
        &self.shape
    }

    // The net of what is asked.
    pub(crate) fn net(&self) -> &TaskNet
        ensures { result.now ≡ self.now.net }
    {
        &self.net
    }

    // By their numbers the design's state bits among those of the net.
    pub(crate) fn bits(&self) -> &[Option<u32>]
        ensures { result.now ≡ self.now.bits }
    {
        self.bits.as_slice()
    }
}
