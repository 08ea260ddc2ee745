// The net of a task.

ghost use Rattle.std.specs.Prelude.{◌≡◌, ◌↔◌, ◌≤◌, IfErr, IfOk, true};
ghost use Rattle.job_terms.specs.Decoding.{values_of};
ghost use Rattle.job_terms.specs.Encoding.{decoded};
ghost use Rattle.net_jobs.specs.Jobs.{IsOfSpan, job_encoding};
ghost use Rattle.sby_terms.specs.Span.{IsSpan};
ghost use Rattle.task_net.specs.Net.{HasNone, IsTaskNet, IsTooLarge, task_encoded};

use crate::kept::{kept_inputs, kept_starts};
use crate::spreading::spread_choices;
use bit_net::Net;
use frame_net::net_of;
use model_cone::asked::Asked;
use model_cone::cone::cone;
use model_cone::slice::cut;
use model_core::draft::Draft;
use model_core::model::WordModel;
use model_play::choices::Choices;
use net_jobs::decode;
use net_unroll::Encoded;
use sby_terms::{JobName, Span};
use std::alloc::{AllocError, Global};
use std::marker::Model;

/// One cycle of the slice could take more than 2^27 variables.
#[derive(Clone, Copy, Debug, PartialEq, Eq)]
pub struct TooMany;

/// What all jobs of a task are made from: the net of the slice of its model to what they ask.
#[derive(Drop)]
pub struct TaskNet {
    net: Net,
    // the places of the slice's state bits
    states: Vec<u32>,
    // of each open state bit of the model, and of each input, whether it is in the slice
    starts: Vec<bool>,
    inputs: Vec<bool>,
}

impl Model for TaskNet {
    ghost use Rattle.task_net.specs.Net.{TaskNetOf};

    ghost Value = { TaskNetOf };

    ghost view = { λ t. record { net = t.net; states = t.states.items; starts = t.starts.items; inputs = t.inputs.items } };
}

// Whether the model has no statement of the kind.
fn has_none(model: &WordModel, asked: Asked) -> bool
    ensures { (result ≡ true) ↔ HasNone model.now asked }
{
    match asked {
        Asked::Asserts => model.asserts().is_empty(),
        Asked::Covers => model.covers().is_empty(),
    }
}

// The net of the two constants, of which nothing of the model is part.
fn of_none(alloc: Global, model: &WordModel, asked: Asked) -> Result<TaskNet, AllocError>
    requires none { HasNone model.now asked }
    ensures { IfOk result (λ t. IsTaskNet model.now asked t) }
{
    let constants = Draft::new(alloc, 2, 0).finish();
    let net = match net_of(alloc, &constants)? {
        Ok(net) => net,
        Err(_) => unreachable!(),
    };
    net.promise();
    let mut marks = Vec::new(alloc);
    marks.resize(model.size() as usize, false)?;
    let starts = kept_starts(alloc, model, &marks)?;
    let inputs = kept_inputs(alloc, model, &marks)?;
    let states = Vec::new(alloc);
    Ok(TaskNet {
        net,
        states,
        starts,
        inputs,
    })
}

// The net of the slice to what is asked.
fn of_slice(
    alloc: Global,
    model: &WordModel,
    asked: Asked,
) -> Result<Result<TaskNet, TooMany>, AllocError>
    requires some { HasNone model.now asked → ⊥ }
    ensures net { IfOk result (λ r. IfOk r (λ t. IsTaskNet model.now asked t)) }
    ensures too_large { IfOk result (λ r. IfErr r (λ _. IsTooLarge model.now asked)) }
{
    let _size = model.size();
    let marks = cone(alloc, model, asked)?;
    let slice = cut(alloc, model, &marks)?;
    let starts = kept_starts(alloc, model, &marks)?;
    let inputs = kept_inputs(alloc, model, &marks)?;
    let net = match net_of(alloc, &slice)? {
        Ok(net) => net,
        Err(_) => return Ok(Err(TooMany)),
    };
    net.promise();
    let mut states = Vec::new(alloc);
    states.extend_from_slice(slice.states())?;
    Ok(Ok(TaskNet {
        net,
        states,
        starts,
        inputs,
    }))
}

impl TaskNet {
    /// The net of what a task asks of its model. Refused only where it asks something, and one cycle of the slice, neither shared nor folded,
    /// could take more than 2^27 variables.
    pub fn new(
        alloc: Global,
        model: &WordModel,
        asked: Asked,
    ) -> Result<Result<TaskNet, TooMany>, AllocError>
        ensures net { IfOk result (λ r. IfOk r (λ t. IsTaskNet model.now asked t)) }
        ensures too_large { IfOk result (λ r. IfErr r (λ _. IsTooLarge model.now asked)) }
    {
        if has_none(model, asked) {
            return Ok(Ok(of_none(alloc, model, asked)?));
        }
        of_slice(alloc, model, asked)
    }

    /// The choices for a run of the whole model that values tell of a job's encoding: a row with a bit for each variable at its number, so
    /// that place 0 says nothing; a variable past its end is false. There is a row of inputs for each cycle up to the first whose goal is
    /// true. What is outside the slice is chosen 0.
    pub fn decode(
        &self,
        alloc: Global,
        job: JobName,
        span: Span,
        encoded: &Encoded,
        values: &[bool],
    ) -> Result<Choices, AllocError>
        requires span { IsSpan span }
        requires job { IsOfSpan job span }
        requires high { span.depth ≤ 100000 }
        requires encoded { encoded.now ≡ job_encoding self.now.net job span }
        ensures { IfOk result (λ c. c ≡ decoded (task_encoded self.now job span) (values_of values.now)) }
    {
        let choices = decode(alloc, &self.net, job, span, encoded, values)?;
        let spread = spread_choices(alloc, &choices, &self.starts, &self.inputs)?;
        Ok(spread)
    }

    /// The net from which each job is made.
    pub fn net(&self) -> &Net
        ensures { result.now ≡ self.now.net }
    {
        &self.net
    }

    /// The places of the state bits of the slice, in the order of the net's states.
    pub fn states(&self) -> &[u32]
        ensures { result.now ≡ self.now.states }
    {
        self.states.as_slice()
    }
}
