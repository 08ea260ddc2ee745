//! The net of a model.

ghost use Rattle.std.specs.Prelude.{◌≡◌, ◌*◌, ◌^◌, ◌<◌, ◌≤◌, ◌++◌, ◌∷◌, [], IfErr, IfOk, OnOk, length, map};
ghost use Rattle.cnf_form.specs.declared.literal.TheConstants.{MAX_VARS};
ghost use Rattle.gate_rows.specs.Literals.{Builds, IsFull};
ghost use Rattle.bit_net.specs.Net.{vars};
ghost use Rattle.frame_gates.specs.Frames.{IsTable};
ghost use Rattle.frame_net.specs.NetOf.{IsNetOf, net_cost};
ghost use Rattle.frame_net.specs.Making.{IsCycle, TellCovers, TellsAsserted};

use crate::free::{free_row, push};
use crate::order::in_order;
use bit_net::{Net, State};
use cnf_form::Lit;
use frame_gates::Frames;
use gate_graph::{GateFault, Gates};
use model_core::model::WordModel;
use std::alloc::{AllocError, Global};

/// One cycle of the model would take more than 2^27 variables.
#[derive(Clone, Copy, Debug, PartialEq, Eq)]
pub struct TooMany;

// The gates of a cycle, and the literals of what is said of it.
#[derive(Drop)]
struct Cycle {
    gates: Gates,
    next: Vec<Lit>,
    asserted: Option<Lit>,
    assumed: Lit,
    covers: Vec<Lit>,
}

// The literal that no assertion is broken, if there is an assertion.
fn asserted_of(
    frame: &Frames,
    gates: &mut Gates,
    model: &WordModel,
) -> Result<Option<Lit>, GateFault>
    requires table { IsTable model.now gates.old frame.now }
    ensures asserted { IfOk result (TellsAsserted model.now gates.new frame.now) }
    ensures builds { Builds gates.old gates.new (2 * length model.now.asserts) }
    ensures too_many { result ≡ Err GateFault.TooMany → IsFull gates.old gates.new (2 * length model.now.asserts) }
{
    if model.asserts().is_empty() {
        return Ok(None);
    }
    let broken = frame.broken(gates, model)?;
    Ok(Some(broken.negate()))
}

// For each cover statement the literal that it is reached.
fn covers_of(
    alloc: Global,
    frame: &Frames,
    gates: &mut Gates,
    model: &WordModel,
) -> Result<Vec<Lit>, GateFault>
    requires table { IsTable model.now gates.old frame.now }
    ensures covers { IfOk result (λ covers. TellCovers model.now gates.new frame.now (length model.now.covers) covers.items) }
    ensures builds { Builds gates.old gates.new (length model.now.covers) }
    ensures too_many { result ≡ Err GateFault.TooMany → IsFull gates.old gates.new (length model.now.covers) }
{
    let mut covers = Vec::new(alloc);
    for k in 0..model.covers().len() {
        let reached = frame.reached(gates, model, k)?;
        push(&mut covers, reached)?;
    }
    Ok(covers)
}

// The gates of a cycle: its state bits and inputs are the first variables, and after them stand the gates.
fn cycle_of(alloc: Global, model: &WordModel) -> Result<Cycle, GateFault>
    ensures cycle { IfOk result (λ c. IsCycle model.now c.gates c.next.items c.asserted c.assumed c.covers.items) }
    ensures size { IfOk result (λ c. c.gates.formula.vars ≤ net_cost model.now) }
    ensures too_many { result ≡ Err GateFault.TooMany → MAX_VARS < net_cost model.now }
{
    let _ = model.size();
    let mut gates = Gates::new(alloc)?;
    let states = free_row(alloc, &mut gates, model.states().len())?;
    let inputs = free_row(alloc, &mut gates, model.inputs().len())?;
    let mut frame = Frames::over(
        alloc,
        &mut gates,
        model,
        states.as_slice(),
        inputs.as_slice(),
    )?;
    let next = frame.next_states(alloc, &mut gates, model)?;
    let asserted = asserted_of(&frame, &mut gates, model)?;
    let assumed = frame.assumed(&mut gates, model)?;
    let covers = covers_of(alloc, &frame, &mut gates, model)?;
    Ok(Cycle {
        gates,
        next,
        asserted,
        assumed,
        covers,
    })
}

// Puts a state after the others.
fn push_state(states: &mut Vec<State>, state: State) -> Result<(), AllocError>
    ensures { OnOk result (states.new.items ≡ states.old.items ++ state ∷ []) }
{
    states.push(state)?;
    Ok(())
}

// The states with these digits, which take these literals.
fn states_of(alloc: Global, starts: &[Option<bool>], next: &[Lit]) -> Result<Vec<State>, AllocError>
    requires { length next.now ≡ length starts.now }
    ensures starts { IfOk result (λ states. map (λ s. s.start) states.items ≡ starts.now) }
    ensures next { IfOk result (λ states. map (λ s. s.next) states.items ≡ next.now) }
{
    let mut states = Vec::new(alloc);
    for (place, start) in starts.iter().enumerate() {
        let state = State {
            start: *start,
            next: next[place],
        };
        push_state(&mut states, state)?;
    }
    Ok(states)
}

// The net of a cycle's gates.
fn finish(alloc: Global, model: &WordModel, cycle: Cycle) -> Result<Net, AllocError>
    requires { IsCycle model.now cycle.gates cycle.next.items cycle.asserted cycle.assumed cycle.covers.items }
    ensures net { IfOk result (λ n. IsNetOf model.now n) }
    ensures size { IfOk result (λ n. vars n ≡ cycle.gates.formula.vars) }
{
    let _ = model.size();
    let Cycle {
        gates,
        next,
        asserted,
        assumed,
        covers,
    } = cycle;
    gates.promise();
    let _ = gates.constant(true);
    let inputs = model.inputs().len() as u32;
    let first = 2 + model.states().len() as u32 + inputs;
    let count = (gates.vars() + 1 - first) as usize;
    let states = states_of(alloc, model.starts(), next.as_slice())?;
    let kept = gates.into_kept();
    let gates = in_order(alloc, kept.as_slice(), first, count)?;
    Ok(Net::new(states, inputs, gates, asserted, assumed, covers))
}

/// The net of a model. It has at most `net_cost` variables, and is refused only where `net_cost` is more than 2^27.
pub fn net_of(alloc: Global, model: &WordModel) -> Result<Result<Net, TooMany>, AllocError>
    ensures net { IfOk result (λ r. IfOk r (IsNetOf model.now)) }
    ensures size { IfOk result (λ r. IfOk r (λ n. vars n ≤ net_cost model.now)) }
    ensures too_many { IfOk result (λ r. IfErr r (λ _. 2 ^ 27 < net_cost model.now)) }
{
    match cycle_of(alloc, model) {
        Ok(cycle) => Ok(Ok(finish(alloc, model, cycle)?)),
        Err(GateFault::TooMany) => Ok(Err(TooMany)),
        Err(GateFault::Memory) => Err(AllocError),
    }
}
