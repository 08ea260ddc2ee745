//! The choices for a run that an assignment tells.

ghost use Rattle.std.specs.Prelude.{◌≡◌, ◌+◌, ◌*◌, ◌<◌, ◌≤◌, ◌++◌, ◌∷◌, [], ℕ, IfNone, IfOk, IfSome, List, OnOk, false, length, map, max, replicate, slice_index_or};
ghost use Rattle.cnf_form.specs.Cnf.{Assignment, lit_in};
ghost use Rattle.sby_terms.specs.Span.{IsSpan};
ghost use Rattle.job_terms.specs.Decoding.{decoded_by, values_of};
ghost use Rattle.job_terms.specs.Encoding.{decoded};
ghost use Rattle.bit_net.specs.Net.{state_var};
ghost use Rattle.bit_net.specs.declared.node.State.{State as StateOf};
ghost use Rattle.net_unroll.specs.declared.encoded.Free.{Free as FreeOf};
ghost use Rattle.net_jobs.specs.Decoding.{TellInputs, TellStates, cycles_until as cycles_before, goals_until as goals_before};
ghost use Rattle.net_jobs.specs.Jobs.{IsOfSpan, cycles_of as job_cycles, job_encoding, start_bits};
ghost use Rattle.net_jobs.specs.Reading.{decoding_of, encoded_of};

use crate::encoding::cycles_of;
use bit_net::{Net, State};
use cnf_form::Lit;
use model_play::choices::Choices;
use net_unroll::{Cycles, Encoded, Free};
use sby_terms::{JobName, Span};
use std::alloc::{AllocError, Global};

// The value of a variable; past the row's end it is false.
fn value(values: &[bool], var: u32) -> bool
    ensures { result ≡ values_of values.now var }
{
    match values.get(var as usize) {
        Some(bit) => *bit,
        None => false,
    }
}

// What the values make of a literal.
fn lit_value(values: &[bool], lit: Lit) -> bool
    ensures { result ≡ lit_in (values_of values.now) lit }
{
    let bit = value(values, lit.var());
    if lit.is_negated() { !bit } else { bit }
}

// How many goals there are up to the first that is true.
fn goals_until(values: &[bool], goals: &[Lit]) -> usize
    ensures count { result ≡ goals_before (values_of values.now) goals.now }
    ensures few { result ≤ length goals.now }
{
    for (place, goal) in goals.iter().enumerate() {
        if lit_value(values, *goal) {
            return place + 1;
        }
    }
    goals.len()
}

// How many cycles there are up to the first that ends, of which `early` come before the first goal.
fn cycles_until(values: &[bool], early: u32, goals: &[Lit]) -> usize
    ensures { result ≡ cycles_before (values_of values.now) early goals.now }
{
    if early == 0 {
        return goals_until(values, goals);
    }
    if value(values, 1) {
        early as usize + goals_until(values, goals)
    } else {
        1
    }
}

// This many bits, all 0.
fn zeros(alloc: Global, count: usize) -> Result<Vec<bool>, AllocError>
    ensures { IfOk result (λ bits. bits.items ≡ replicate count false) }
{
    let mut bits = Vec::new(alloc);
    bits.resize(count, false)?;
    Ok(bits)
}

// The state among this many for which a free variable stands, counted from 0.
fn state_of(free: Free, count: usize) -> Option<usize>
    ensures some { IfSome result (λ k. (free.cycle ≡ 0) × (free.place ≡ state_var k) × (k < count)) }
    ensures none { IfNone result ((k : ℕ) → k < count → free.cycle ≡ 0 → free.place ≡ state_var k → ⊥) }
{
    let place = free.place as usize;
    if free.cycle == 0 && place >= 2 && place - 2 < count {
        Some(place - 2)
    } else {
        None
    }
}

// Gives a state the bit of a free variable, if it stands for one.
fn put_state(bits: &mut Vec<bool>, free: Free, bit: bool)
    ensures size { length bits.new.items ≡ length bits.old.items }
    ensures tell { (x : Assignment) (rest : List FreeOf) → x free.var ≡ bit → TellStates x rest bits.old.items → TellStates x (free ∷ rest) bits.new.items }
{
    if let Some(state) = state_of(free, bits.len()) {
        bits[state] = bit;
    }
}

// A bit for each of this many states, 0 where it has no free variable. The first of two variables for one bit counts: so the last comes first.
fn state_bits(
    alloc: Global,
    values: &[bool],
    free: &[Free],
    count: usize,
) -> Result<Vec<bool>, AllocError>
    ensures size { IfOk result (λ bits. length bits.items ≡ count) }
    ensures tell { IfOk result (λ bits. TellStates (values_of values.now) free.now bits.items) }
{
    let mut bits = zeros(alloc, count)?;
    for place in (0..free.len()).rev() {
        let one = free[place];
        put_state(&mut bits, one, value(values, one.var));
    }
    Ok(bits)
}

// Puts the bit of a state that has no start digit after the others.
fn push_start(starts: &mut Vec<bool>, state: &State, bit: bool) -> Result<(), AllocError>
    ensures { OnOk result (starts.new.items ≡ starts.old.items ++ start_bits (state.now.start ∷ []) 0 (λ _. bit)) }
{
    if state.start.is_none() {
        starts.push(bit)?;
    }
    Ok(())
}

// The bits of the states that have no start digit.
fn starts_of(alloc: Global, states: &[State], bits: &[bool]) -> Result<Vec<bool>, AllocError>
    requires { length bits.now ≡ length states.now }
    ensures { IfOk result (λ starts. starts.items ≡ start_bits (map (λ (s : StateOf). s.start) states.now) 0 (λ k. slice_index_or bits.now k false)) }
{
    let mut starts = Vec::new(alloc);
    for (place, state) in states.iter().enumerate() {
        push_start(&mut starts, state, bits[place])?;
    }
    Ok(starts)
}

// The input among this many for which a free variable stands, counted from 0. Their variables go up from `first`.
fn input_of(free: Free, first: usize, width: usize) -> Option<usize>
    ensures some { IfSome result (λ k. (free.place ≡ first + k) × (k < width)) }
    ensures none { IfNone result ((k : ℕ) → k < width → free.place ≡ first + k → ⊥) }
{
    let place = free.place as usize;
    if place >= first && place - first < width {
        Some(place - first)
    } else {
        None
    }
}

// Gives an input the bit of a free variable, if it stands for one of these cycles. The inputs' variables go up from `first`.
fn put_input(bits: &mut Vec<bool>, first: usize, width: usize, count: usize, free: Free, bit: bool)
    requires { length bits.old.items ≡ count * width }
    ensures size { length bits.new.items ≡ length bits.old.items }
    ensures tell { (x : Assignment) (rest : List FreeOf) → x free.var ≡ bit → TellInputs x first width count rest bits.old.items → TellInputs x first width count (free ∷ rest) bits.new.items }
{
    let cycle = free.cycle as usize;
    if cycle >= count {
        return;
    }
    if let Some(input) = input_of(free, first, width) {
        bits[cycle * width + input] = bit;
    }
}

// A row of bits for each of this many cycles, 0 where an input has no free variable.
fn input_bits(
    alloc: Global,
    values: &[bool],
    free: &[Free],
    first: usize,
    width: usize,
    count: usize,
) -> Result<Vec<bool>, AllocError>
    ensures size { IfOk result (λ bits. length bits.items ≡ count * width) }
    ensures tell { IfOk result (λ bits. TellInputs (values_of values.now) first width count free.now bits.items) }
{
    let size = count.checked_mul(width).ok_or(AllocError)?;
    let mut bits = zeros(alloc, size)?;
    for place in (0..free.len()).rev() {
        let one = free[place];
        put_input(&mut bits, first, width, count, one, value(values, one.var));
    }
    Ok(bits)
}

// The choices that values tell of these cycles.
fn decode_cycles(
    alloc: Global,
    values: &[bool],
    net: &Net,
    cycles: Cycles,
    encoded: &Encoded,
) -> Result<Choices, AllocError>
    ensures { IfOk result (λ c. c ≡ decoded_by (decoding_of net.now cycles encoded.now) (values_of values.now)) }
{
    net.promise();
    let states = net.states();
    let free = encoded.free();
    let bits = state_bits(alloc, values, free, states.len())?;
    let starts = starts_of(alloc, states, bits.as_slice())?;
    let early = cycles.first.max(cycles.end);
    let count = cycles_until(values, early, encoded.goals());
    let width = net.inputs() as usize;
    let inputs = input_bits(alloc, values, free, 2 + states.len(), width, count)?;
    Ok(Choices::new(starts, inputs, width, count))
}

/// The choices for a run of the model that values tell of a job's encoding: a row with a bit for each variable at its number, so that place 0
/// says nothing; a variable past its end is false. There is a row of inputs for each cycle up to the first whose goal is true, and what has no
/// variable is chosen 0.
pub fn decode(
    alloc: Global,
    net: &Net,
    job: JobName,
    span: Span,
    encoded: &Encoded,
    values: &[bool],
) -> Result<Choices, AllocError>
    requires span { IsSpan span }
    requires job { IsOfSpan job span }
    requires high { span.depth ≤ 100000 }
    requires encoded { encoded.now ≡ job_encoding net.now job span }
    ensures { IfOk result (λ c. c ≡ decoded (encoded_of net.now job span) (values_of values.now)) }
{
    decode_cycles(alloc, values, net, cycles_of(job, span), encoded)
}
