// The pair of a net.

ghost use Rattle.std.specs.Prelude.{◌≡◌, ◌↔◌, true, ◌+◌, ◌*◌, ◌^◌, ◌<◌, ◌≤◌, ◌++◌, ◌∷◌, [], IfErr, IfOk, length};
ghost use Rattle.cnf_form.specs.Cnf.{FormulaOf};
ghost use Rattle.gate_graph.specs.Kept.{clauses_from};
ghost use Rattle.bit_net.specs.Net.{vars};
ghost use Rattle.bit_net.specs.Reaching.{entries};
ghost use Rattle.net_pair.specs.Pairing.{bad_by, before_start, both, digits, made, pair_of, pair_vars, start_lit};

use crate::cycles::{
    bits_of, digit_count, digits_of, later, now, push_all, push_cycle, push_inputs,
};
use bit_net::Net;
use cnf_form::{Formula, Lit, MAX_VARS};
use gate_graph::Circuit;
use pair_form::{Frame, Pair};
use std::alloc::{AllocError, Global};

/// The gates of both cycles would take more than 2^27 variables.
#[derive(Clone, Copy, Debug, PartialEq, Eq)]
pub struct TooMany;

// How many variables the formula has.
fn vars_of(net: &Net, bits: &[Option<u32>]) -> u64
    ensures { result ≡ pair_vars net.now bits.now }
{
    net.promise();
    let all = net.states();
    let count = digit_count(all);
    let states = all.len() as u64 + count as u64;
    let cycle = u64::from(net.inputs()) + net.gates().len() as u64;
    let vars = 1 + states + 2 * cycle;
    vars.max(bits.len() as u64)
}

/// Whether the pair of a net takes no more than 2^27 variables, by counting alone.
pub fn fits(net: &Net, bits: &[Option<u32>]) -> bool
    ensures { (result ≡ true) ↔ (made net.now bits.now ≤ 2 ^ 27) }
{
    vars_of(net, bits) < u64::from(MAX_VARS)
}

// The gates of both cycles and of the start, and the literal of the start.
fn gates_of(alloc: Global, net: &Net, starts: &[Lit]) -> Result<(Formula, Lit), AllocError>
    requires starts { starts.now ≡ digits 0 net.now.states }
    requires room { vars (both net.now) ≤ MAX_VARS }
    ensures formula { IfOk result (λ r. r.0 ≡ record { vars = vars (both net.now); clauses = clauses_from (entries (both net.now)) }) }
    ensures start { IfOk result (λ r. r.1 ≡ start_lit net.now) }
{
    net.promise();
    let mut circuit = Circuit::new(alloc)?;
    push_inputs(&mut circuit, net.states().len() as u32 + 2 * net.inputs())?;
    push_cycle(&mut circuit, net, Frame::First)?;
    push_cycle(&mut circuit, net, Frame::Second)?;
    let start = push_all(&mut circuit, starts)?;
    Ok((circuit.finish(), start))
}

// The formula of the pair, and the literal of the start.
fn formula_of(
    alloc: Global,
    net: &Net,
    starts: &[Lit],
    bits: &[Option<u32>],
) -> Result<(Formula, Lit), AllocError>
    requires starts { starts.now ≡ digits 0 net.now.states }
    requires room { pair_vars net.now bits.now ≤ MAX_VARS }
    ensures formula { IfOk result (λ r. r.0 ≡ (pair_of net.now bits.now).formula) }
    ensures start { IfOk result (λ r. r.1 ≡ start_lit net.now) }
{
    net.promise();
    let (gates, start) = gates_of(alloc, net, starts)?;
    let vars = gates.vars().max(bits.len() as u32);
    let mut formula = gates.with_vars(vars);
    formula.push(&[now(net, net.assumed())])?;
    Ok((formula, start))
}

// The literal that the first cycle breaks an assertion.
fn bad_of(net: &Net) -> Lit
    requires { before_start net.now ≤ MAX_VARS }
    ensures { result ≡ bad_by net.now net.now.asserted }
{
    net.promise();
    match net.asserted() {
        Some(lit) => now(net, lit).negate(),
        None => Lit::new(1, true),
    }
}

/// The pair of a net that is known to fit, as `pair_of_net` gives it. It fails only where memory runs out.
pub fn pair_again(alloc: Global, net: &Net, bits: &[Option<u32>]) -> Result<Pair, AllocError>
    requires fits { made net.now bits.now ≤ 2 ^ 27 }
    ensures { IfOk result (λ p. p ≡ pair_of net.now bits.now) }
{
    net.promise();
    let starts = digits_of(alloc, net.states())?;
    let (formula, start) = formula_of(alloc, net, &starts, bits)?;
    let next = later(net, net.assumed());
    let lits = bits_of(alloc, net, bits)?;
    Ok(Pair::new(formula, start, next, bad_of(net), lits))
}

/// The pair of a net, of which `bits` has, for each number of a state bit from 1 on, the place of its state among those of the net, or none:
/// the value of a function of the two. Refused exactly where the gates of both cycles, or the numbers, take 2^27 variables or more, so that
/// one is always left over.
pub fn pair_of_net(
    alloc: Global,
    net: &Net,
    bits: &[Option<u32>],
) -> Result<Result<Pair, TooMany>, AllocError>
    ensures pair { IfOk result (λ r. IfOk r (λ p. p ≡ pair_of net.now bits.now)) }
    ensures fits { IfOk result (λ r. IfOk r (λ _. made net.now bits.now ≤ 2 ^ 27)) }
    ensures too_many { IfOk result (λ r. IfErr r (λ _. 2 ^ 27 < made net.now bits.now)) }
{
    if !fits(net, bits) {
        return Ok(Err(TooMany));
    }
    Ok(Ok(pair_again(alloc, net, bits)?))
}
