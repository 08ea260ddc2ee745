//! Encodings.

ghost use Rattle.std.specs.Prelude.{◌≡◌, ◌^◌, ◌<◌, ◌≤◌, IfErr, IfOk, MatchOption, None, length};
ghost use Rattle.cnf_form.specs.Cnf.{LitWithin};
ghost use Rattle.bit_net.specs.Net.{vars};
ghost use Rattle.net_unroll.specs.Asking.{goal_of as asked_goal};
ghost use Rattle.net_unroll.specs.Clauses.{IsEncoding};
ghost use Rattle.net_unroll.specs.Counting.{most_made};
ghost use Rattle.net_unroll.specs.Encoding.{empty_encoding, encoding, finished, formula_of, made};
ghost use Rattle.net_unroll.specs.Making.{IsMaking, made_of};

use crate::asking::{Asked, Cycles};
use crate::clauses::push_clauses;
use crate::cycles::add_cycles;
use crate::encoded::Free;
use crate::finishing::{Finished, finish};
use crate::making::Making;
use bit_net::Net;
use cnf_form::{Formula, Lit};
use gate_graph::{Gate, GateFault};
use std::alloc::{AllocError, Global};
use std::marker::Model;

/// The gates of all cycles would take more than 2^27 variables.
#[derive(Clone, Copy, Debug, PartialEq, Eq)]
pub struct TooMany;

/// What is asked of a net over some cycles, encoded: the gates on which it rests, the literals of which one is true where it is met, and
/// the free variables.
#[derive(Drop)]
pub struct Encoded {
    asks: bool,
    vars: u32,
    gates: Vec<(Gate, Lit)>,
    free: Vec<Free>,
    goals: Vec<Lit>,
}

impl Model for Encoded {
    ghost use Rattle.net_unroll.specs.Clauses.{IsEncoding};
    ghost use Rattle.net_unroll.specs.Encoding.{EncodedOf};

    ghost Value = { EncodedOf };

    ghost view = { λ e. record { asks = e.asks; vars = e.vars; gates = e.gates.items; free = e.free.items; goals = e.goals.items } };

    ghost invariant = { λ e. IsEncoding (record { asks = e.asks; vars = e.vars; gates = e.gates.items; free = e.free.items; goals = e.goals.items }) };
}

impl Encoded {
    /// What holds of every encoding.
    pub fn promise(&self)
        ensures { IsEncoding self.now }
    {
        let _ = &self.gates;
    }

    /// Whether there is something to ask for.
    pub fn asks(&self) -> bool
        ensures { result ≡ self.now.asks }
    {
        self.asks
    }

    /// How many variables there are, numbered from 1.
    pub fn vars(&self) -> u32
        ensures { result ≡ self.now.vars }
    {
        self.vars
    }

    /// The gates, each with the literal of its variable, in the order of the variables.
    pub fn gates(&self) -> &[(Gate, Lit)]
        ensures { result.now ≡ self.now.gates }
    {
        self.gates.as_slice()
    }

    /// The variables on which all others rest, cycle by cycle.
    pub fn free(&self) -> &[Free]
        ensures { result.now ≡ self.now.free }
    {
        self.free.as_slice()
    }

    /// The literals of which one is true where what is asked for is met, one for each cycle that may be the last.
    pub fn goals(&self) -> &[Lit]
        ensures { result.now ≡ self.now.goals }
    {
        self.goals.as_slice()
    }

    /// The formula: that variable 1 is true, the clauses of the gates, and that one of the goals is true; where there is nothing to ask for,
    /// the empty clause. It fails only where memory runs out.
    pub fn formula(&self, alloc: Global) -> Result<Formula, AllocError>
        ensures { IfOk result (λ f. f ≡ formula_of self.now) }
    {
        let mut formula = Formula::new(alloc, self.vars);
        if !self.asks {
            formula.push(&[])?;
            return Ok(formula);
        }
        formula.push(&[Lit::new(1, false)])?;
        for entry in self.gates.as_slice() {
            push_clauses(&mut formula, &entry.0, entry.1)?;
        }
        formula.push(self.goals.as_slice())?;
        Ok(formula)
    }
}

// The literal that is true in a cycle where what is asked for is met.
fn goal_of(net: &Net, asked: Asked) -> Option<Lit>
    ensures goal { result ≡ asked_goal net.now asked }
    ensures within { MatchOption result (result ≡ None) (λ l. LitWithin (vars net.now) l) }
{
    net.promise();
    match asked {
        Asked::Asserts => net.asserted().map(|lit| lit.negate()),
        Asked::Cover(place) => net.covers().get(place as usize).copied(),
    }
}

// The encoding where nothing is asked for.
fn empty(alloc: Global) -> Encoded
    ensures { result ≡ empty_encoding }
{
    Encoded {
        asks: false,
        vars: 1,
        gates: Vec::new(alloc),
        free: Vec::new(alloc),
        goals: Vec::new(alloc),
    }
}

// The encoding of what was made.
fn finished_of(alloc: Global, made: Making) -> Result<Encoded, AllocError>
    requires { IsMaking (length made.table.items) made }
    ensures { IfOk result (λ e. e ≡ finished (made_of made)) }
{
    let Finished {
        vars,
        gates,
        free,
        goals,
    } = finish(alloc, made)?;
    Ok(Encoded {
        asks: true,
        vars,
        gates,
        free,
        goals,
    })
}

/// How many variables what is asked of a net over this many cycles can take at most, by counting alone.
pub fn bound(net: &Net, count: u32) -> u64
    ensures { result ≡ most_made net.now count }
{
    net.promise();
    let open = u64::from(net.inputs()) + net.gates().len() as u64 + 4;
    1 + net.states().len() as u64 + u64::from(count) * open
}

/// What is asked of a net over some cycles, encoded: the value of a function of the net, of what is asked, and of the cycles. Refused
/// exactly where the gates of all cycles, shared and folded, would take more than 2^27 variables.
pub fn encode(
    alloc: Global,
    net: &Net,
    asked: Asked,
    cycles: Cycles,
) -> Result<Result<Encoded, TooMany>, AllocError>
    ensures encoded { IfOk result (λ r. IfOk r (λ e. e ≡ encoding net.now asked cycles)) }
    ensures fits { IfOk result (λ r. IfOk r (λ _. made net.now asked cycles ≤ 2 ^ 27)) }
    ensures too_many { IfOk result (λ r. IfErr r (λ _. 2 ^ 27 < made net.now asked cycles)) }
{
    let goal = match goal_of(net, asked) {
        Some(goal) => goal,
        None => return Ok(Ok(empty(alloc))),
    };
    match add_cycles(alloc, net, goal, cycles) {
        Ok(made) => Ok(Ok(finished_of(alloc, made)?)),
        Err(GateFault::TooMany) => Ok(Err(TooMany)),
        Err(GateFault::Memory) => Err(AllocError),
    }
}

/// Encodes a job again that is known to fit, as from an earlier call. It fails only where memory runs out.
pub fn encode_again(
    alloc: Global,
    net: &Net,
    asked: Asked,
    cycles: Cycles,
) -> Result<Encoded, AllocError>
    requires { made net.now asked cycles ≤ 2 ^ 27 }
    ensures { IfOk result (λ e. e ≡ encoding net.now asked cycles) }
{
    match encode(alloc, net, asked, cycles)? {
        Ok(encoded) => Ok(encoded),
        Err(TooMany) => unreachable!(),
    }
}
