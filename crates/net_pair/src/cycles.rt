// The gates of the two cycles, and of a start.

ghost use Rattle.std.specs.Prelude.{◌≡◌, ◌+◌, ◌*◌, ◌<◌, ◌≤◌, ◌++◌, [], All, IfOk, OnOk, length, map, true};
ghost use Rattle.cnf_form.specs.Cnf.{LitWithin};
ghost use Rattle.cnf_form.specs.declared.literal.TheConstants.{MAX_VARS};
ghost use Rattle.gate_graph.specs.Folding.{operands};
ghost use Rattle.gate_graph.specs.Kept.{OthersWithin, lit_of};
ghost use Rattle.bit_net.specs.Net.{vars};
ghost use Rattle.net_pair.specs.Laying.{with_gates, with_inputs};
ghost use Rattle.net_pair.specs.Pairing.{all_of, before_gates, before_start, bit_by, chain, digit_of, digits, gate_at, gates_at, later, lit_at, now, raised};

use bit_net::{Net, Node, State};
use cnf_form::Lit;
use gate_graph::{Circuit, Gate};
use pair_form::{BitLits, Frame};
use std::alloc::{AllocError, Global};

// The literal of a variable that stands this much higher.
fn raised(lit: Lit, by: u32) -> Lit
    requires some { 0 < lit.var }
    requires room { lit.var + by ≤ MAX_VARS }
    ensures { result ≡ raised by lit }
{
    Lit::new(lit.var() + by, lit.is_negated())
}

// A literal of the net in the first cycle.
pub fn now(net: &Net, lit: Lit) -> Lit
    requires room { before_start net.now ≤ MAX_VARS }
    requires lit { LitWithin (vars net.now) lit }
    ensures { result ≡ now net.now lit }
{
    let inputs = net.inputs();
    if lit.var() < 2 + net.states().len() as u32 + inputs {
        lit
    } else {
        raised(lit, inputs)
    }
}

// A literal of the net in the second cycle, in which a state is what it takes in the first.
pub fn later(net: &Net, lit: Lit) -> Lit
    requires room { before_start net.now ≤ MAX_VARS }
    requires lit { LitWithin (vars net.now) lit }
    ensures { result ≡ later net.now lit }
{
    net.promise();
    if lit.var() == 1 {
        return lit;
    }
    match net.node(lit.var()) {
        Node::State(state) => {
            let taken = now(net, state.next);
            if lit.is_negated() {
                taken.negate()
            } else {
                taken
            }
        }
        Node::Input => raised(lit, net.inputs()),
        Node::Gate(_) => raised(lit, net.inputs() + net.gates().len() as u32),
    }
}

fn lit_at(net: &Net, frame: Frame, lit: Lit) -> Lit
    requires room { before_start net.now ≤ MAX_VARS }
    requires lit { LitWithin (vars net.now) lit }
    ensures { result ≡ lit_at net.now frame lit }
{
    match frame {
        Frame::First => now(net, lit),
        Frame::Second => later(net, lit),
    }
}

// A gate of the net in a cycle.
fn gate_at(net: &Net, frame: Frame, gate: Gate) -> Gate
    requires room { before_start net.now ≤ MAX_VARS }
    requires gate { OthersWithin (vars net.now) (operands gate) }
    ensures { result ≡ gate_at net.now frame gate }
{
    match gate {
        Gate::And(a, b) => Gate::And(lit_at(net, frame, a), lit_at(net, frame, b)),
        Gate::Xor(a, b) => Gate::Xor(lit_at(net, frame, a), lit_at(net, frame, b)),
        Gate::Mux(s, a, b) => Gate::Mux(
            lit_at(net, frame, s),
            lit_at(net, frame, a),
            lit_at(net, frame, b),
        ),
        Gate::Maj(a, b, c) => Gate::Maj(
            lit_at(net, frame, a),
            lit_at(net, frame, b),
            lit_at(net, frame, c),
        ),
    }
}

// This many inputs more.
pub fn push_inputs(circuit: &mut Circuit, count: u32) -> Result<(), AllocError>
    requires { circuit.old.formula.vars + count ≤ MAX_VARS }
    ensures { OnOk result (circuit.new ≡ with_inputs circuit.old count) }
{
    for _ in 0..count {
        circuit.input()?;
    }
    Ok(())
}

// The net's gates in a cycle.
pub fn push_cycle(circuit: &mut Circuit, net: &Net, frame: Frame) -> Result<(), AllocError>
    requires room { before_start net.now ≤ MAX_VARS }
    requires vars { circuit.old.formula.vars ≡ before_gates net.now frame }
    ensures { OnOk result (circuit.new ≡ with_gates circuit.old (gates_at net.now frame)) }
{
    net.promise();
    for gate in net.gates() {
        circuit.gate(&gate_at(net, frame, *gate))?;
    }
    Ok(())
}

// Puts the literal that a state has its start digit after the others, if it has one.
fn push_digit(lits: &mut Vec<Lit>, place: u32, start: Option<bool>) -> Result<(), AllocError>
    requires { place + 2 ≤ MAX_VARS }
    ensures { OnOk result (lits.new.items ≡ lits.old.items ++ digit_of place start) }
{
    if let Some(bit) = start {
        lits.push(Lit::new(place + 2, !bit))?;
    }
    Ok(())
}

// The count, and one more where a state has a start digit.
fn counted(count: usize, start: Option<bool>) -> usize
    requires { count < MAX_VARS }
    ensures { result ≡ count + length (digit_of 0 start) }
{
    if start.is_some() { count + 1 } else { count }
}

// How many states have a start digit.
pub fn digit_count(states: &[State]) -> usize
    requires { length states.now < MAX_VARS }
    ensures { result ≡ length (digits 0 states.now) }
{
    let mut count = 0;
    for state in states {
        count = counted(count, state.start);
    }
    count
}

// The literals that the states have the start digits that they have.
pub fn digits_of(alloc: Global, states: &[State]) -> Result<Vec<Lit>, AllocError>
    requires { length states.now < MAX_VARS }
    ensures { IfOk result (λ lits. lits.items ≡ digits 0 states.now) }
{
    let mut lits = Vec::new(alloc);
    for (place, state) in states.iter().enumerate() {
        push_digit(&mut lits, place as u32, state.start)?;
    }
    Ok(lits)
}

// The literal that says whether these are all true.
pub fn push_all(circuit: &mut Circuit, lits: &[Lit]) -> Result<Lit, AllocError>
    requires room { circuit.old.formula.vars + length lits.now ≤ MAX_VARS }
    requires lits { All (LitWithin circuit.old.formula.vars) lits.now }
    ensures literal { IfOk result (λ l. l ≡ all_of (circuit.old.formula.vars + 1) (lit_of 1 true) lits.now) }
    ensures gates { OnOk result (circuit.new ≡ with_gates circuit.old (chain (circuit.old.formula.vars + 1) (lit_of 1 true) lits.now)) }
{
    let mut all = circuit.truth();
    for lit in lits {
        all = circuit.gate(&Gate::And(all, *lit))?;
    }
    Ok(all)
}

// The literals of the state that a number has, if it has one.
fn bit_of(net: &Net, bit: Option<u32>) -> Option<BitLits>
    requires { before_start net.now ≤ MAX_VARS }
    ensures { result ≡ bit_by net.now bit }
{
    net.promise();
    let place = bit?;
    let state = net.states().get(place as usize)?;
    Some(BitLits {
        first: Lit::new(place + 2, false),
        second: now(net, state.next),
    })
}

// The literals of the states by their numbers.
pub fn bits_of(
    alloc: Global,
    net: &Net,
    bits: &[Option<u32>],
) -> Result<Vec<Option<BitLits>>, AllocError>
    requires { before_start net.now ≤ MAX_VARS }
    ensures { IfOk result (λ lits. lits.items ≡ map (bit_by net.now) bits.now) }
{
    let mut lits = Vec::new(alloc);
    for bit in bits {
        lits.push(bit_of(net, *bit))?;
    }
    Ok(lits)
}
