// Gates and their rows, shared and limited.

use cnf_form::{Clauses, Lit};
use gate_graph::{GateFault, Gates};
use std::test::Fail;

// Bit v of `bits` is the value of variable v.
fn is_true(bits: u32, l: Lit) -> bool {
    if l.var() >= 32 {
        return false;
    }
    ((bits >> l.var()) % 2 == 1) != l.is_negated()
}

fn holds(bits: u32, clause: &[Lit]) -> bool {
    clause.iter().any(|l| is_true(bits, *l))
}

fn satisfies(bits: u32, clauses: &Clauses) -> bool {
    (0..clauses.len()).all(|place| holds(bits, clauses.get(place)))
}

#[derive(Drop)]
struct Circuit {
    inputs: [Lit; 3],
    gates: [Lit; 4],
}

// Whether the gates are `and`, `xor`, `mux` and `maj` of the inputs where the variables have these bits.
fn is_right(bits: u32, circuit: &Circuit) -> bool {
    let [s, a, b] = circuit.inputs;
    let [both, differ, chosen, most] = circuit.gates;
    let r = is_true(bits, s);
    let p = is_true(bits, a);
    let q = is_true(bits, b);
    let picked = if r { q } else { p };
    is_true(bits, both) == (p && q)
        && is_true(bits, differ) == (p != q)
        && is_true(bits, chosen) == picked
        && is_true(bits, most) == ((p && q) || (p && r) || (q && r))
}

// The number of rows of bits for variables 1 to 8 that satisfy the clauses, where the gates are right in each.
fn rows(clauses: &Clauses, circuit: &Circuit) -> Option<u32> {
    let mut count: u32 = 0;
    for half in 0..256 {
        if satisfies(2 * half, clauses) {
            if !is_right(2 * half, circuit) {
                return None;
            }
            count = count.saturating_add(1);
        }
    }
    Some(count)
}

fn circuit_in(gates: &mut Gates) -> Result<Circuit, GateFault> {
    let s = gates.input()?;
    let a = gates.input()?;
    let b = gates.input()?;
    Ok(Circuit {
        inputs: [s, a, b],
        gates: [
            gates.and(a, b)?,
            gates.xor(a, b)?,
            gates.mux(s, a, b)?,
            gates.maj(s, a, b)?,
        ],
    })
}

#[test]
fn gates_have_their_values(rt: HostRuntime) -> Result<(), Fail> {
    let mut gates = Gates::new(rt.alloc())?;
    let circuit = circuit_in(&mut gates)?;
    let formula = gates.formula(rt.alloc())?;
    let clauses = formula.clauses();
    assert_eq!(rt;
        (gates.vars(), gates.inputs().len(), clauses.len()),
        (8, 3, 18)
    );
    assert_eq!(rt; rows(&clauses, &circuit), Some(8));
    Ok(())
}

// Whether a gate asked again, and one of equal operands, is there already.
fn is_there(gates: &mut Gates) -> Result<bool, GateFault> {
    let a = gates.input()?;
    let b = gates.input()?;
    let both = gates.and(a, b)?;
    Ok(gates.and(b, a)? == both && gates.xor(a, a)? == gates.constant(false))
}

#[test]
fn what_is_there_makes_no_variable(rt: HostRuntime) -> Result<(), Fail> {
    let mut gates = Gates::new(rt.alloc())?;
    assert!(rt; is_there(&mut gates)?);
    assert_eq!(rt; gates.vars(), 4);
    Ok(())
}

// Whether one input is all that fits, and its negation still answers.
fn is_full_behind_one(gates: &mut Gates) -> Result<bool, GateFault> {
    let a = gates.input()?;
    Ok(gates.input() == Err(GateFault::TooMany) && gates.not(gates.not(a)) == a)
}

#[test]
fn a_limit_refuses_what_is_new(rt: HostRuntime) -> Result<(), Fail> {
    let mut gates = Gates::within(rt.alloc(), 2)?;
    assert!(rt; is_full_behind_one(&mut gates)?);
    assert_eq!(rt; gates.formula(rt.alloc())?.clauses().len(), 1);
    Ok(())
}
