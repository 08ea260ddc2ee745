// What the clauses of gates say once the operands' bits are known.

ghost use Rattle.std.specs.Prelude.{◌≡◌, All, length, IfOk};
ghost use Rattle.cnf_form.specs.Cnf.{LitWithin};

use cnf_form::Lit;
use gate_graph::{GateFault, Gates};
use gate_rows::push;
use std::alloc::{AllocError, Global};

// The value of each variable, where it is known.
#[derive(Drop)]
struct Values {
    of: Vec<Option<bool>>,
}

impl Values {
    fn get(&self, l: Lit) -> Option<bool> {
        match self.of.get(l.var() as usize) {
            Some(Some(value)) => Some(*value != l.is_negated()),
            _ => None,
        }
    }

    fn set(&mut self, l: Lit) {
        if let Some(slot) = self.of.get_mut(l.var() as usize) {
            *slot = Some(!l.is_negated());
        }
    }

    // The literal of the clause that is open, where it is the only one and the others are false.
    fn unit(&self, clause: &[Lit]) -> Option<Lit> {
        let mut open = None;
        for l in clause {
            match self.get(*l) {
                Some(true) => return None,
                Some(false) => {}
                None if open.is_some() => return None,
                None => open = Some(*l),
            }
        }
        open
    }
}

// The values once the inputs have their bits and each clause is closed, in order.
fn close(
    alloc: Global,
    gates: &Gates,
    inputs: &[Lit],
    bits: &[bool],
) -> Result<Values, AllocError> {
    let mut of = Vec::new(alloc);
    for _ in 0..gates.vars() {
        of.push(None)?;
    }
    of.push(None)?;
    let mut values = Values { of };
    for (l, bit) in inputs.iter().zip(bits) {
        values.set(if *bit { *l } else { l.negate() });
    }
    let formula = gates.formula(alloc)?;
    let clauses = formula.clauses();
    for place in 0..clauses.len() {
        if let Some(l) = values.unit(clauses.get(place)) {
            values.set(l);
        }
    }
    Ok(values)
}

// Whether the word is this row once the inputs have their bits.
pub fn is_row(
    alloc: Global,
    gates: &Gates,
    inputs: &[Lit],
    bits: &[bool],
    word: &[Lit],
    want: &[bool],
) -> Result<bool, AllocError> {
    let values = close(alloc, gates, inputs, bits)?;
    Ok(word.len() == want.len() && are_bits(&values, word, want))
}

fn are_bits(values: &Values, word: &[Lit], want: &[bool]) -> bool {
    for (l, bit) in word.iter().zip(want) {
        if values.get(*l) != Some(*bit) {
            return false;
        }
    }
    true
}

// This many inputs.
pub fn inputs(alloc: Global, gates: &mut Gates, n: usize) -> Result<Vec<Lit>, GateFault>
    ensures within { IfOk result (λ word. All (LitWithin gates.new.formula.vars) word.items) }
    ensures long { IfOk result (λ word. length word.items ≡ n) }
{
    let mut word = Vec::new(alloc);
    for _ in 0..n {
        let l = gates.input()?;
        push(&mut word, l)?;
    }
    Ok(word)
}
