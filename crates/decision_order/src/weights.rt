// Phases by weight, for formulas that are too large for local search: a variable is decided as more of its clauses have it, and a
// clause counts half as much for each literal more that it has (Jeroslow and Wang, 1990). Nothing is promised of it.

use crate::cover::{at, set};
use crate::order::Order;
use crate::unassigned::is_satisfied;
use cnf_form::Lit;
use std::alloc::{AllocError, Global};
use unit_propagation::Propagator;

// Twice the weight of a clause of one literal.
const MOST_WEIGHT: u32 = 1 << 10;

// From this many literals on clauses count alike.
const MOST_HALVES: usize = 10;

// The weight of a clause of this many literals.
fn weight_of(length: usize) -> u32 {
    let mut weight = MOST_WEIGHT;
    for _ in 0..length.min(MOST_HALVES) {
        weight /= 2;
    }
    weight
}

// The weights of the literals, by their indices, over those of the first clauses, this many, that level 0 doesn't satisfy.
fn weigh(alloc: Global, core: &Propagator, given: usize) -> Result<Vec<u32>, AllocError> {
    let mut weights = vec![in alloc; 0; 2 * core.vars() as usize + 2]?;
    for k in 0..core.len() {
        if k >= given {
            break;
        }
        if let Some(clause) = core.clause(k as u32) {
            if !is_satisfied(core, clause) {
                let weight = weight_of(clause.len());
                for l in clause {
                    let sum = at(&weights, l.index());
                    set(&mut weights, l.index(), sum.saturating_add(weight));
                }
            }
        }
    }
    Ok(weights)
}

// At level 0: sets the phase of each variable to that of its heavier literal.
pub(crate) fn set_phases_by_weight(
    alloc: Global,
    core: &Propagator,
    given: usize,
    order: &mut Order,
) -> Result<(), AllocError> {
    let weights = weigh(alloc, core, given)?;
    let mut phases = Vec::new(alloc);
    phases.push(true)?;
    for place in 0..core.vars() {
        let l = Lit::new(place + 1, false);
        phases.push(at(&weights, l.negate().index()) >= at(&weights, l.index()))?;
    }
    order.set_phases(&phases, false);
    Ok(())
}
