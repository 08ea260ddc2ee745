// Gates in the order of their variables.

ghost use Rattle.std.specs.Prelude.{◌≡◌, ◌+◌, ◌<◌, IfOk, length, replicate};
ghost use Rattle.frame_net.specs.Making.{AreInOrder, HasEach};

use cnf_form::Lit;
use gate_graph::Gate;
use std::alloc::{AllocError, Global};

// Room for this many gates.
fn blank(alloc: Global, count: usize) -> Result<Vec<Gate>, AllocError>
    ensures { IfOk result (λ gates. length gates.items ≡ count) }
{
    let truth = Lit::new(1, false);
    let mut gates = Vec::new(alloc);
    gates.resize(count, Gate::And(truth, truth))?;
    Ok(gates)
}

// The gates, each at the place of its variable.
pub fn in_order(
    alloc: Global,
    kept: &[(Gate, Lit)],
    first: u32,
    count: usize,
) -> Result<Vec<Gate>, AllocError>
    requires { HasEach kept.now first count }
    ensures { IfOk result (λ gates. AreInOrder kept.now first count gates.items) }
{
    let mut gates = blank(alloc, count)?;
    for entry in kept {
        gates[(entry.1.var() - first) as usize] = entry.0;
    }
    Ok(gates)
}
