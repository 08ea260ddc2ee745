// Products of rows, by rows whose carries are saved.

ghost use Rattle.std.specs.Prelude.{◌≡◌, ◌+◌, ◌*◌, ◌^◌, All, length, IfOk, pos};
ghost use Rattle.cnf_form.specs.Cnf.{Assignment, LitWithin, lit_in};
ghost use Rattle.sby_bits.specs.Rows.{fit, num};
ghost use Rattle.gate_rows.specs.Literals.{Builds, IsFull, MeansRow, row_of};
ghost use Rattle.gate_rows.specs.Sums.{AddsTerm, at};

use crate::bits::{BitOp, each};
use crate::places::moved_up;
use crate::sums::{add, save};
use cnf_form::Lit;
use gate_graph::{GateFault, Gates};
use std::alloc::Global;

// The row at place `k` where the bit is set, else zeros.
fn term(
    alloc: Global,
    gates: &mut Gates,
    a: &[Lit],
    bit: Lit,
    k: u32,
    y: u32,
) -> Result<Vec<Lit>, GateFault>
    requires a { All (LitWithin gates.old.formula.vars) a.now }
    requires bit { LitWithin gates.old.formula.vars bit }
    ensures row { let row = λ (x : Assignment). fit y (pos (num (row_of x a.now) * at k (lit_in x bit))) in
        IfOk result (λ word. MeansRow gates.new row word.items) }
    ensures builds { Builds gates.old gates.new y }
    ensures too_many { result ≡ Err GateFault.TooMany → IsFull gates.old gates.new y }
{
    let zeros = moved_up(alloc, gates, &[], 0, y as usize)?;
    let moved = moved_up(alloc, gates, a, k as usize, y as usize)?;
    let word = each(alloc, gates, &BitOp::Mux(bit), &zeros, &moved)?;
    Ok(word)
}

// One term more on two rows, as two rows.
fn add_term(
    alloc: Global,
    gates: &mut Gates,
    a: &[Lit],
    bit: Lit,
    k: u32,
    s: &[Lit],
    c: &[Lit],
    y: u32,
) -> Result<(Vec<Lit>, Vec<Lit>), GateFault>
    requires a { All (LitWithin gates.old.formula.vars) a.now }
    requires bit { LitWithin gates.old.formula.vars bit }
    requires s { All (LitWithin gates.old.formula.vars) s.now }
    requires c { All (LitWithin gates.old.formula.vars) c.now }
    requires s_long { length s.now ≡ y }
    requires c_long { length c.now ≡ y }
    ensures term { IfOk result (λ r. AddsTerm gates.old gates.new y a.now bit k s.now c.now r.0.items r.1.items) }
    ensures builds { Builds gates.old gates.new (4 * y) }
    ensures too_many { result ≡ Err GateFault.TooMany → IsFull gates.old gates.new (4 * y) }
{
    let p = term(alloc, gates, a, bit, k, y)?;
    let (t, u, _) = save(alloc, gates, s, c, &p)?;
    Ok((t, u))
}

/// The product of two rows of length `y`, modulo two to the `y`. After an `Err` some gates may have been made.
pub fn mul(
    alloc: Global,
    gates: &mut Gates,
    a: &[Lit],
    b: &[Lit],
    y: u32,
) -> Result<Vec<Lit>, GateFault>
    requires a_long { length a.now ≡ y }
    requires b_long { length b.now ≡ y }
    requires a { All (LitWithin gates.old.formula.vars) a.now }
    requires b { All (LitWithin gates.old.formula.vars) b.now }
    ensures row { let row = λ (x : Assignment). fit y (pos (num (row_of x a.now) * num (row_of x b.now))) in
        IfOk result (λ word. MeansRow gates.new row word.items) }
    ensures builds { Builds gates.old gates.new (4 * y * y + 3 * y) }
    ensures too_many { result ≡ Err GateFault.TooMany → IsFull gates.old gates.new (4 * y * y + 3 * y) }
{
    let mut s = moved_up(alloc, gates, &[], 0, y as usize)?;
    let mut c = moved_up(alloc, gates, &[], 0, y as usize)?;
    for k in 0..y {
        let bit = b[k as usize];
        let (t, u) = add_term(alloc, gates, a, bit, k, &s, &c, y)?;
        s = t;
        c = u;
    }
    let zero = gates.constant(false);
    let (row, _) = add(alloc, gates, &s, &c, zero)?;
    Ok(row)
}
