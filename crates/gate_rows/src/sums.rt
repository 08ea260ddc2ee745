// Sums of rows.

ghost use Rattle.std.specs.Prelude.{◌≡◌, ◌+◌, ◌*◌, ◌<◌, ◌≤◌, ◌++◌, [], ◌∷◌, All, length, IfOk, OnOk};
ghost use Rattle.cnf_form.specs.Cnf.{LitWithin, lit_in};
ghost use Rattle.gate_rows.specs.Literals.{Builds, IsFull};
ghost use Rattle.gate_rows.specs.Sums.{IsAtLeast, IsSave, IsSum, MakesAdder};

use crate::bits::{make, push};
use cnf_form::Lit;
use gate_graph::{Gate, GateFault, Gates};
use std::alloc::Global;

// The sum bit and the carry of three bits.
fn adder(gates: &mut Gates, p: Lit, q: Lit, r: Lit) -> Result<(Lit, Lit), GateFault>
    requires p { LitWithin gates.old.formula.vars p }
    requires q { LitWithin gates.old.formula.vars q }
    requires r { LitWithin gates.old.formula.vars r }
    ensures adder { IfOk result (λ o. MakesAdder gates.old gates.new p q r o.0 o.1) }
    ensures builds { Builds gates.old gates.new 3 }
    ensures too_many { result ≡ Err GateFault.TooMany → IsFull gates.old gates.new 3 }
{
    let differ = make(gates, Gate::Xor(p, q))?;
    let sum = make(gates, Gate::Xor(differ, r))?;
    let carry = make(gates, Gate::Maj(p, q, r))?;
    Ok((sum, carry))
}

/// The sum of two rows of one length and a carry, with the carry out of it. After an `Err` some gates may have been made.
pub fn add(
    alloc: Global,
    gates: &mut Gates,
    a: &[Lit],
    b: &[Lit],
    carry: Lit,
) -> Result<(Vec<Lit>, Lit), GateFault>
    requires as_many { length a.now ≡ length b.now }
    requires a { All (LitWithin gates.old.formula.vars) a.now }
    requires b { All (LitWithin gates.old.formula.vars) b.now }
    requires carry { LitWithin gates.old.formula.vars carry }
    ensures sum { IfOk result (λ r. IsSum gates.old gates.new a.now b.now carry (length a.now) r.0.items r.1) }
    ensures builds { Builds gates.old gates.new (3 * length a.now) }
    ensures too_many { result ≡ Err GateFault.TooMany → IsFull gates.old gates.new (3 * length a.now) }
{
    let mut row = Vec::new(alloc);
    let mut over = carry;
    for i in 0..a.len() {
        let p = a[i];
        let q = b[i];
        let (sum, next) = adder(gates, p, q, over)?;
        push(&mut row, sum)?;
        over = next;
    }
    Ok((row, over))
}

/// Two rows whose sum is that of three rows of one length, but for the carry out of them. After an `Err` some gates may have been made.
pub fn save(
    alloc: Global,
    gates: &mut Gates,
    a: &[Lit],
    b: &[Lit],
    c: &[Lit],
) -> Result<(Vec<Lit>, Vec<Lit>, Lit), GateFault>
    requires b_long { length a.now ≡ length b.now }
    requires c_long { length a.now ≡ length c.now }
    requires a { All (LitWithin gates.old.formula.vars) a.now }
    requires b { All (LitWithin gates.old.formula.vars) b.now }
    requires c { All (LitWithin gates.old.formula.vars) c.now }
    ensures sum { IfOk result (λ r. IsSave gates.old gates.new a.now b.now c.now (length a.now) r.0.items r.1.items r.2) }
    ensures builds { Builds gates.old gates.new (3 * length a.now) }
    ensures too_many { result ≡ Err GateFault.TooMany → IsFull gates.old gates.new (3 * length a.now) }
{
    let mut row = Vec::new(alloc);
    let mut carries = Vec::new(alloc);
    let mut over = gates.constant(false);
    for i in 0..a.len() {
        let p = a[i];
        let q = b[i];
        let r = c[i];
        let (sum, next) = adder(gates, p, q, r)?;
        push(&mut row, sum)?;
        push(&mut carries, over)?;
        over = next;
    }
    Ok((row, carries, over))
}

/// Whether the number of one row is at least that of another of its length. After an `Err` some gates may have been made.
pub fn at_least(gates: &mut Gates, a: &[Lit], b: &[Lit]) -> Result<Lit, GateFault>
    requires as_many { length a.now ≡ length b.now }
    requires a { All (LitWithin gates.old.formula.vars) a.now }
    requires b { All (LitWithin gates.old.formula.vars) b.now }
    ensures bit { IfOk result (IsAtLeast gates.old gates.new a.now b.now (length a.now)) }
    ensures builds { Builds gates.old gates.new (length a.now) }
    ensures too_many { result ≡ Err GateFault.TooMany → IsFull gates.old gates.new (length a.now) }
{
    let mut lit = gates.constant(true);
    for i in 0..a.len() {
        let p = a[i];
        let q = b[i];
        lit = make(gates, Gate::Maj(p, q.negate(), lit))?;
    }
    Ok(lit)
}
