// Steps, one by one.

ghost use Rattle.std.specs.Prelude.{◌≡◌, ◌+◌, ◌-◌, ◌<◌, ◌≤◌, ◌++◌, ◌∷◌, [], All, IfOk, List, OnOk, false, length, map, replicate, true};
ghost use Rattle.cnf_form.specs.Cnf.{LitOf, LitWithin, negate};
ghost use Rattle.cnf_form.specs.declared.literal.TheConstants.{MAX_VARS};
ghost use Rattle.gate_graph.specs.Folding.{asked, constant, operands};
ghost use Rattle.gate_graph.specs.Kept.{OthersWithin};
ghost use Rattle.bit_net.specs.Net.{vars};
ghost use Rattle.net_unroll.specs.Making.{IsMaking, both, core_of, made_of, moved, nothing_made, over, over_gate, run, settled};
ghost use Rattle.net_unroll.specs.Program.Step.{Assume, Constant, Copy, End, Input, Move, Pass};

use crate::encoded::Free;
use bit_net::Net;
use cnf_form::Lit;
use gate_graph::{Gate, GateFault, Gates};
use std::alloc::{AllocError, Global};

// The gates so far, the inputs among their variables, and for each variable of a net the literal that stands for it in the cycle at hand;
// the literals that all was assumed and that nothing was met, and those of the cycles in which what solves the job can end.
#[derive(Drop)]
pub struct Making {
    pub gates: Gates,
    pub free: Vec<Free>,
    pub table: Vec<Lit>,
    pub assumed: Lit,
    pub ok: Lit,
    pub goals: Vec<Lit>,
}

// The literal that stands in the table for a literal.
fn over(table: &[Lit], lit: Lit) -> Lit
    requires { lit.var < length table.now }
    ensures { result ≡ over table.now lit }
{
    let new = table[lit.var() as usize];
    if lit.is_negated() { new.negate() } else { new }
}

// The gate over the table's literals.
fn over_gate(table: &[Lit], gate: Gate) -> Gate
    requires { OthersWithin (length table.now - 1) (operands gate) }
    ensures { result ≡ over_gate table.now gate }
{
    match gate {
        Gate::And(a, b) => Gate::And(over(table, a), over(table, b)),
        Gate::Xor(a, b) => Gate::Xor(over(table, a), over(table, b)),
        Gate::Mux(s, a, b) => Gate::Mux(over(table, s), over(table, a), over(table, b)),
        Gate::Maj(a, b, c) => Gate::Maj(over(table, a), over(table, b), over(table, c)),
    }
}

// The literal of a gate.
fn settle(gates: &mut Gates, gate: Gate) -> Result<Lit, GateFault>
    requires { OthersWithin gates.old.formula.vars (operands gate) }
    ensures core { OnOk result (core_of gates.new ≡ (settled (core_of gates.old) (asked gate)).0) }
    ensures literal { IfOk result (λ l. l ≡ (settled (core_of gates.old) (asked gate)).1) }
    ensures within { IfOk result (λ l. LitWithin gates.new.formula.vars l) }
    ensures grows { OnOk result (gates.old.formula.vars ≤ gates.new.formula.vars) }
    ensures most { OnOk result (gates.new.most ≡ gates.old.most) }
    ensures too_many { result ≡ Err GateFault.TooMany → gates.old.most < (settled (core_of gates.old) (asked gate)).0.vars }
{
    gates.promise();
    match gates.gate(gate) {
        Ok(lit) => Ok(lit),
        Err(fault) => Err(fault),
    }
}

// The literal that is true where both are.
#[tactic(auto, unfolding(crate::specs::Making::both))]
fn settle_both(gates: &mut Gates, a: Lit, b: Lit) -> Result<Lit, GateFault>
    requires a { LitWithin gates.old.formula.vars a }
    requires b { LitWithin gates.old.formula.vars b }
    ensures core { OnOk result (core_of gates.new ≡ (both (core_of gates.old) a b).0) }
    ensures literal { IfOk result (λ l. l ≡ (both (core_of gates.old) a b).1) }
    ensures within { IfOk result (λ l. LitWithin gates.new.formula.vars l) }
    ensures grows { OnOk result (gates.old.formula.vars ≤ gates.new.formula.vars) }
    ensures most { OnOk result (gates.new.most ≡ gates.old.most) }
    ensures too_many { result ≡ Err GateFault.TooMany → gates.old.most < (both (core_of gates.old) a b).0.vars }
{
    settle(gates, Gate::And(a, b))
}

// A new input.
fn open(gates: &mut Gates) -> Result<Lit, GateFault>
    ensures core { OnOk result (core_of gates.new ≡ record { vars = gates.old.formula.vars + 1; kept = gates.old.kept }) }
    ensures literal { IfOk result (λ l. l ≡ record { var = gates.old.formula.vars + 1; negated = false }) }
    ensures most { OnOk result (gates.new.most ≡ gates.old.most) }
    ensures too_many { result ≡ Err GateFault.TooMany → gates.old.most < gates.old.formula.vars + 1 }
{
    gates.promise();
    match gates.input() {
        Ok(lit) => Ok(lit),
        Err(fault) => Err(fault),
    }
}

// Puts a free variable after the others.
fn push_free(free: &mut Vec<Free>, new: Free) -> Result<(), AllocError>
    ensures { OnOk result (free.new.items ≡ free.old.items ++ new ∷ []) }
{
    free.push(new)?;
    Ok(())
}

// Puts a literal after the others.
fn push_lit(lits: &mut Vec<Lit>, lit: Lit) -> Result<(), AllocError>
    ensures { OnOk result (lits.new.items ≡ lits.old.items ++ lit ∷ []) }
{
    lits.push(lit)?;
    Ok(())
}

// In a cycle, a variable is a new input.
pub fn input(made: &mut Making, cycle: u32, var: u32) -> Result<(), GateFault>
    requires making { IsMaking (length made.old.table.items) made.old }
    requires place { var < length made.old.table.items }
    ensures making { OnOk result (IsMaking (length made.old.table.items) made.new) }
    ensures made { OnOk result (made_of made.new ≡ run (made_of made.old) (Input cycle var ∷ [])) }
    ensures too_many { result ≡ Err GateFault.TooMany → MAX_VARS < (run (made_of made.old) (Input cycle var ∷ [])).core.vars }
{
    let lit = match open(&mut made.gates) {
        Ok(lit) => lit,
        Err(fault) => return Err(fault),
    };
    let free = Free {
        cycle,
        place: var,
        var: lit.var(),
    };
    push_free(&mut made.free, free)?;
    made.table[var as usize] = lit;
    Ok(())
}

// A variable is a constant.
pub fn constant(made: &mut Making, var: u32, value: bool)
    requires making { IsMaking (length made.old.table.items) made.old }
    requires place { var < length made.old.table.items }
    ensures making { IsMaking (length made.old.table.items) made.new }
    ensures made { made_of made.new ≡ run (made_of made.old) (Constant var value ∷ []) }
{
    made.table[var as usize] = made.gates.constant(value);
}

// A variable is a gate over the table's literals.
pub fn copy(made: &mut Making, var: u32, gate: Gate) -> Result<(), GateFault>
    requires making { IsMaking (length made.old.table.items) made.old }
    requires place { var < length made.old.table.items }
    requires gate { OthersWithin (length made.old.table.items - 1) (operands gate) }
    ensures making { OnOk result (IsMaking (length made.old.table.items) made.new) }
    ensures made { OnOk result (made_of made.new ≡ run (made_of made.old) (Copy var gate ∷ [])) }
    ensures too_many { result ≡ Err GateFault.TooMany → MAX_VARS < (run (made_of made.old) (Copy var gate ∷ [])).core.vars }
{
    let new = over_gate(made.table.as_slice(), gate);
    let lit = match settle(&mut made.gates, new) {
        Ok(lit) => lit,
        Err(fault) => return Err(fault),
    };
    made.table[var as usize] = lit;
    Ok(())
}

// What the table has for these literals.
fn read(alloc: Global, table: &[Lit], moves: &[(u32, Lit)]) -> Result<Vec<Lit>, AllocError>
    requires { All (λ m. m.1.var < length table.now) moves.now }
    ensures { IfOk result (λ lits. lits.items ≡ map (λ m. over table.now m.1) moves.now) }
{
    let mut lits = Vec::new(alloc);
    for (_, lit) in moves {
        lits.push(over(table, *lit))?;
    }
    Ok(lits)
}

// Writes literals to the table.
fn write(table: &mut Vec<Lit>, moves: &[(u32, Lit)], lits: &[Lit])
    requires places { All (λ m. m.0 < length table.old.items) moves.now }
    requires lits { lits.now ≡ map (λ m. over table.old.items m.1) moves.now }
    ensures { table.new.items ≡ moved table.old.items moves.now table.old.items }
{
    for (place, entry) in moves.iter().enumerate() {
        table[entry.0 as usize] = lits[place];
    }
}

// Each variable has the table's literal of another, as the table was before.
pub fn move_all(alloc: Global, made: &mut Making, moves: &[(u32, Lit)]) -> Result<(), AllocError>
    requires making { IsMaking (length made.old.table.items) made.old }
    requires places { All (λ m. m.0 < length made.old.table.items) moves.now }
    requires lits { All (λ m. m.1.var < length made.old.table.items) moves.now }
    ensures making { OnOk result (IsMaking (length made.old.table.items) made.new) }
    ensures made { OnOk result (made_of made.new ≡ run (made_of made.old) (Move moves.now ∷ [])) }
{
    let lits = read(alloc, made.table.as_slice(), moves)?;
    write(&mut made.table, moves, lits.as_slice());
    Ok(())
}

// The table's literal of this one is assumed.
pub fn assume(made: &mut Making, lit: Lit) -> Result<(), GateFault>
    requires making { IsMaking (length made.old.table.items) made.old }
    requires lit { lit.var < length made.old.table.items }
    ensures making { OnOk result (IsMaking (length made.old.table.items) made.new) }
    ensures made { OnOk result (made_of made.new ≡ run (made_of made.old) (Assume lit ∷ [])) }
    ensures too_many { result ≡ Err GateFault.TooMany → MAX_VARS < (run (made_of made.old) (Assume lit ∷ [])).core.vars }
{
    let here = over(made.table.as_slice(), lit);
    match settle_both(&mut made.gates, made.assumed, here) {
        Ok(assumed) => made.assumed = assumed,
        Err(fault) => return Err(fault),
    }
    Ok(())
}

// That of this one is not met.
pub fn pass(made: &mut Making, lit: Lit) -> Result<(), GateFault>
    requires making { IsMaking (length made.old.table.items) made.old }
    requires lit { lit.var < length made.old.table.items }
    ensures making { OnOk result (IsMaking (length made.old.table.items) made.new) }
    ensures made { OnOk result (made_of made.new ≡ run (made_of made.old) (Pass lit ∷ [])) }
    ensures too_many { result ≡ Err GateFault.TooMany → MAX_VARS < (run (made_of made.old) (Pass lit ∷ [])).core.vars }
{
    let here = over(made.table.as_slice(), lit);
    match settle_both(&mut made.gates, made.ok, here.negate()) {
        Ok(ok) => made.ok = ok,
        Err(fault) => return Err(fault),
    }
    Ok(())
}

// That of this one, met here first, ends what solves the job.
pub fn end(made: &mut Making, lit: Lit) -> Result<(), GateFault>
    requires making { IsMaking (length made.old.table.items) made.old }
    requires lit { lit.var < length made.old.table.items }
    ensures making { OnOk result (IsMaking (length made.old.table.items) made.new) }
    ensures made { OnOk result (made_of made.new ≡ run (made_of made.old) (End lit ∷ [])) }
    ensures too_many { result ≡ Err GateFault.TooMany → MAX_VARS < (run (made_of made.old) (End lit ∷ [])).core.vars }
{
    let here = over(made.table.as_slice(), lit);
    let first = match settle_both(&mut made.gates, made.ok, here) {
        Ok(first) => first,
        Err(fault) => return Err(fault),
    };
    let goal = match settle_both(&mut made.gates, made.assumed, first) {
        Ok(goal) => goal,
        Err(fault) => return Err(fault),
    };
    push_lit(&mut made.goals, goal)?;
    Ok(())
}

// This many literals that are true.
fn truths(alloc: Global, count: usize) -> Result<Vec<Lit>, AllocError>
    ensures { IfOk result (λ lits. lits.items ≡ replicate count (constant true)) }
{
    let mut lits = Vec::new(alloc);
    lits.resize(count, Lit::new(1, false))?;
    Ok(lits)
}

// The variable that is true, and no other.
pub fn nothing(alloc: Global, net: &Net) -> Result<Making, AllocError>
    ensures making { IfOk result (λ m. IsMaking (vars net.now + 1) m) }
    ensures made { IfOk result (λ m. made_of m ≡ nothing_made net.now) }
{
    net.promise();
    let gates = Gates::new(alloc)?;
    let truth = gates.constant(true);
    let table = truths(alloc, net.vars() as usize + 1)?;
    Ok(Making {
        gates,
        free: Vec::new(alloc),
        table,
        assumed: truth,
        ok: truth,
        goals: Vec::new(alloc),
    })
}
