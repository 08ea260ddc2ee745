// The gates on which the goals rest, renumbered.

ghost use Rattle.std.specs.Prelude.{◌≡◌, ◌+◌, ◌<◌, ◌≤◌, ◌^◌, ◌||◌, ◌&&◌, ◌-◌, ◌++◌, ◌∷◌, [], OnOk, cond, suc, All, IfOk, IfNone, IfSome, Bool, false, length, map, replicate, slice_index, slice_index_or, ℕ, true};
ghost use Rattle.std.specs.List.{filter};
ghost use Rattle.cnf_form.specs.Cnf.{LitOf, LitWithin};
ghost use Rattle.cnf_form.specs.declared.literal.TheConstants.{MAX_VARS};
ghost use Rattle.gate_graph.specs.declared.gate.Gate.{Gate as GateOf};
ghost use Rattle.gate_graph.specs.Folding.{operands};
ghost use Rattle.gate_graph.specs.Kept.{OthersWithin};
ghost use Rattle.bit_net.specs.Reaching.{is_one_of, spread};
ghost use Rattle.net_unroll.specs.Clauses.{IsEncoding};
ghost use Rattle.net_unroll.specs.Encoding.{finished, renumbered as renumbered_lit, renumbered_entry, renumbered_free, renumbered_gate as renumbered_node};
ghost use Rattle.net_unroll.specs.Making.{IsMaking, made_of};
ghost use Rattle.net_unroll.specs.Finishing.{AreNumbers, HasMarks, HasNumbers, begins};

use crate::encoded::Free;
use crate::making::Making;
use cnf_form::Lit;
use gate_graph::Gate;
use std::alloc::{AllocError, Global};

// Marks the variables of literals.
fn mark_all(marks: &mut Vec<bool>, lits: &[Lit])
    requires { All (λ l. l.var < length marks.old.items) lits.now }
    ensures size { length marks.new.items ≡ length marks.old.items }
    ensures marks { HasMarks marks.new.items (λ v. slice_index_or marks.old.items v false || is_one_of lits.now v) }
{
    for lit in lits {
        marks[lit.var() as usize] = true;
    }
}

// Marks what a gate reads.
fn mark_operands(marks: &mut Vec<bool>, gate: &Gate)
    requires { All (λ l. l.var < length marks.old.items) (operands gate.now) }
    ensures size { length marks.new.items ≡ length marks.old.items }
    ensures marks { HasMarks marks.new.items (λ v. slice_index_or marks.old.items v false || is_one_of (operands gate.now) v) }
{
    match *gate {
        Gate::And(a, b) => mark_all(marks, &[a, b]),
        Gate::Xor(a, b) => mark_all(marks, &[a, b]),
        Gate::Mux(s, a, b) => mark_all(marks, &[s, a, b]),
        Gate::Maj(a, b, c) => mark_all(marks, &[a, b, c]),
    }
}

// No mark for this many variables.
fn unmarked(alloc: Global, count: usize) -> Result<Vec<bool>, AllocError>
    ensures { IfOk result (λ marks. marks.items ≡ replicate count false) }
{
    let mut marks = Vec::new(alloc);
    marks.resize(count, false)?;
    Ok(marks)
}

// Marks of the variable that is true, and of those on which the goals rest: read from the last gate to the first.
fn marks_of(
    alloc: Global,
    kept: &[(Gate, Lit)],
    goals: &[Lit],
    vars: u32,
) -> Result<Vec<bool>, AllocError>
    requires some { 1 ≤ vars }
    requires kept { All (λ e. All (λ l. l.var < vars + 1) (operands e.0) × (e.1.var < vars + 1)) kept.now }
    requires goals { All (λ l. l.var < vars + 1) goals.now }
    ensures size { IfOk result (λ marks. length marks.items ≡ vars + 1) }
    ensures marks { IfOk result (λ marks. HasMarks marks.items (spread kept.now (begins goals.now))) }
{
    let mut marks = unmarked(alloc, vars as usize + 1)?;
    mark_all(&mut marks, &[Lit::new(1, false)]);
    mark_all(&mut marks, goals);
    for place in (0..kept.len()).rev() {
        mark_entry(&mut marks, &kept[place]);
    }
    Ok(marks)
}

// Marks what a gate reads, where the gate has a mark.
fn mark_entry(marks: &mut Vec<bool>, entry: &(Gate, Lit))
    requires operands { All (λ l. l.var < length marks.old.items) (operands entry.now.0) }
    requires literal { entry.now.1.var < length marks.old.items }
    ensures size { length marks.new.items ≡ length marks.old.items }
    ensures marks { HasMarks marks.new.items (λ v. slice_index_or marks.old.items v false || (slice_index_or marks.old.items entry.now.1.var false && is_one_of (operands entry.now.0) v)) }
{
    if marks[entry.1.var() as usize] {
        mark_operands(marks, &entry.0);
    }
}

// One more where there is a mark.
fn counted(count: u32, mark: bool) -> u32
    requires { count < 2 ^ 31 }
    ensures { result ≡ cond mark (suc count) count }
{
    if mark { count + 1 } else { count }
}

// For each variable how many up to it have a mark.
fn numbers_of(alloc: Global, marks: &[bool]) -> Result<Vec<u32>, AllocError>
    requires some { 1 ≤ length marks.now }
    requires few { length marks.now ≤ MAX_VARS + 1 }
    ensures size { IfOk result (λ numbers. length numbers.items ≡ length marks.now) }
    ensures numbers { IfOk result (λ numbers. HasNumbers numbers.items (λ v. slice_index_or marks.now v false)) }
{
    let mut numbers = Vec::new(alloc);
    let mut count = 0;
    numbers.push(count)?;
    for var in 1..marks.len() {
        count = counted(count, marks[var]);
        numbers.push(count)?;
    }
    Ok(numbers)
}

// A literal by its variable's number.
fn renumbered(numbers: &[u32], lit: Lit) -> Lit
    requires inside { LitWithin (length numbers.now - 1) lit }
    requires numbers { AreNumbers numbers.now }
    ensures { (test : ℕ → Bool) → HasNumbers numbers.now test → result ≡ renumbered_lit test lit }
{
    Lit::new(numbers[lit.var() as usize], lit.is_negated())
}

// A gate by its operands' numbers.
fn renumbered_gate(numbers: &[u32], gate: Gate) -> Gate
    requires inside { OthersWithin (length numbers.now - 1) (operands gate) }
    requires numbers { AreNumbers numbers.now }
    ensures { (test : ℕ → Bool) → HasNumbers numbers.now test → result ≡ renumbered_node test gate }
{
    match gate {
        Gate::And(a, b) => Gate::And(renumbered(numbers, a), renumbered(numbers, b)),
        Gate::Xor(a, b) => Gate::Xor(renumbered(numbers, a), renumbered(numbers, b)),
        Gate::Mux(s, a, b) => Gate::Mux(
            renumbered(numbers, s),
            renumbered(numbers, a),
            renumbered(numbers, b),
        ),
        Gate::Maj(a, b, c) => Gate::Maj(
            renumbered(numbers, a),
            renumbered(numbers, b),
            renumbered(numbers, c),
        ),
    }
}

// Leaves the marked gates, by their variables' numbers. Each is written where it stands or before, so no second list is needed.
fn renumber_gates(kept: &mut Vec<(Gate, Lit)>, marks: &[bool], numbers: &[u32])
    requires size { length marks.now ≡ length numbers.now }
    requires kept { All (λ e. OthersWithin (length numbers.now - 1) (operands e.0) × LitWithin (length numbers.now - 1) e.1) kept.old.items }
    requires numbers { AreNumbers numbers.now }
    ensures { (test : ℕ → Bool) → HasNumbers numbers.now test → HasMarks marks.now test → kept.new.items ≡ map (renumbered_entry test) (filter (λ e. test e.1.var) kept.old.items) }
{
    let mut count = 0;
    for place in 0..kept.len() {
        let (gate, lit) = kept[place];
        if marks[lit.var() as usize] {
            kept[count] = (renumbered_gate(numbers, gate), renumbered(numbers, lit));
            count += 1;
        }
    }
    kept.truncate(count);
}

// The marked free variables by their numbers.
fn renumbered_frees(
    alloc: Global,
    free: &[Free],
    marks: &[bool],
    numbers: &[u32],
) -> Result<Vec<Free>, AllocError>
    requires size { length marks.now ≡ length numbers.now }
    requires free { All (λ f. (0 < f.var) × (f.var < length numbers.now)) free.now }
    ensures { IfOk result (λ new. (test : ℕ → Bool) → HasNumbers numbers.now test → HasMarks marks.now test → new.items ≡ map (renumbered_free test) (filter (λ f. test f.var) free.now)) }
{
    let mut new = Vec::new(alloc);
    for one in free {
        push_free(&mut new, *one, marks, numbers)?;
    }
    Ok(new)
}

// Puts a free variable after the others, if it has a mark.
fn push_free(
    frees: &mut Vec<Free>,
    one: Free,
    marks: &[bool],
    numbers: &[u32],
) -> Result<(), AllocError>
    requires size { length marks.now ≡ length numbers.now }
    requires inside { one.var < length numbers.now }
    ensures { OnOk result ((test : ℕ → Bool) → HasNumbers numbers.now test → HasMarks marks.now test → frees.new.items ≡ frees.old.items ++ map (renumbered_free test) (filter (λ f. test f.var) (one ∷ []))) }
{
    if marks[one.var as usize] {
        let new = Free {
            cycle: one.cycle,
            place: one.place,
            var: numbers[one.var as usize],
        };
        frees.push(new)?;
    }
    Ok(())
}

// Literals by their variables' numbers.
fn renumbered_lits(alloc: Global, lits: &[Lit], numbers: &[u32]) -> Result<Vec<Lit>, AllocError>
    requires lits { All (LitWithin (length numbers.now - 1)) lits.now }
    requires numbers { AreNumbers numbers.now }
    ensures { IfOk result (λ new. (test : ℕ → Bool) → HasNumbers numbers.now test → new.items ≡ map (renumbered_lit test) lits.now) }
{
    let mut new = Vec::new(alloc);
    for lit in lits {
        push_renumbered(&mut new, *lit, numbers)?;
    }
    Ok(new)
}

// Puts a literal by its variable's number after the others.
fn push_renumbered(lits: &mut Vec<Lit>, lit: Lit, numbers: &[u32]) -> Result<(), AllocError>
    requires inside { LitWithin (length numbers.now - 1) lit }
    requires numbers { AreNumbers numbers.now }
    ensures { OnOk result ((test : ℕ → Bool) → HasNumbers numbers.now test → lits.new.items ≡ lits.old.items ++ renumbered_lit test lit ∷ []) }
{
    let new = renumbered(numbers, lit);
    lits.push(new)?;
    Ok(())
}

// What is left of what was made.
#[derive(Drop)]
pub struct Finished {
    pub vars: u32,
    pub gates: Vec<(Gate, Lit)>,
    pub free: Vec<Free>,
    pub goals: Vec<Lit>,
}

// The gates on which the goals rest, renumbered in the same order.
pub fn finish(alloc: Global, made: Making) -> Result<Finished, AllocError>
    requires making { IsMaking (length made.table.items) made }
    ensures vars { IfOk result (λ f. f.vars ≡ (finished (made_of made)).vars) }
    ensures gates { IfOk result (λ f. f.gates.items ≡ (finished (made_of made)).gates) }
    ensures free { IfOk result (λ f. f.free.items ≡ (finished (made_of made)).free) }
    ensures goals { IfOk result (λ f. f.goals.items ≡ (finished (made_of made)).goals) }
    ensures within { IfOk result (λ f. IsEncoding (record { asks = true; vars = f.vars; gates = f.gates.items; free = f.free.items; goals = f.goals.items })) }
{
    let Making {
        gates,
        free,
        goals,
        ..
    } = made;
    gates.promise();
    let vars = gates.vars();
    let kept = gates.into_kept();
    let marks = marks_of(alloc, kept.as_slice(), goals.as_slice(), vars)?;
    let numbers = numbers_of(alloc, marks.as_slice())?;
    let finished = renumber(
        alloc,
        kept,
        free.as_slice(),
        goals.as_slice(),
        marks.as_slice(),
        numbers.as_slice(),
    )?;
    Ok(finished)
}

// What has a mark, by numbers.
fn renumber(
    alloc: Global,
    kept: Vec<(Gate, Lit)>,
    free: &[Free],
    goals: &[Lit],
    marks: &[bool],
    numbers: &[u32],
) -> Result<Finished, AllocError>
    requires some { 1 ≤ length numbers.now }
    requires size { length marks.now ≡ length numbers.now }
    requires kept { All (λ e. OthersWithin (length numbers.now - 1) (operands e.0) × LitWithin (length numbers.now - 1) e.1) kept.items }
    requires free { All (λ f. (0 < f.var) × (f.var < length numbers.now)) free.now }
    requires goals { All (LitWithin (length numbers.now - 1)) goals.now }
    requires numbers { AreNumbers numbers.now }
    ensures vars { IfOk result (λ f. f.vars ≡ slice_index numbers.now (length numbers.now - 1)) }
    ensures gates { IfOk result (λ f. (test : ℕ → Bool) → HasNumbers numbers.now test → HasMarks marks.now test → f.gates.items ≡ map (renumbered_entry test) (filter (λ e. test e.1.var) kept.items)) }
    ensures free { IfOk result (λ f. (test : ℕ → Bool) → HasNumbers numbers.now test → HasMarks marks.now test → f.free.items ≡ map (renumbered_free test) (filter (λ g. test g.var) free.now)) }
    ensures goals { IfOk result (λ f. (test : ℕ → Bool) → HasNumbers numbers.now test → f.goals.items ≡ map (renumbered_lit test) goals.now) }
{
    let mut gates = kept;
    renumber_gates(&mut gates, marks, numbers);
    let free = renumbered_frees(alloc, free, marks, numbers)?;
    let goals = renumbered_lits(alloc, goals, numbers)?;
    Ok(Finished {
        vars: numbers[numbers.len() - 1],
        gates,
        free,
        goals,
    })
}
