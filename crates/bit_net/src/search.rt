// The search for the variables on which literals rest.

ghost use Rattle.std.specs.Prelude.{◌≡◌, ◌+◌, ◌-◌, ◌<◌, ◌≤◌, ◌∷◌, [], ℕ, suc, All, IfOk, List, OnOk, false, length, map, replicate, take, drop};
ghost use Rattle.std.specs.List.Sorted.{IsPermutation, IsSorted};
ghost use Rattle.std.specs.Ordering.{nat_cmp};
ghost use Rattle.cnf_form.specs.Cnf.{LitOf, LitWithin};
ghost use Rattle.gate_graph.specs.Folding.{operands};
ghost use Rattle.gate_graph.specs.Kept.{OthersWithin};
ghost use Rattle.bit_net.specs.Net.{node_at, vars};
ghost use Rattle.bit_net.specs.Levels.{prefix_of};
ghost use Rattle.bit_net.specs.Reaching.{levels};
ghost use Rattle.bit_net.specs.Search.{AtLevel, Descends, IsClosedTo, IsSearch, Takes, Visits, read_by};

use crate::levels::Levels;
use crate::net::Net;
use crate::node::Node;
use cnf_form::Lit;
use gate_graph::Gate;
use std::alloc::{AllocError, Global};

// Puts a variable after those that were found, unless it was found or is that which is true.
fn visit(seen: &mut Vec<bool>, found: &mut Vec<u32>, var: u32) -> Result<(), AllocError>
    requires search { IsSearch seen.old.items found.old.items }
    requires inside { var < length seen.old.items }
    ensures size { length seen.new.items ≡ length seen.old.items }
    ensures search { OnOk result (IsSearch seen.new.items found.new.items) }
    ensures visits { OnOk result (Visits (var ∷ []) found.old.items found.new.items) }
{
    let place = var as usize;
    if var > 1 && !seen[place] {
        found.push(var)?;
        seen[place] = true;
    }
    Ok(())
}

// The variables of literals.
fn visit_all(seen: &mut Vec<bool>, found: &mut Vec<u32>, lits: &[Lit]) -> Result<(), AllocError>
    requires search { IsSearch seen.old.items found.old.items }
    requires inside { All (λ l. l.var < length seen.old.items) lits.now }
    ensures size { length seen.new.items ≡ length seen.old.items }
    ensures search { OnOk result (IsSearch seen.new.items found.new.items) }
    ensures visits { OnOk result (Visits (map (λ l. l.var) lits.now) found.old.items found.new.items) }
{
    for lit in lits {
        visit(seen, found, lit.var())?;
    }
    Ok(())
}

// What a gate reads.
fn visit_operands(seen: &mut Vec<bool>, found: &mut Vec<u32>, gate: &Gate) -> Result<(), AllocError>
    requires search { IsSearch seen.old.items found.old.items }
    requires inside { OthersWithin (length seen.old.items - 1) (operands gate.now) }
    ensures size { length seen.new.items ≡ length seen.old.items }
    ensures search { OnOk result (IsSearch seen.new.items found.new.items) }
    ensures visits { OnOk result (Visits (map (λ l. l.var) (operands gate.now)) found.old.items found.new.items) }
{
    match *gate {
        Gate::And(a, b) => visit_all(seen, found, &[a, b]),
        Gate::Xor(a, b) => visit_all(seen, found, &[a, b]),
        Gate::Mux(s, a, b) => visit_all(seen, found, &[s, a, b]),
        Gate::Maj(a, b, c) => visit_all(seen, found, &[a, b, c]),
    }
}

// What the variable reads within a cycle.
fn read(net: &Net, seen: &mut Vec<bool>, found: &mut Vec<u32>, var: u32) -> Result<(), AllocError>
    requires search { IsSearch seen.old.items found.old.items }
    requires size { length seen.old.items ≡ vars net.now + 1 }
    requires low { 1 < var }
    requires high { var ≤ vars net.now }
    ensures size { length seen.new.items ≡ length seen.old.items }
    ensures search { OnOk result (IsSearch seen.new.items found.new.items) }
    ensures visits { OnOk result (Visits (read_by (node_at net.now var)) found.old.items found.new.items) }
{
    net.promise();
    match net.node(var) {
        Node::Gate(gate) => visit_operands(seen, found, &gate),
        Node::State(_) | Node::Input => Ok(()),
    }
}

// All that the variables that were found from place `begin` on rest on by gates.
fn descend(
    net: &Net,
    seen: &mut Vec<bool>,
    found: &mut Vec<u32>,
    begin: usize,
) -> Result<(), AllocError>
    requires search { IsSearch seen.old.items found.old.items }
    requires size { length seen.old.items ≡ vars net.now + 1 }
    requires begin { begin ≤ length found.old.items }
    requires closed { IsClosedTo net.now found.old.items begin }
    ensures size { length seen.new.items ≡ length seen.old.items }
    ensures search { OnOk result (IsSearch seen.new.items found.new.items) }
    ensures descends { OnOk result (Descends net.now found.old.items found.new.items) }
{
    let mut next = begin;
    while next < found.len() {
        let var = found[next];
        read(net, seen, found, var)?;
        next += 1;
    }
    Ok(())
}

// What the states among the variables from place `begin` to `end` take next.
fn advance(
    net: &Net,
    seen: &mut Vec<bool>,
    found: &mut Vec<u32>,
    begin: usize,
    end: usize,
) -> Result<(), AllocError>
    requires search { IsSearch seen.old.items found.old.items }
    requires size { length seen.old.items ≡ vars net.now + 1 }
    requires begin { begin ≤ end }
    requires end { end ≤ length found.old.items }
    ensures size { length seen.new.items ≡ length seen.old.items }
    ensures search { OnOk result (IsSearch seen.new.items found.new.items) }
    ensures takes { OnOk result (Takes net.now (drop begin (take end found.old.items)) found.old.items found.new.items) }
{
    net.promise();
    for place in begin..end {
        if let Node::State(state) = net.node(found[place]) {
            visit(seen, found, state.next.var())?;
        }
    }
    Ok(())
}

// Puts the variables from a place on into rising order.
fn sort_from(found: &mut Vec<u32>, begin: usize)
    requires begin { begin ≤ length found.old.items }
    ensures front { take begin found.new.items ≡ take begin found.old.items }
    ensures moved { IsPermutation (drop begin found.old.items) (drop begin found.new.items) }
    ensures sorted { IsSorted nat_cmp (drop begin found.new.items) }
{
    found[begin..].sort_unstable();
}

// One level: what stands after the first `begin` variables, with all that it rests on by gates, and after it what the next level begins
// with. How many variables stand up to this level.
fn one_level(
    net: &Net,
    seen: &mut Vec<bool>,
    found: &mut Vec<u32>,
    before: &[Lit],
    begin: usize,
) -> Result<usize, AllocError>
    requires search { IsSearch seen.old.items found.old.items }
    requires size { length seen.old.items ≡ vars net.now + 1 }
    requires before { All (LitWithin (vars net.now)) before.now }
    requires begin { begin ≤ length found.old.items }
    requires closed { IsClosedTo net.now found.old.items begin }
    ensures size { length seen.new.items ≡ length seen.old.items }
    ensures search { OnOk result (IsSearch seen.new.items found.new.items) }
    ensures front { OnOk result (take begin found.new.items ≡ take begin found.old.items) }
    ensures level { IfOk result (λ end. (now : List LitOf) (d : ℕ) → AtLevel net.now now before.now found.old.items begin d → AtLevel net.now now before.now found.new.items end (suc d)) }
    ensures end { IfOk result (λ end. (begin ≤ end) × (end ≤ length found.new.items) × IsClosedTo net.now found.new.items end) }
{
    net.promise();
    descend(net, seen, found, begin)?;
    let end = found.len();
    sort_from(found, begin);
    advance(net, seen, found, begin, end)?;
    visit_all(seen, found, before)?;
    Ok(end)
}

// No mark for this many variables.
fn unmarked(alloc: Global, count: usize) -> Result<Vec<bool>, AllocError>
    ensures { IfOk result (λ marks. marks.items ≡ replicate count false) }
{
    let mut marks = Vec::new(alloc);
    marks.resize(count, false)?;
    Ok(marks)
}

// The variables on which literals rest, by levels.
pub fn reach(
    net: &Net,
    alloc: Global,
    now: &[Lit],
    before: &[Lit],
    count: u32,
) -> Result<Levels, AllocError>
    requires now { All (LitWithin (vars net.now)) now.now }
    requires before { All (LitWithin (vars net.now)) before.now }
    ensures count { IfOk result (λ l. length l.ends ≡ count + 1) }
    ensures levels { IfOk result (λ l. (many : ℕ) → many ≤ count → prefix_of l many ≡ levels net.now now.now before.now many) }
{
    net.promise();
    let mut seen = unmarked(alloc, net.vars() as usize + 1)?;
    let mut found = Vec::new(alloc);
    visit_all(&mut seen, &mut found, now)?;
    let mut end = 0;
    let mut ends = Vec::new(alloc);
    ends.push(end)?;
    'levels: while ends.len() <= count as usize {
        end = one_level(net, &mut seen, &mut found, before, end)?;
        ends.push(end)?;
    }
    Ok(Levels::new(found, ends))
}
