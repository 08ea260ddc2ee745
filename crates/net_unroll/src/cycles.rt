// Cycles, one after the other.

ghost use Rattle.std.specs.Prelude.{◌≡◌, ◌+◌, ◌-◌, ◌<◌, ◌≤◌, ◌++◌, ◌∷◌, [], All, IfOk, OnOk, length, ℕ};
ghost use Rattle.std.specs.List.{flat_map};
ghost use Rattle.cnf_form.specs.Cnf.{LitWithin};
ghost use Rattle.cnf_form.specs.declared.literal.TheConstants.{MAX_VARS};
ghost use Rattle.gate_graph.specs.declared.gate.Gate.{Gate as GateOf};
ghost use Rattle.gate_graph.specs.Folding.{operands};
ghost use Rattle.gate_graph.specs.Kept.{OthersWithin};
ghost use Rattle.bit_net.specs.Net.{node_at, vars};
ghost use Rattle.bit_net.specs.Levels.{prefix_of};
ghost use Rattle.bit_net.specs.Reaching.{early_before, levels, next_of, nexts};
ghost use Rattle.net_unroll.specs.Making.{IsMaking, made_of, nothing_made, run};
ghost use Rattle.net_unroll.specs.Program.{cycle, first_steps, later_steps, move_of, moves, needed, program, values, watch as watched};
ghost use Rattle.net_unroll.specs.Program.Step.{Assume, End, Pass};

use crate::asking::Cycles;
use crate::making::{Making, assume, constant, copy, end, input, move_all, nothing, pass};
use bit_net::{Levels, Net, Node};
use cnf_form::Lit;
use gate_graph::GateFault;
use std::alloc::{AllocError, Global};

// A variable in the first cycle.
fn first_step(made: &mut Making, start: bool, var: u32, node: Node) -> Result<(), GateFault>
    requires making { IsMaking (length made.old.table.items) made.old }
    requires place { var < length made.old.table.items }
    requires gate { (g : GateOf) → node ≡ (Node.Gate g) → OthersWithin (length made.old.table.items - 1) (operands g) }
    ensures making { OnOk result (IsMaking (length made.old.table.items) made.new) }
    ensures made { OnOk result (made_of made.new ≡ run (made_of made.old) (first_steps start var node)) }
    ensures too_many { result ≡ Err GateFault.TooMany → MAX_VARS < (run (made_of made.old) (first_steps start var node)).core.vars }
{
    match node {
        Node::State(state) => {
            if start {
                match state.start {
                    Some(value) => {
                        constant(made, var, value);
                        Ok(())
                    }
                    None => input(made, 0, var),
                }
            } else {
                input(made, 0, var)
            }
        }
        Node::Input => input(made, 0, var),
        Node::Gate(gate) => copy(made, var, gate),
    }
}

// A variable in a later cycle, but for states.
fn later_step(made: &mut Making, cycle: u32, var: u32, node: Node) -> Result<(), GateFault>
    requires making { IsMaking (length made.old.table.items) made.old }
    requires place { var < length made.old.table.items }
    requires gate { (g : GateOf) → node ≡ (Node.Gate g) → OthersWithin (length made.old.table.items - 1) (operands g) }
    ensures making { OnOk result (IsMaking (length made.old.table.items) made.new) }
    ensures made { OnOk result (made_of made.new ≡ run (made_of made.old) (later_steps cycle var node)) }
    ensures too_many { result ≡ Err GateFault.TooMany → MAX_VARS < (run (made_of made.old) (later_steps cycle var node)).core.vars }
{
    match node {
        Node::State(_) => Ok(()),
        Node::Input => input(made, cycle, var),
        Node::Gate(gate) => copy(made, var, gate),
    }
}

// The variables of the first cycle.
fn first_values(made: &mut Making, net: &Net, start: bool, places: &[u32]) -> Result<(), GateFault>
    requires making { IsMaking (vars net.now + 1) made.old }
    requires places { All (λ v. (1 < v) × (v ≤ vars net.now)) places.now }
    ensures making { OnOk result (IsMaking (vars net.now + 1) made.new) }
    ensures made { OnOk result (made_of made.new ≡ run (made_of made.old) (flat_map (λ v. first_steps start v (node_at net.now v)) places.now)) }
    ensures too_many { result ≡ Err GateFault.TooMany → MAX_VARS < (run (made_of made.old) (flat_map (λ v. first_steps start v (node_at net.now v)) places.now)).core.vars }
{
    net.promise();
    for var in places {
        match first_step(made, start, *var, net.node(*var)) {
            Ok(()) => {}
            Err(fault) => return Err(fault),
        }
    }
    Ok(())
}

// What the states among some variables take, each with its variable.
fn moves_of(alloc: Global, net: &Net, places: &[u32]) -> Result<Vec<(u32, Lit)>, AllocError>
    requires { All (λ v. (1 < v) × (v ≤ vars net.now)) places.now }
    ensures moves { IfOk result (λ ms. ms.items ≡ moves net.now places.now) }
    ensures places { IfOk result (λ ms. All (λ m. m.0 < vars net.now + 1) ms.items) }
    ensures lits { IfOk result (λ ms. All (λ m. m.1.var < vars net.now + 1) ms.items) }
{
    net.promise();
    let mut moves = Vec::new(alloc);
    for var in places {
        push_move(&mut moves, *var, net.node(*var))?;
    }
    Ok(moves)
}

// Puts a state's variable with what it takes after the others.
fn push_move(moves: &mut Vec<(u32, Lit)>, var: u32, node: Node) -> Result<(), AllocError>
    ensures { OnOk result (moves.new.items ≡ moves.old.items ++ move_of var node) }
{
    if let Node::State(state) = node {
        moves.push((var, state.next))?;
    }
    Ok(())
}

// The variables of a later cycle, but for states.
fn later_values(made: &mut Making, net: &Net, cycle: u32, places: &[u32]) -> Result<(), GateFault>
    requires making { IsMaking (vars net.now + 1) made.old }
    requires places { All (λ v. (1 < v) × (v ≤ vars net.now)) places.now }
    ensures making { OnOk result (IsMaking (vars net.now + 1) made.new) }
    ensures made { OnOk result (made_of made.new ≡ run (made_of made.old) (flat_map (λ v. later_steps cycle v (node_at net.now v)) places.now)) }
    ensures too_many { result ≡ Err GateFault.TooMany → MAX_VARS < (run (made_of made.old) (flat_map (λ v. later_steps cycle v (node_at net.now v)) places.now)).core.vars }
{
    net.promise();
    for var in places {
        match later_step(made, cycle, *var, net.node(*var)) {
            Ok(()) => {}
            Err(fault) => return Err(fault),
        }
    }
    Ok(())
}

// What is met ends, and is met from then on.
fn end_and_pass(made: &mut Making, goal: Lit) -> Result<(), GateFault>
    requires making { IsMaking (length made.old.table.items) made.old }
    requires goal { goal.var < length made.old.table.items }
    ensures making { OnOk result (IsMaking (length made.old.table.items) made.new) }
    ensures made { OnOk result (made_of made.new ≡ run (made_of made.old) (End goal ∷ Pass goal ∷ [])) }
    ensures too_many { result ≡ Err GateFault.TooMany → MAX_VARS < (run (made_of made.old) (End goal ∷ Pass goal ∷ [])).core.vars }
{
    match end(made, goal) {
        Ok(()) => {}
        Err(fault) => return Err(fault),
    }
    match pass(made, goal) {
        Ok(()) => {}
        Err(fault) => return Err(fault),
    }
    Ok(())
}

// What is asked in a cycle.
fn watch(made: &mut Making, goal: Lit, cycles: Cycles, t: u32) -> Result<(), GateFault>
    requires making { IsMaking (length made.old.table.items) made.old }
    requires goal { goal.var < length made.old.table.items }
    ensures making { OnOk result (IsMaking (length made.old.table.items) made.new) }
    ensures made { OnOk result (made_of made.new ≡ run (made_of made.old) (watched goal cycles t)) }
    ensures too_many { result ≡ Err GateFault.TooMany → MAX_VARS < (run (made_of made.old) (watched goal cycles t)).core.vars }
{
    if t < cycles.first {
        Ok(())
    } else if t < cycles.end {
        pass(made, goal)
    } else {
        end_and_pass(made, goal)
    }
}

// The variables of a cycle.
fn add_values(
    alloc: Global,
    made: &mut Making,
    net: &Net,
    cycles: Cycles,
    t: u32,
    places: &[u32],
) -> Result<(), GateFault>
    requires making { IsMaking (vars net.now + 1) made.old }
    requires places { All (λ v. (1 < v) × (v ≤ vars net.now)) places.now }
    ensures making { OnOk result (IsMaking (vars net.now + 1) made.new) }
    ensures made { OnOk result (made_of made.new ≡ run (made_of made.old) (values net.now cycles t places.now)) }
    ensures too_many { result ≡ Err GateFault.TooMany → MAX_VARS < (run (made_of made.old) (values net.now cycles t places.now)).core.vars }
{
    if t == 0 {
        return first_values(made, net, cycles.start, places);
    }
    let moves = moves_of(alloc, net, places)?;
    move_all(alloc, made, moves.as_slice())?;
    match later_values(made, net, t, places) {
        Ok(()) => {}
        Err(fault) => return Err(fault),
    }
    Ok(())
}

// One cycle.
fn add_cycle(
    alloc: Global,
    made: &mut Making,
    net: &Net,
    goal: Lit,
    cycles: Cycles,
    t: u32,
    places: &[u32],
) -> Result<(), GateFault>
    requires making { IsMaking (vars net.now + 1) made.old }
    requires goal { LitWithin (vars net.now) goal }
    requires places { All (λ v. (1 < v) × (v ≤ vars net.now)) places.now }
    requires needed { places.now ≡ needed net.now goal cycles t }
    ensures making { OnOk result (IsMaking (vars net.now + 1) made.new) }
    ensures made { OnOk result (made_of made.new ≡ run (made_of made.old) (cycle net.now goal cycles t)) }
    ensures too_many { result ≡ Err GateFault.TooMany → MAX_VARS < (run (made_of made.old) (cycle net.now goal cycles t)).core.vars }
{
    net.promise();
    match add_values(alloc, made, net, cycles, t, places) {
        Ok(()) => {}
        Err(fault) => return Err(fault),
    }
    match assume(made, net.assumed()) {
        Ok(()) => {}
        Err(fault) => return Err(fault),
    }
    match watch(made, goal, cycles, t) {
        Ok(()) => {}
        Err(fault) => return Err(fault),
    }
    Ok(())
}

// What the states among some variables take next.
fn nexts_of(alloc: Global, net: &Net, places: &[u32]) -> Result<Vec<Lit>, AllocError>
    requires { All (λ v. (1 < v) × (v ≤ vars net.now)) places.now }
    ensures nexts { IfOk result (λ lits. lits.items ≡ nexts net.now places.now) }
    ensures within { IfOk result (λ lits. All (LitWithin (vars net.now)) lits.items) }
{
    net.promise();
    let mut lits = Vec::new(alloc);
    for var in places {
        push_next(&mut lits, net.node(*var))?;
    }
    Ok(lits)
}

// Puts what a state takes next after the others.
fn push_next(lits: &mut Vec<Lit>, node: Node) -> Result<(), AllocError>
    ensures { OnOk result (lits.new.items ≡ lits.old.items ++ next_of node) }
{
    if let Node::State(state) = node {
        lits.push(state.next)?;
    }
    Ok(())
}

// The variables that the cycles before the first that counts need.
fn early_of(
    alloc: Global,
    net: &Net,
    goal: Lit,
    late: &Levels,
    cycles: Cycles,
) -> Result<Levels, AllocError>
    requires count { length late.now.ends ≡ cycles.count + 1 }
    requires late { (many : ℕ) → many ≤ cycles.count → prefix_of late.now many ≡ levels net.now (goal ∷ net.now.assumed ∷ []) [] many }
    ensures count { IfOk result (λ l. 0 < cycles.first → 0 < cycles.count → length l.ends ≡ cycles.count + 1) }
    ensures early { IfOk result (λ l. 0 < cycles.first → 0 < cycles.count → (many : ℕ) → many ≤ cycles.count
        → prefix_of l many ≡ levels net.now (net.now.assumed ∷ []) (nexts net.now (early_before net.now (goal ∷ net.now.assumed ∷ []))) many) }
{
    net.promise();
    let _ = goal;
    if cycles.first == 0 || cycles.count == 0 {
        return net.levels(alloc, &[], &[], 0);
    }
    let nexts = nexts_of(alloc, net, late.prefix(1))?;
    net.levels(alloc, &[net.assumed()], nexts.as_slice(), cycles.count)
}

// The variables that a cycle needs.
fn needed_at<'a>(early: &'a Levels, late: &'a Levels, cycles: Cycles, t: u32) -> &'a [u32]
    requires t { t < cycles.count }
    requires late { length late.now.ends ≡ cycles.count + 1 }
    requires early { 0 < cycles.first → length early.now.ends ≡ cycles.count + 1 }
    ensures early { t < cycles.first → result.now ≡ prefix_of early.now (cycles.count - t) }
    ensures late { cycles.first ≤ t → result.now ≡ prefix_of late.now (cycles.count - t) }
{
    if t < cycles.first {
        early.prefix(cycles.count - t)
    } else {
        late.prefix(cycles.count - t)
    }
}

// All cycles, one after the other.
pub fn add_cycles(alloc: Global, net: &Net, goal: Lit, cycles: Cycles) -> Result<Making, GateFault>
    requires { LitWithin (vars net.now) goal }
    ensures making { IfOk result (λ m. IsMaking (vars net.now + 1) m) }
    ensures made { IfOk result (λ m. made_of m ≡ run (nothing_made net.now) (program net.now goal cycles)) }
    ensures too_many { result ≡ Err GateFault.TooMany → MAX_VARS < (run (nothing_made net.now) (program net.now goal cycles)).core.vars }
{
    net.promise();
    let late = net.levels(alloc, &[goal, net.assumed()], &[], cycles.count)?;
    let early = early_of(alloc, net, goal, &late, cycles)?;
    let mut made = nothing(alloc, net)?;
    for t in 0..cycles.count {
        let places = needed_at(&early, &late, cycles, t);
        match add_cycle(alloc, &mut made, net, goal, cycles, t, places) {
            Ok(()) => {}
            Err(fault) => return Err(fault),
        }
    }
    Ok(made)
}
