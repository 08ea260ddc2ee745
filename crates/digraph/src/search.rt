// A search in depth that gathers strongly connected components (Gabow, "Path-based depth-first search for strong and biconnected
// components", 2000).

ghost use Rattle.std.specs.Prelude.{◌≡◌, ◌⊎◌, ◌<◌, ◌≤◌, ◌+◌, ◌++◌, ◌∷◌, [], ℕ, Bool, Vec, false, length, replicate, slice_get, slice_set, Some, vec_len, IfOk, OnOk, IsTrue, ◌↔◌, Contains};
ghost use Rattle.digraph.specs.Graph.{HasEdge, IsEntry, IsGraph, IsSorted};
ghost use Rattle.digraph.specs.Search.{Closing, GoesOn, IsPassed, Keeps, Leading, Led, State, work};

use std::alloc::{AllocError, Global};

/// The nodes of a graph in an order, and which of them are on a cycle.
#[derive(Drop)]
pub struct Sorted {
    /// Each node once, after those that it leads to where it is on no cycle.
    pub order: Vec<usize>,
    /// For each node, whether it is on a cycle.
    pub cyclic: Vec<bool>,
    /// For each node one that it reaches and that reaches it: the same for two nodes exactly where each reaches the other.
    pub leaders: Vec<usize>,
}

// Whether a node was seen: not yet; at this place of the stack; or in this place of the order.
#[derive(Clone, Copy, Debug, PartialEq, Eq)]
pub enum Mark {
    New,
    Open(usize),
    Done(usize),
}

#[derive(Drop)]
pub struct Search {
    marks: Vec<Mark>,
    // how far each node's row was looked at
    cursors: Vec<usize>,
    // the open nodes; those that are known to reach each other stand side by side
    stack: Vec<usize>,
    // the places of the stack where such components begin
    bounds: Vec<usize>,
    path: Vec<usize>,
    order: Vec<usize>,
    cyclic: Vec<bool>,
    leaders: Vec<usize>,
}

// Puts a node that is new on the path, as a component of its own.
fn enter(search: &mut Search, node: usize) -> Result<(), AllocError>
    requires { node < length search.old.marks.items }
    ensures marks { OnOk result (search.new.marks.items ≡ slice_set search.old.marks.items node (Mark.Open (length search.old.stack.items))) }
    ensures cursors { OnOk result (search.new.cursors.items ≡ search.old.cursors.items) }
    ensures stack { OnOk result (search.new.stack.items ≡ search.old.stack.items ++ node ∷ []) }
    ensures bounds { OnOk result (search.new.bounds.items ≡ search.old.bounds.items ++ length search.old.stack.items ∷ []) }
    ensures path { OnOk result (search.new.path.items ≡ search.old.path.items ++ node ∷ []) }
    ensures order { OnOk result (search.new.order.items ≡ search.old.order.items) }
    ensures cyclic { OnOk result (search.new.cyclic.items ≡ search.old.cyclic.items) }
    ensures leaders { OnOk result (search.new.leaders.items ≡ search.old.leaders.items) }
{
    let place = search.stack.len();
    search.stack.push(node)?;
    search.bounds.push(place)?;
    search.path.push(node)?;
    search.marks[node] = Mark::Open(place);
    Ok(())
}

// Makes one component of those from the place on.
fn merge(search: &mut Search, place: usize)
    requires { (j k x y : ℕ) → j < k → slice_get search.old.bounds.items j ≡ Some x → slice_get search.old.bounds.items k ≡ Some y → x < y }
    ensures bounds { Keeps place search.old.bounds.items search.new.bounds.items }
    ensures marks { search.new.marks.items ≡ search.old.marks.items }
    ensures cursors { search.new.cursors.items ≡ search.old.cursors.items }
    ensures stack { search.new.stack.items ≡ search.old.stack.items }
    ensures path { search.new.path.items ≡ search.old.path.items }
    ensures order { search.new.order.items ≡ search.old.order.items }
    ensures cyclic { search.new.cyclic.items ≡ search.old.cyclic.items }
    ensures leaders { search.new.leaders.items ≡ search.old.leaders.items }
{
    while search.bounds.len() > 0 && search.bounds[search.bounds.len() - 1] > place {
        search.bounds.pop();
    }
}

// Moves a node's cursor.
fn advance(search: &mut Search, node: usize, cursor: usize)
    requires { node < length search.old.cursors.items }
    ensures cursors { search.new.cursors.items ≡ slice_set search.old.cursors.items node cursor }
    ensures marks { search.new.marks.items ≡ search.old.marks.items }
    ensures stack { search.new.stack.items ≡ search.old.stack.items }
    ensures bounds { search.new.bounds.items ≡ search.old.bounds.items }
    ensures path { search.new.path.items ≡ search.old.path.items }
    ensures order { search.new.order.items ≡ search.old.order.items }
    ensures cyclic { search.new.cyclic.items ≡ search.old.cyclic.items }
    ensures leaders { search.new.leaders.items ≡ search.old.leaders.items }
{
    search.cursors[node] = cursor;
}

// Whether the node leads to itself.
fn leads_to_itself(graph: &[Vec<usize>], node: usize) -> bool
    requires { node < length graph.now }
    ensures { IsTrue result ↔ HasEdge graph.now node node }
{
    for next in graph[node].as_slice() {
        if *next == node {
            return true;
        }
    }
    false
}

// Whether the node is on a cycle, by the size of its component.
fn is_on_cycle(graph: &[Vec<usize>], node: usize, size: usize) -> bool
    requires { node < length graph.now }
    ensures { IsTrue result ↔ ((1 < size) ⊎ HasEdge graph.now node node) }
{
    size > 1 || leads_to_itself(graph, node)
}

// Takes the nodes from a place on off the stack, and puts them in the order.
fn close(search: &mut Search, place: usize, leader: usize, on_cycle: bool) -> Result<(), AllocError>
    requires place { place < length search.old.stack.items }
    requires opened { (a p : ℕ) → slice_get search.old.marks.items a ≡ Some (Mark.Open p) → slice_get search.old.stack.items p ≡ Some a }
    requires stacked { (p a : ℕ) → slice_get search.old.stack.items p ≡ Some a → slice_get search.old.marks.items a ≡ Some (Mark.Open p) }
    requires finished { (a i : ℕ) → slice_get search.old.marks.items a ≡ Some (Mark.Done i) → slice_get search.old.order.items i ≡ Some a }
    requires ordered { (i a : ℕ) → slice_get search.old.order.items i ≡ Some a → slice_get search.old.marks.items a ≡ Some (Mark.Done i) }
    requires cyclic { length search.old.cyclic.items ≡ length search.old.marks.items }
    requires leaders { length search.old.leaders.items ≡ length search.old.marks.items }
    ensures closing { OnOk result (Closing on_cycle place search.old.marks.items search.new.marks.items search.old.stack.items search.new.stack.items search.old.order.items search.new.order.items search.old.cyclic.items search.new.cyclic.items) }
    ensures leading { OnOk result (Leading leader search.old.marks.items search.new.stack.items search.old.leaders.items search.new.leaders.items) }
    ensures stack { OnOk result (length search.new.stack.items ≡ place) }
    ensures cursors { OnOk result (search.new.cursors.items ≡ search.old.cursors.items) }
    ensures bounds { OnOk result (search.new.bounds.items ≡ search.old.bounds.items) }
    ensures path { OnOk result (search.new.path.items ≡ search.old.path.items) }
{
    while search.stack.len() > place {
        let Some(node) = search.stack.pop() else {
            unreachable!()
        };
        search.marks[node] = Mark::Done(search.order.len());
        search.cyclic[node] = on_cycle;
        search.leaders[node] = leader;
        search.order.push(node)?;
    }
    Ok(())
}

// Leaves the path's last node, which was looked at to its end and is off the path now.
fn leave(graph: &[Vec<usize>], search: &mut Search, last: usize) -> Result<(), AllocError>
    requires state { State graph.now search.old.marks.items search.old.cursors.items search.old.stack.items search.old.bounds.items (search.old.path.items ++ last ∷ []) search.old.order.items search.old.cyclic.items }
    requires led { Led graph.now search.old.marks.items search.old.leaders.items }
    requires last { last < length graph.now }
    requires looked_at { (place b : ℕ) → slice_get search.old.marks.items last ≡ Some (Mark.Open place) → HasEdge graph.now last b → IsPassed search.old.marks.items search.old.bounds.items place b }
    ensures { OnOk result (GoesOn graph.now (work graph.now search.old.marks.items search.old.cursors.items (search.old.path.items ++ last ∷ [])) search.old.marks.items search.new.marks.items search.new.cursors.items search.new.stack.items search.new.bounds.items search.new.path.items search.new.order.items search.new.cyclic.items search.new.leaders.items) }
{
    let Mark::Open(place) = search.marks[last] else {
        unreachable!()
    };
    if search.bounds[search.bounds.len() - 1] != place {
        return Ok(());
    }
    let Some(_) = search.bounds.pop() else {
        unreachable!()
    };
    let on_cycle = is_on_cycle(graph, last, search.stack.len() - place);
    close(search, place, last, on_cycle)?;
    Ok(())
}

// Looks at the entry at the last node's cursor, which then moves on.
fn look(
    graph: &[Vec<usize>],
    search: &mut Search,
    last: usize,
    next: usize,
    cursor: usize,
) -> Result<(), AllocError>
    requires state { State graph.now search.old.marks.items search.old.cursors.items search.old.stack.items search.old.bounds.items (search.old.path.items ++ last ∷ []) search.old.order.items search.old.cyclic.items }
    requires led { Led graph.now search.old.marks.items search.old.leaders.items }
    requires last { last < length graph.now }
    requires next { next < length graph.now }
    requires entry { (m : ℕ) × (slice_get search.old.cursors.items last ≡ Some m) × IsEntry graph.now last m next × (cursor ≡ m + 1) }
    ensures { OnOk result (GoesOn graph.now (work graph.now search.old.marks.items search.old.cursors.items (search.old.path.items ++ last ∷ [])) search.old.marks.items search.new.marks.items search.new.cursors.items search.new.stack.items search.new.bounds.items search.new.path.items search.new.order.items search.new.cyclic.items search.new.leaders.items) }
{
    search.path.push(last)?;
    let mark = search.marks[next];
    match mark {
        Mark::New => {
            enter(search, next)?;
            Ok(())
        }
        Mark::Open(place) => {
            merge(search, place);
            advance(search, last, cursor);
            Ok(())
        }
        Mark::Done(_) => {
            advance(search, last, cursor);
            Ok(())
        }
    }
}

// One step, at the path's last node, which is off the path.
fn step(graph: &[Vec<usize>], search: &mut Search, last: usize) -> Result<(), AllocError>
    requires state { State graph.now search.old.marks.items search.old.cursors.items search.old.stack.items search.old.bounds.items (search.old.path.items ++ last ∷ []) search.old.order.items search.old.cyclic.items }
    requires led { Led graph.now search.old.marks.items search.old.leaders.items }
    requires graph { IsGraph graph.now }
    requires last { last < length graph.now }
    ensures { OnOk result (GoesOn graph.now (work graph.now search.old.marks.items search.old.cursors.items (search.old.path.items ++ last ∷ [])) search.old.marks.items search.new.marks.items search.new.cursors.items search.new.stack.items search.new.bounds.items search.new.path.items search.new.order.items search.new.cyclic.items search.new.leaders.items) }
{
    let row = graph[last].as_slice();
    let cursor = search.cursors[last];
    if cursor < row.len() {
        look(graph, search, last, row[cursor], cursor + 1)
    } else {
        leave(graph, search, last)
    }
}

// Searches from a node, if it is new.
fn explore(graph: &[Vec<usize>], search: &mut Search, start: usize) -> Result<(), AllocError>
    requires state { State graph.now search.old.marks.items search.old.cursors.items search.old.stack.items search.old.bounds.items [] search.old.order.items search.old.cyclic.items }
    requires led { Led graph.now search.old.marks.items search.old.leaders.items }
    requires path { search.old.path.items ≡ [] }
    requires graph { IsGraph graph.now }
    requires start { start < length graph.now }
    ensures state { OnOk result (State graph.now search.new.marks.items search.new.cursors.items search.new.stack.items search.new.bounds.items [] search.new.order.items search.new.cyclic.items) }
    ensures led { OnOk result (Led graph.now search.new.marks.items search.new.leaders.items) }
    ensures path { OnOk result (search.new.path.items ≡ []) }
    ensures seen { OnOk result ((a : ℕ) → slice_get search.new.marks.items a ≡ Some Mark.New → slice_get search.old.marks.items a ≡ Some Mark.New) }
    ensures start { OnOk result (slice_get search.new.marks.items start ≡ Some Mark.New → ⊥) }
{
    if let Mark::New = search.marks[start] {
        enter(search, start)?;
        while let Some(last) = search.path.pop() {
            step(graph, search, last)?;
        }
    }
    Ok(())
}

// A search that has seen no node yet.
fn start(alloc: Global, count: usize) -> Result<Search, AllocError>
    ensures marks { IfOk result (λ s. s.marks.items ≡ replicate count Mark.New) }
    ensures cursors { IfOk result (λ s. s.cursors.items ≡ replicate count 0) }
    ensures cyclic { IfOk result (λ s. s.cyclic.items ≡ replicate count false) }
    ensures leaders { IfOk result (λ s. s.leaders.items ≡ replicate count 0) }
    ensures empty { IfOk result (λ s. (s.stack.items ≡ []) × (s.bounds.items ≡ []) × (s.path.items ≡ []) × (s.order.items ≡ [])) }
{
    Ok(Search {
        marks: vec![in alloc; Mark::New; count]?,
        cursors: vec![in alloc; 0; count]?,
        stack: Vec::new(alloc),
        bounds: Vec::new(alloc),
        path: Vec::new(alloc),
        order: Vec::new(alloc),
        cyclic: vec![in alloc; false; count]?,
        leaders: vec![in alloc; 0; count]?,
    })
}

/// The nodes of a graph, given as the row of each node's successors: each node once, after those that it leads to where it is on no
/// cycle; which of them are on a cycle; and which reach each other. In time and memory linear in the nodes and the entries of the rows.
pub fn sort(alloc: Global, graph: &[Vec<usize>]) -> Result<Sorted, AllocError>
    requires { IsGraph graph.now }
    ensures { IfOk result (λ s. IsSorted graph.now s.order.items s.cyclic.items s.leaders.items) }
{
    let mut search = start(alloc, graph.len())?;
    for node in 0..graph.len() {
        explore(graph, &mut search, node)?;
    }
    Ok(Sorted {
        order: search.order,
        cyclic: search.cyclic,
        leaders: search.leaders,
    })
}
