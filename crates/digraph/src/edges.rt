// Graphs, an edge at a time.

ghost use Rattle.std.specs.Prelude.{◌≡◌, ◌<◌, ℕ, IfOk, OnErr, OnOk, length};
ghost use Rattle.digraph.specs.Graph.{Extends, HasEdge};

use std::alloc::{AllocError, Global};

/// A graph of this many nodes, as the row of each node's successors, with no edge.
pub fn without_edges(alloc: Global, nodes: usize) -> Result<Vec<Vec<usize>>, AllocError>
    ensures nodes { IfOk result (λ g. length g.items ≡ nodes) }
    ensures edges { IfOk result (λ g. (a b : ℕ) → HasEdge g.items a b → ⊥) }
{
    let mut graph = Vec::new(alloc);
    for _i in 0..nodes {
        graph.push(Vec::new(alloc))?;
    }
    Ok(graph)
}

/// Adds an edge. An error leaves the edges as they were.
pub fn add_edge(graph: &mut [Vec<usize>], from: usize, to: usize) -> Result<(), AllocError>
    requires { from < length graph.old }
    ensures ok { OnOk result (Extends graph.old (λ a b. (a ≡ from) × (b ≡ to)) graph.new) }
    ensures err { OnErr result (Extends graph.old (λ a b. ⊥) graph.new) }
{
    let Ok(()) = graph[from].push(to) else {
        return Err(AllocError);
    };
    Ok(())
}
