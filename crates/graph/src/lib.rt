#![tactic(auto)]

ghost use Rattle.std.specs.Prelude.{◌≡◌, ◌+◌, ◌-◌, ◌*◌, ◌^◌, length, min, MatchResult};
ghost use Rattle.graph.specs.Graphs.{Components};
ghost use Rattle.graph.specs.Refusals.{Refused};

pub mod edges;
pub mod fault;
mod label;
mod link;
mod walk;

pub use edges::{Edges, Pairs, Rows};
pub use fault::GraphFault;
use label::label;

/// The first number of nodes that is refused: places and labels stand side by side below 2^32.
pub const NODES: usize = 0x8000_0000;

/// The first number of edges that is refused: a link is one more than an edge's number.
const EDGES: usize = 0x1_0000_0000;

/// How many words of work memory a graph needs; 2^64 - 1 where they are more.
pub fn words(nodes: usize, edges: usize) -> usize
    ensures { result ≡ min (4 * nodes + edges) (2 ^ 64 - 1) }
{
    nodes.saturating_mul(4).saturating_add(edges)
}

/// Labels the nodes of a graph, which are as many as the labels, by its strongly connected components: two nodes get one label exactly if
/// edges lead from each to the other. Labels are numbered from 0 in such an order that no edge leads to a higher one, and the answer is
/// how many there are. A graph that is refused leaves the labels as they were, and of several faults the first is told: its size, the work
/// memory, an edge. The work memory has `words` words, or more.
pub fn components<E: Edges>(
    edges: &E,
    work: &mut [u32],
    labels: &mut [u32],
) -> Result<u32, GraphFault>
    ensures { MatchResult result (λ count. Components (E.list edges.now) labels.new count) (λ fault. Refused (E.list edges.now) (length labels.old) (length work.old) fault × (labels.new ≡ labels.old)) }
{
    let nodes = labels.len();
    let count = edges.len();
    if nodes >= NODES || count >= EDGES {
        return Err(GraphFault::TooLarge);
    }
    if work.len() < words(nodes, count) {
        return Err(GraphFault::NoRoom);
    }
    label(edges, work, labels)
}
