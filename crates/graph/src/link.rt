ghost use Rattle.std.specs.Prelude.{◌≡◌, ℕ, ◌+◌, ◌*◌, ◌^◌, ◌<◌, ◌≤◌, length, MatchResult};
ghost use Rattle.graph.specs.Refusals.{Refused};
ghost use Rattle.graph.specs.Searching.{Linked};

use crate::edges::Edges;
use crate::fault::GraphFault;

/// Links the edges that leave each node, the last one first: `turns` has the link to the last edge of each node, and `links` from each
/// edge to the one before it. A link is one more than the edge's number, and 0 where there is none.
/// An edge that names a node past the last one is refused.
pub fn link<E: Edges>(edges: &E, turns: &mut [u32], links: &mut [u32]) -> Result<(), GraphFault>
    requires room { length (E.list edges.now) ≤ length links.old }
    requires few { length (E.list edges.now) < 2 ^ 32 }
    ensures { MatchResult result (λ _. Linked (E.list edges.now) (length turns.old) (length (E.list edges.now)) turns.new links.new) (λ fault. (words : ℕ) → length turns.old < 2 ^ 31 → 4 * length turns.old + length (E.list edges.now) ≤ words → Refused (E.list edges.now) (length turns.old) words fault) }
{
    turns.fill(0);
    // Counted: the trait gives an edge by its number, and a link is that number.
    for k in 0..edges.len() {
        let (source, target) = edges.edge(k);
        let source = source as usize;
        if source >= turns.len() || target as usize >= turns.len() {
            return Err(GraphFault::NoSuchNode(k));
        }
        links[k] = turns[source];
        turns[source] = k as u32 + 1;
    }
    Ok(())
}
