ghost use Rattle.std.specs.Prelude.{◌≡◌, ℕ, ◌+◌, ◌*◌, ◌^◌, ◌<◌, ◌≤◌, length, MatchResult, slice_index};
ghost use Rattle.graph.specs.Graphs.{Components};
ghost use Rattle.graph.specs.Refusals.{Refused};

use crate::edges::Edges;
use crate::fault::GraphFault;
use crate::link::link;
use crate::walk::Walk;

/// Gives each node its label: its place, less the same number for all.
fn lower(places: &[u32], labels: &mut [u32], by: u32)
    requires long { length labels.old ≡ length places.now }
    requires low { (v : ℕ) → v < length places.now → by ≤ slice_index places.now v }
    ensures { (v : ℕ) → v < length places.now → slice_index labels.new v + by ≡ slice_index places.now v }
{
    // No `zip`: of the labels lent to it, the check knows afterwards only how many there are.
    for (node, label) in labels.iter_mut().enumerate() {
        *label = places[node] - by;
    }
}

/// Labels the nodes by their components, over work memory that is long enough, or refuses an edge that names a node past the last one.
pub fn label<E: Edges>(edges: &E, work: &mut [u32], labels: &mut [u32]) -> Result<u32, GraphFault>
    requires few { length labels.old < 2 ^ 31 }
    requires few_edges { length (E.list edges.now) < 2 ^ 32 }
    requires room { 4 * length labels.old + length (E.list edges.now) ≤ length work.old }
    ensures { MatchResult result (λ count. Components (E.list edges.now) labels.new count) (λ fault. Refused (E.list edges.now) (length labels.old) (length work.old) fault × (labels.new ≡ labels.old)) }
{
    let nodes = labels.len();
    let (turns, rest) = work.split_at_mut(nodes);
    let (stack, rest) = rest.split_at_mut(nodes);
    let (borders, rest) = rest.split_at_mut(nodes);
    let (places, links) = rest.split_at_mut(nodes);
    link(edges, turns, links)?;
    places.fill(0);
    // The labels' words serve the walk too, but hold no places: of words lent to a struct with a model the check knows only the length.
    let mut walk = Walk {
        edges,
        links,
        turns,
        stack,
        back: labels,
        borders,
        places,
        top: 0,
        at: 0,
        depth: 0,
        count: 0,
    };
    walk.explore();
    let Walk { places, count, .. } = walk;
    lower(places, labels, nodes as u32 + 1);
    Ok(count)
}
