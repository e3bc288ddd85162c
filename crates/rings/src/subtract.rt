ghost use Rattle.std.specs.Prelude.{◌≡◌, ◌<◌, length, slice_index};
ghost use Rattle.rings.specs.Joining.{node_edges};
ghost use Rattle.rings.specs.Spending.{in_one_ring, spent};

use crate::edge_rows::NodeEdge;
use crate::labelled::Labelled;
use tables::{Counted, Names};

/// Whether an edge joins two nodes of one closed ring, which are not one node.
fn share_ring(edge: NodeEdge, labels: &[u32], closed: &[u32]) -> bool
    requires source_in { edge.source < length labels.now }
    requires target_in { edge.target < length labels.now }
    requires low { slice_index labels.now edge.target < length closed.now }
    ensures { result ≡ in_one_ring labels.now closed.now edge.source edge.target }
{
    let label = labels[edge.target as usize];
    edge.source != edge.target
        && labels[edge.source as usize] == label
        && closed[label as usize] == 1
}

/// Takes the weights of each edge from one node of a closed ring to another from the counts of the name that it leads to.
pub fn subtract_closed(names: &mut [u32], graph: &Labelled<'_>, closed: &[u32])
    requires { length closed.now ≡ graph.now.count }
    ensures { names.new ≡ spent graph.now.labels.now closed.now (node_edges graph.now.edges.words.now) names.old }
{
    for edge in graph.edges.iter() {
        if share_ring(edge, graph.labels, closed) {
            Names::subtract(names, edge.target as usize + 1, edge.weight);
        }
    }
}
