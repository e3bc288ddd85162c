ghost use Rattle.std.specs.Prelude.{◌≡◌, length};
ghost use Rattle.rings.specs.Joining.{joins};
ghost use Rattle.rings.specs.Marking.{Outside};

use crate::labelled::Labelled;
use crate::members::ByLabel;

// No common text with the graph's links by node: that one tests the nodes that its edges name, and refuses.
/// Links the nodes of each label, the last one first.
pub fn link_members<'g, 'm>(
    graph: &Labelled<'g>,
    firsts: &'m mut [u32],
    nexts: &'m mut [u32],
) -> ByLabel<'g, 'm>
    requires firsts_long { length firsts.old ≡ graph.now.count }
    requires nexts_long { length nexts.old ≡ length graph.now.labels.now }
    ensures labels { result.labels.now ≡ graph.now.labels.now }
    ensures firsts { length result.firsts.now ≡ graph.now.count }
{
    firsts.fill(0);
    // Over the labels alone: with the links zipped to them a proof has no name for the links that were written.
    for (node, label) in graph.labels.iter().enumerate() {
        let label = *label as usize;
        nexts[node] = firsts[label];
        firsts[label] = node as u32 + 1;
    }
    ByLabel {
        labels: graph.labels,
        firsts,
        nexts,
    }
}

/// Marks with 1 each node that an edge enters from a node of another label, and the others with 0: numbers, since the words are lent.
pub fn mark_outside(graph: &Labelled<'_>, marks: &mut [u32])
    requires { length marks.old ≡ length graph.now.labels.now }
    ensures { Outside (joins graph.now.edges.words.now) graph.now.labels.now (length (joins graph.now.edges.words.now)) marks.new }
{
    marks.fill(0);
    for edge in graph.edges.iter() {
        if graph.labels[edge.source as usize] != graph.labels[edge.target as usize] {
            marks[edge.target as usize] = 1;
        }
    }
}
