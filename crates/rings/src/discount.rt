ghost use Rattle.std.specs.Prelude.{◌+◌, ◌*◌, ◌≤◌, length};
ghost use Rattle.rings.specs.Spending.{Discounted};

use crate::labelled::Labelled;
use crate::marks::{link_members, mark_outside};
use crate::subtract::subtract_closed;
use crate::verdict::mark_closed;

/// Discounts the names of closed rings, where each node has the label of its component. The work memory has two words for each node, and
/// two for each label, or more.
pub fn subtract_rings(names: &mut [u32], graph: &Labelled<'_>, work: &mut [u32])
    requires { 2 * length graph.now.labels.now + 2 * graph.now.count ≤ length work.old }
    ensures { Discounted names.old graph.now.edges.words.now graph.now.labels.now graph.now.count names.new }
{
    let (nexts, rest) = work.split_at_mut(graph.labels.len());
    let (marks, rest) = rest.split_at_mut(graph.labels.len());
    let (firsts, rest) = rest.split_at_mut(graph.count);
    let (closed, _) = rest.split_at_mut(graph.count);
    let by_label = link_members(graph, firsts, nexts);
    mark_outside(graph, marks);
    mark_closed(names, by_label, marks, closed);
    subtract_closed(names, graph, closed);
}
