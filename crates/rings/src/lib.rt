#![tactic(auto)]

ghost use Rattle.std.specs.Prelude.{◌≡◌, length, MatchResult};
ghost use Rattle.rings.specs.Spending.{Subtracted, Unfit, NotEnough};

mod discount;
mod edge_rows;
mod labelled;
pub mod laws;
mod marks;
mod members;
mod subtract;
mod verdict;

use discount::subtract_rings;
use edge_rows::EdgeRows;
use graph::{GraphFault, NODES, components};
use labelled::Labelled;
use tables::{Names, row_count};

/// Discounts names that only refer to each other: from the counts of each name of a closed ring it takes, modulo 2^32, the weights of the
/// edges from the other names of the ring. A closed ring is a component of two names or more without an entry and without an edge from
/// outside. The work memory has five words for each name and one for each edge, or more; where it has fewer, the names stay.
pub fn subtract_cycles(names: &mut [u32], edges: &[u32], work: &mut [u32]) -> Result<(), GraphFault>
    ensures { MatchResult result (λ _. Subtracted names.old edges.now names.new) (λ fault. Unfit names.old edges.now (length work.old) fault × NotEnough names.old edges.now (length work.old) × (names.new ≡ names.old)) }
{
    let nodes = row_count::<Names>(names);
    if nodes >= NODES {
        return Err(GraphFault::TooLarge);
    }
    if work.len() < 5 * nodes {
        return Err(GraphFault::NoRoom);
    }
    let (labels, rest) = work.split_at_mut(nodes);
    let edges = EdgeRows { words: edges };
    let count = components(&edges, rest, labels)? as usize;
    let graph = Labelled {
        edges,
        labels,
        count,
    };
    subtract_rings(names, &graph, rest);
    Ok(())
}
