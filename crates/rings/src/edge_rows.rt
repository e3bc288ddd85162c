ghost use Rattle.std.specs.Prelude.{◌≡◌, ⊤, length};
ghost use Rattle.std.specs.Iterator.{item_count};
ghost use Rattle.rules.specs.Tables.{edges_width};
ghost use Rattle.rings.specs.Joining.{node_edge, node_edges, joins, edges_left, GivesEdge};

use graph::Edges as Graph;
use tables::{Edges, Row, Rows, VarInfo, row_count};

/// An edge between nodes, with its weights. A node is a row of names, from 0.
#[derive(Clone, Copy)]
pub struct NodeEdge {
    pub source: u32,
    pub target: u32,
    pub weight: VarInfo,
}

impl NodeEdge {
    /// That of a row of edges.
    fn of(row: &[u32]) -> NodeEdge
        requires { length row.now ≡ edges_width }
        ensures { result ≡ node_edge row.now }
    {
        let ends = Edges::key(row);
        NodeEdge {
            source: ends.from.saturating_sub(1),
            target: ends.to.saturating_sub(1),
            weight: VarInfo::read(row),
        }
    }
}

// A struct: a `map` over the rows has the type of its function, which a result cannot name.
/// The edges of a table in their order.
#[derive(Drop)]
pub struct NodeEdges<'t> {
    rows: Rows<'t, Edges>,
}

impl Iterator for NodeEdges<'_> {
    type Item = NodeEdge;

    ghost can_next = { λ _. ⊤ };

    ghost next_gives = { GivesEdge };

    ghost remaining = { item_count edges_left };

    fn next(&mut self) -> Option<NodeEdge> {
        let row = self.rows.next()?;
        Some(NodeEdge::of(row))
    }
}

/// A table of edges as the edges of a graph.
#[derive(Clone, Copy)]
pub struct EdgeRows<'t> {
    pub words: &'t [u32],
}

impl<'t> EdgeRows<'t> {
    /// Its edges in their order.
    pub fn iter(&self) -> NodeEdges<'t>
        ensures { edges_left result ≡ node_edges self.now.words.now }
    {
        NodeEdges {
            rows: Rows::of(self.words),
        }
    }
}

impl Graph for EdgeRows<'_> {
    ghost list = { λ s. joins s.words.now };

    fn len(&self) -> usize {
        row_count::<Edges>(self.words)
    }

    fn edge(&self, k: usize) -> (u32, u32) {
        let words = self.words;
        let start = k * Edges::WIDTH;
        let edge = NodeEdge::of(&words[start..start + Edges::WIDTH]);
        (edge.source, edge.target)
    }
}
