ghost use Rattle.std.specs.Prelude.{◌≡◌, ℕ, ◌<◌, List, length, slice_index_or};
ghost use Rattle.graph.specs.Rows.{row_edges};

use std::marker::Model;

/// The edges of a graph in their order, whatever layout they lie in.
pub trait Edges {
    ghost list: { Self → List (ℕ × ℕ) };

    /// How many edges there are.
    fn len(&self) -> usize
        ensures { result ≡ length (list self.now) };

    /// The nodes that edge `k` leaves and enters.
    fn edge(&self, k: usize) -> (u32, u32)
        requires { k < length (list self.now) }
        ensures { result ≡ slice_index_or (list self.now) k (0, 0) };
}

/// Edges that lie in a slice as pairs.
#[derive(Drop)]
pub struct Pairs<'e> {
    edges: &'e [(u32, u32)],
}

impl<'e> Pairs<'e> {
    // No `From`: it would not take an array or a vector as it is.
    /// The pairs as the edges of a graph.
    pub fn of(edges: &'e [(u32, u32)]) -> Pairs<'e>
        ensures { result.edges.now ≡ edges.now }
    {
        Pairs { edges }
    }
}

impl<'e> Edges for Pairs<'e> {
    ghost list = { λ s. s.edges.now };

    fn len(&self) -> usize {
        self.edges.len()
    }

    fn edge(&self, k: usize) -> (u32, u32) {
        self.edges[k]
    }
}

/// Edges that lie in words as rows of four: the node that it leaves, the node that it enters, and two more words.
#[derive(Drop)]
pub struct Rows<'w> {
    rows: &'w [[u32; 4]],
}

impl<'w> Model for Rows<'w> {
    ghost use Rattle.std.specs.Prelude.{ℕ, List, map};
    ghost use Rattle.graph.specs.Rows.{ends};

    ghost Value = { List (ℕ × ℕ) };

    ghost view = { λ s. map ends s.rows.now };
}

impl<'w> Rows<'w> {
    /// The rows as the edges of a graph. Words past the last whole row are none.
    pub fn of(words: &'w [u32]) -> Rows<'w>
        ensures { result ≡ row_edges words.now }
    {
        let (rows, _) = words.as_chunks();
        Rows { rows }
    }
}

impl<'w> Edges for Rows<'w> {
    ghost list = { λ s. s };

    fn len(&self) -> usize {
        self.rows.len()
    }

    fn edge(&self, k: usize) -> (u32, u32) {
        let rows = self.rows;
        let [source, target, ..] = rows[k];
        (source, target)
    }
}
