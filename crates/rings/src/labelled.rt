ghost use Rattle.std.specs.Prelude.{ℕ, ◌^◌, ◌<◌, length, slice_index};
ghost use Rattle.graph.specs.Graphs.{Inside};
ghost use Rattle.rings.specs.Joining.{joins};

use crate::edge_rows::EdgeRows;

/// A graph of names whose nodes have labels, and how many labels there are.
#[derive(Clone, Copy)]
pub struct Labelled<'g> {
    pub edges: EdgeRows<'g>,
    pub labels: &'g [u32],
    pub count: usize,
    ghost few: { length labels.now < 2 ^ 32 },
    ghost inside: { Inside (joins edges.words.now) (length labels.now) },
    ghost low: { (v : ℕ) → v < length labels.now → slice_index labels.now v < count },
}
