ghost use Rattle.std.specs.Prelude.{◌≡◌, true, false, [], ◌∷◌, MatchOption, refl};
ghost use Rattle.std.proofs.Math.Nat.{zero-lt-suc};
ghost use Rattle.std.proofs.lemmas.Bool.{and_from, eq-eqb};
ghost use Rattle.std.proofs.Common.{lit≤};
ghost use Rattle.rules.specs.Tables.{edges_width};
ghost use Rattle.tables.specs.declared.fault.TableFault.TheVariants.{Edges as table_full};
ghost use Rattle.tables.specs.Living.{there};
ghost use Rattle.tables.specs.Counts.{row_word};
ghost use Rattle.tables.specs.Matching.{ends_in, EdgesNeed};

use crate::book::BookRow;
use crate::counts::Counted;
use crate::fault::TableFault;
use crate::row::Row;
use crate::table::{need, row_start};

/// An edge: the rows in names of the names that it leads from and to.
#[derive(Clone, Copy, PartialEq, Eq, Debug)]
pub struct Edge {
    pub from: u32,
    pub to: u32,
}

/// The table of the edges between names. A row is the two rows in names, its key, then usage and assign, its weights.
pub struct Edges;

impl Row for Edges {
    type Key = Edge;

    const WIDTH: usize = 4;

    ghost WIDTH = { edges_width };

    ghost key_of = { ends_in };

    ghost fresh = { λ k. k.from ∷ k.to ∷ 0 ∷ 0 ∷ [] };

    ghost full = { table_full };

    ghost some = { zero-lt-suc 3 };

    ghost whole = { λ _. refl };

    ghost reads = { λ k. and_from _ _ (eq-eqb k.from k.from refl) (eq-eqb k.to k.to refl) };

    fn key(row: &[u32]) -> Edge {
        Edge {
            from: row[0],
            to: row[1],
        }
    }

    fn write(row: &mut [u32], key: Edge) {
        row.copy_from_slice(&[key.from, key.to, 0, 0]);
    }

    fn fault(at: u32) -> TableFault {
        TableFault::Edges(at)
    }
}

impl BookRow for Edges {
    ghost needed = { EdgesNeed };

    fn need(table: &mut [u32], key: Edge, at: u32) -> Result<usize, TableFault> {
        need::<Edges>(table, key, at)
    }
}

impl Counted for Edges {
    ghost room = { lit≤ tt };
}

impl Edges {
    /// The rows in names that an edge leads from and to.
    pub fn ends(edges: &[u32], row: usize) -> Option<Edge>
        ensures row { MatchOption result (there edges_width edges.now row ≡ false) (λ e. (there edges_width edges.now row ≡ true) × (e.from ≡ row_word edges_width row 0 edges.now) × (e.to ≡ row_word edges_width row 1 edges.now)) }
    {
        let start = row_start::<Edges>(edges, row)?;
        Some(Edges::key(&edges[start..start + Edges::WIDTH]))
    }
}
