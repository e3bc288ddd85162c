ghost use Rattle.std.specs.Prelude.{◌∷◌, [], refl};
ghost use Rattle.std.proofs.Math.Nat.{zero-lt-suc};
ghost use Rattle.std.proofs.lemmas.Bool.{and_from, eq-eqb};
ghost use Rattle.rules.specs.Tables.{declared_width};
ghost use Rattle.tables.specs.declared.fault.TableFault.TheVariants.{Declared as table_full};
ghost use Rattle.tables.specs.Matching.{id_in, DeclaredNeed};

use crate::book::BookRow;
use crate::fault::TableFault;
use crate::row::Row;
use crate::table::need;
use records::Id;

/// The table of the declared names. A row is symbol and mark, both its key.
pub struct Declared;

impl Row for Declared {
    type Key = Id;

    const WIDTH: usize = 2;

    ghost WIDTH = { declared_width };

    ghost key_of = { id_in };

    ghost fresh = { λ k. k.symbol ∷ k.mark ∷ [] };

    ghost full = { table_full };

    ghost some = { zero-lt-suc 1 };

    ghost whole = { λ _. refl };

    ghost reads = { λ k. and_from _ _ (eq-eqb k.symbol k.symbol refl) (eq-eqb k.mark k.mark refl) };

    fn key(row: &[u32]) -> Id {
        Id {
            symbol: row[0],
            mark: row[1],
        }
    }

    fn write(row: &mut [u32], key: Id) {
        row.copy_from_slice(&[key.symbol, key.mark]);
    }

    fn fault(at: u32) -> TableFault {
        TableFault::Declared(at)
    }
}

impl BookRow for Declared {
    ghost needed = { DeclaredNeed };

    fn need(table: &mut [u32], key: Id, at: u32) -> Result<usize, TableFault> {
        need::<Declared>(table, key, at)
    }
}
