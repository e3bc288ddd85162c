ghost use Rattle.std.specs.Prelude.{◌≡◌, not, ◌&&◌, [], ◌∷◌, ◌==◌, refl};
ghost use Rattle.std.proofs.Math.Nat.{zero-lt-suc};
ghost use Rattle.std.proofs.lemmas.Bool.{and_from, eq-eqb};
ghost use Rattle.std.proofs.Common.{lit≤};
ghost use Rattle.rules.specs.Calls.{zeroed};
ghost use Rattle.rules.specs.Tables.{names_width};
ghost use Rattle.tables.specs.declared.fault.TableFault.TheVariants.{Names as table_full};
ghost use Rattle.tables.specs.Living.{rows, there, first_row};
ghost use Rattle.tables.specs.Held.{changed};
ghost use Rattle.tables.specs.Counts.{flag_word, row_word, with_flag, info_of};
ghost use Rattle.tables.specs.Matching.{id_in, id_keyed, NamesNeed};

use crate::book::BookRow;
use crate::counts::{Counted, VarInfo};
use crate::fault::TableFault;
use crate::row::Row;
use crate::table::{find, need, row_start};
use records::Id;

/// A flag of a row, by the word where it stands: that the name is an entry, or that it was counted.
#[derive(Clone, Copy, PartialEq, Eq, Debug)]
pub enum Flag {
    Entry = 4,
    Counted = 5,
}

/// What was counted of a name: how often it is read and written, and whether it is an entry.
#[derive(Clone, Copy, PartialEq, Eq, Debug)]
pub struct NameInfo {
    pub counts: VarInfo,
    pub entry: bool,
}

/// The table of the names and their counts. A row is symbol and mark, its key, then usage, assign, entry and counted.
pub struct Names;

impl Row for Names {
    type Key = Id;

    const WIDTH: usize = 6;

    ghost WIDTH = { names_width };

    ghost key_of = { id_in };

    ghost fresh = { λ k. k.symbol ∷ k.mark ∷ 0 ∷ 0 ∷ 0 ∷ 0 ∷ [] };

    ghost full = { table_full };

    ghost some = { zero-lt-suc 5 };

    ghost whole = { λ _. refl };

    ghost reads = { λ k. and_from _ _ (eq-eqb k.symbol k.symbol refl) (eq-eqb k.mark k.mark refl) };

    fn key(row: &[u32]) -> Id {
        Id {
            symbol: row[0],
            mark: row[1],
        }
    }

    fn write(row: &mut [u32], key: Id) {
        row.copy_from_slice(&[key.symbol, key.mark, 0, 0, 0, 0]);
    }

    fn fault(at: u32) -> TableFault {
        TableFault::Names(at)
    }
}

impl BookRow for Names {
    ghost needed = { NamesNeed };

    fn need(table: &mut [u32], key: Id, at: u32) -> Result<usize, TableFault> {
        need::<Names>(table, key, at)
    }
}

impl Counted for Names {
    ghost room = { lit≤ tt };
}

impl Names {
    /// What was counted of a name; nothing if it has no row, or one that was not counted.
    pub fn info(names: &[u32], id: Id) -> Option<NameInfo>
        ensures { result ≡ info_of names.now (first_row (id_keyed id) (rows names_width names.now)) }
    {
        let row = find::<Names>(names, &id)?;
        if !Names::is(names, row, Flag::Counted) {
            return None;
        }
        Some(NameInfo {
            counts: Names::counts(names, row)?,
            entry: Names::is(names, row, Flag::Entry),
        })
    }

    /// Whether a row has a flag.
    pub fn is(names: &[u32], row: usize, flag: Flag) -> bool
        ensures row { result ≡ (there names_width names.now row && not (row_word names_width row (flag_word flag) names.now == 0)) }
    {
        row_start::<Names>(names, row).is_some_and(|start| names[start + flag as usize] != 0)
    }

    /// Gives a row a flag.
    pub fn set(names: &mut [u32], row: usize, flag: Flag)
        ensures words { names.new ≡ changed names_width row (with_flag flag) names.old }
        ensures behind { zeroed names_width names.new ≡ zeroed names_width names.old }
    {
        if let Some(start) = row_start::<Names>(names, row) {
            let words = &mut names[start..start + Names::WIDTH];
            words[flag as usize] = 1;
        }
    }
}
