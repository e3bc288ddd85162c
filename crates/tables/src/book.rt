ghost use Rattle.std.specs.Prelude.{◌≡◌, ℕ, List, Result, IfOk};
ghost use Rattle.rules.specs.Calls.{zeroed};
ghost use Rattle.tables.specs.declared.fault.TableFault.{TableFault};
ghost use Rattle.tables.specs.Living.{rows, IsThere, keyed, first_row};
ghost use Rattle.tables.specs.Inserting.{answered, placed};
ghost use Rattle.tables.specs.Matching.{DeclaredWords, DeclaredRead, DeclaredBack, DeclaredNeeded};
ghost use Rattle.tables.specs.Matching.{NamesWords, NamesFound, NamesNumbered, NamesNeeded, NamesRead, NamesChanged, NamesChange};
ghost use Rattle.tables.specs.Matching.{EdgesWords, EdgesFound, EdgesNeeded, EdgesRead, EdgesChanged, EdgesChange, EdgesStay};

use crate::fault::TableFault;
use crate::row::Row;

// Each table's `need` is the generic one: what the book says of its answer is proved for each table. A law in its place would
// want that proof among the specifications.
/// Rows that the book knows too.
pub trait BookRow: Row {
    ghost needed: { Self.Key → ℕ → List ℕ → List ℕ → Result ℕ TableFault → Type 0 };

    /// The number of the row with the key, which is put behind the last row if it is not there. `at` is the record that needs it.
    fn need(table: &mut [u32], key: Self::Key, at: u32) -> Result<usize, TableFault>
        ensures row { result ≡ answered Self.WIDTH (Self.full at) table.old (first_row (keyed Self.Key.eq Self.key_of key) (rows Self.WIDTH table.old)) }
        ensures there { IfOk result (IsThere Self.WIDTH table.new) }
        ensures words { table.new ≡ placed Self.WIDTH (Self.fresh key) table.old (first_row (keyed Self.Key.eq Self.key_of key) (rows Self.WIDTH table.old)) }
        ensures behind { zeroed Self.WIDTH table.new ≡ zeroed Self.WIDTH table.old }
        ensures book { needed key at table.old table.new result };
}

/// What the operations come to in the book's words, for declared.
pub fn declared_is_the_books()
    ensures words { DeclaredWords }
    ensures read { DeclaredRead }
    ensures back { DeclaredBack }
    ensures needed { DeclaredNeeded }
{}

/// For names.
pub fn names_is_the_books()
    ensures words { NamesWords }
    ensures found { NamesFound }
    ensures numbered { NamesNumbered }
    ensures needed { NamesNeeded }
    ensures read { NamesRead }
    ensures changed { NamesChanged }
    ensures change { NamesChange }
{}

/// For edges, beside names: their words hold numbers of rows in the place of names.
pub fn edges_is_the_books()
    ensures words { EdgesWords }
    ensures found { EdgesFound }
    ensures needed { EdgesNeeded }
    ensures read { EdgesRead }
    ensures changed { EdgesChanged }
    ensures change { EdgesChange }
    ensures stay { EdgesStay }
{}
