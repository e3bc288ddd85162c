ghost use Rattle.std.specs.Prelude.{◌≡◌, ℕ, ◌/◌, true, false, List, [], length, MatchResult};
ghost use Rattle.rules.specs.Calls.{zeroed, declared_after};
ghost use Rattle.rules.specs.Calls as book;
ghost use Rattle.rules.specs.Held.{Tree};
ghost use Rattle.rules.specs.Names.{declared};
ghost use Rattle.rules.specs.Refusals.{Says};
ghost use Rattle.rules.specs.Refusals.Outcome.{fine};
ghost use Rattle.records.specs.Chains.{as_chain};
ghost use Rattle.rules.specs.Tables.{Room, declared_width, read_declared};
ghost use Rattle.rules.specs.Tree.{Chain};
ghost use Rattle.names.specs.Sinks.{each};
ghost use Rattle.tables.specs.Faults.{number as number_of, place as place_of};
ghost use Rattle.analyzer.specs.Declaring.{declare_key, declare_words, FilledDeclared, FullDeclared};

use names::{NameSink, declared_names};
use records::{Children, Id, Node};
use tables::{BookRow, Declared, TableFault, has_row, zero_rows};

/// The table of the declared names, as names come to it.
#[derive(Drop)]
struct Declaring<'t> {
    table: &'t mut [u32],
}

impl<'t> NameSink for Declaring<'t> {
    type Fault = TableFault;

    ghost State = { List ℕ };

    ghost Fixed = { ℕ × List ℕ };

    ghost held = { λ s. s.table.now };

    ghost fixed = { λ s. (s.table.ghost_name, zeroed declared_width s.table.now) };

    ghost takes = { declare_words };

    ghost number = { number_of };

    ghost place = { place_of };

    fn take(&mut self, bearer: Node<'_>) -> Result<(), TableFault> {
        declare(self.table, bearer.record.id(), bearer.number)
    }
}

/// Makes a name one of the declared: it is there, or gets the first free row. The record `at` bears it.
fn declare(table: &mut [u32], id: Id, at: u32) -> Result<(), TableFault>
    ensures names { Says (declare_key id at table.old) (λ _. table.new) number_of place_of result }
    ensures behind { zeroed declared_width table.new ≡ zeroed declared_width table.old }
{
    Declared::need(table, id, at)?;
    Ok(())
}

/// Makes the names declared in the chain and below it declared.
fn collect_decls(chain: Children<'_>, table: &mut [u32]) -> Result<(), TableFault>
    ensures names { Says (each declare_words (declared (as_chain chain.entry)) table.old) (λ _. table.new) number_of place_of result }
    ensures behind { zeroed declared_width table.new ≡ zeroed declared_width table.old }
{
    let mut declaring = Declaring { table };
    declared_names(chain, &mut declaring)
}

/// Whether the table has a row. Such a table is filled, whatever the tree; another reads as no names.
fn is_filled(table: &[u32]) -> bool
    ensures rows { result ≡ true → (tree : Chain) (space : Room) → space.declared ≡ length table.now / declared_width → book.fill_declared space tree (read_declared table.now) ≡ fine (read_declared table.now) }
    ensures words { result ≡ true → table.now ≡ declared_after (read_declared table.now) (read_declared table.now) table.now }
    ensures none { result ≡ false → read_declared table.now ≡ [] }
{
    has_row::<Declared>(table)
}

/// Fills the table of the declared names from the tree, unless it has a row. A table that is too short is left without rows.
pub fn fill_declared(tree: Children<'_>, table: &mut [u32]) -> Result<(), TableFault>
    requires { Tree tree.words.now (as_chain tree) }
    ensures names { MatchResult result (λ _. FilledDeclared (as_chain tree.entry) table.old table.new) (λ e. FullDeclared (as_chain tree.entry) (number_of e) (place_of e) table.old table.new) }
    ensures behind { zeroed declared_width table.new ≡ zeroed declared_width table.old }
{
    if is_filled(table) {
        return Ok(());
    }
    zero_rows::<Declared>(table);
    // No `inspect_err`: of a table that a closure writes to, a proof has no name for what is left.
    match collect_decls(tree, table) {
        Ok(()) => Ok(()),
        Err(fault) => {
            zero_rows::<Declared>(table);
            Err(fault)
        }
    }
}
