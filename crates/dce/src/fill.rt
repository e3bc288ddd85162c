ghost use Rattle.std.specs.Prelude.{◌≡◌, ◌*◌, ◌^◌, ◌<◌, ◌≤◌, MatchResult, List, length};
ghost use Rattle.rules.specs.Calls.{declared_after, zeroed};
ghost use Rattle.rules.specs.Check.{most_nesting};
ghost use Rattle.rules.specs.Held.{Tree};
ghost use Rattle.rules.specs.Tables.{declared_width, names_width, edges_width, read_declared};
ghost use Rattle.rules.specs.Tree.{Name, reached};
ghost use Rattle.records.specs.Chains.{as_chain};
ghost use Rattle.analyzer.specs.CountFaults.{number as number_of, place as place_of};
ghost use Rattle.dce.specs.Filling.{FilledTables, Refused, FullTables};

use analyzer::{CountFault, count, fill_declared};
use records::Children;
use tables::{Declared, Edges, Names, has_row, zero_rows};

/// Fills the tables from a tree: names and edges anew, and declared unless it has a row. Where one is too short, those
/// that were to be filled are left without rows.
pub(crate) fn fill_tables(
    tree: Children<'_>,
    declared: &mut [u32],
    names: &mut [u32],
    edges: &mut [u32],
    seen: &mut [u32],
) -> Result<(), CountFault>
    requires tree { Tree tree.words.now (as_chain tree) }
    requires deep { tree.left ≤ most_nesting }
    requires short { length names.old < 2 ^ 32 }
    requires room { 2 * reached (as_chain tree) ≤ length seen.old }
    ensures tables { MatchResult result (λ _. FilledTables (as_chain tree.entry) declared.old names.old edges.old declared.new names.new edges.new) (λ e. FullTables (as_chain tree.entry) declared.old names.old edges.old (number_of e) (place_of e) declared.new names.new edges.new) }
    ensures work { length seen.new ≡ length seen.old }
{
    let kept = has_row::<Declared>(declared);
    match fill_each(tree, declared, names, edges, seen) {
        Ok(()) => Ok(()),
        Err(fault) => {
            if !kept {
                zero_rows::<Declared>(declared);
            }
            zero_rows::<Names>(names);
            zero_rows::<Edges>(edges);
            Err(fault)
        }
    }
}

/// Fills the tables; one that is too short is left as far as it was filled.
fn fill_each(
    tree: Children<'_>,
    declared: &mut [u32],
    names: &mut [u32],
    edges: &mut [u32],
    seen: &mut [u32],
) -> Result<(), CountFault>
    requires tree { Tree tree.words.now (as_chain tree) }
    requires deep { tree.left ≤ most_nesting }
    requires short { length names.old < 2 ^ 32 }
    requires room { 2 * reached (as_chain tree) ≤ length seen.old }
    ensures tables { MatchResult result (λ _. FilledTables (as_chain tree.entry) declared.old names.old edges.old declared.new names.new edges.new) (λ e. Refused (as_chain tree.entry) declared.old names.old edges.old (number_of e) (place_of e)) }
    ensures declared { (rows : List Name) × (declared.new ≡ declared_after (read_declared declared.old) rows declared.old) }
    ensures declared_behind { zeroed declared_width declared.new ≡ zeroed declared_width declared.old }
    ensures names_behind { zeroed names_width names.new ≡ zeroed names_width names.old }
    ensures edges_behind { zeroed edges_width edges.new ≡ zeroed edges_width edges.old }
{
    zero_rows::<Names>(names);
    zero_rows::<Edges>(edges);
    fill_declared(tree, declared)?;
    count(tree, names, edges, seen)?;
    Ok(())
}
