ghost use Rattle.std.specs.Prelude.{◌≡◌, ◌*◌, ◌^◌, ◌<◌, ◌≤◌, length};
ghost use Rattle.rules.specs.Calls.{zeroed};
ghost use Rattle.rules.specs.Check.{most_nesting};
ghost use Rattle.rules.specs.Counting.{events_of};
ghost use Rattle.rules.specs.Refusals.{Says};
ghost use Rattle.rules.specs.Tables.{names_width, edges_width};
ghost use Rattle.rules.specs.Tree.{reached};
ghost use Rattle.records.specs.Chains.{as_chain};
ghost use Rattle.data.specs.Events.{tables};
ghost use Rattle.data.specs.Filling.{fill_words};
ghost use Rattle.analyzer.specs.CountFaults.{number as number_of, place as place_of};

use crate::analyzer::Analyzer;
use crate::fault::CountFault;
use crate::notes::Notes;
use crate::scope::Scope;
use records::{Children, Id, MOST_NESTING};

/// Counts the references and marks of the tree into the words of names and edges.
/// A full table stops the count; `seen` is work memory.
pub fn count<'t>(
    tree: Children<'_>,
    names: &'t mut [u32],
    edges: &'t mut [u32],
    seen: &'t mut [u32],
) -> Result<(), CountFault>
    requires deep { tree.left ≤ most_nesting }
    requires short { length names.old < 2 ^ 32 }
    requires room { 2 * reached (as_chain tree) ≤ length seen.old }
    ensures events { Says (fill_words (events_of (as_chain tree.entry)) (tables names.old edges.old)) (λ _. tables names.new edges.new) number_of place_of result }
    ensures names_behind { zeroed names_width names.new ≡ zeroed names_width names.old }
    ensures edges_behind { zeroed edges_width edges.new ≡ zeroed edges_width edges.old }
{
    let mut analyzer = Analyzer {
        scope: Scope::outermost(),
        path: [Id::default(); MOST_NESTING],
        names,
        edges,
        seen,
        notes: Notes::none(),
    };
    analyzer.visit_children(tree)
}
