ghost use Rattle.std.specs.Prelude.{◌*◌, ◌≤◌, length};
ghost use Rattle.rules.specs.Refusals.{Says};
ghost use Rattle.rules.specs.Tree.{reached};
ghost use Rattle.data.specs.Events.{tables};
ghost use Rattle.records.specs.Chains.{as_chain, head_of_node};
ghost use Rattle.analyzer.specs.CountFaults.{number as number_of, place as place_of};
ghost use Rattle.analyzer.specs.Visits.{Kept};
ghost use Rattle.analyzer.specs.Walk.{marked_below, marked_parameters, leaving};

use crate::analyzer::Analyzer;
use crate::fault::CountFault;
use crate::notes::Notes;
use marks::{mark_declared, mark_parameters};
use records::{Kind, Node};

impl<'t> Analyzer<'t> {
    /// Marks what leaving the scope that a record opens marks, by what the scope has noted.
    pub(crate) fn leave_scope(&mut self, node: Node<'_>, found: Notes) -> Result<(), CountFault>
        requires { 2 * reached (as_chain node.below) ≤ length self.old.seen.now }
        ensures kept { Kept self.old self.new }
        ensures marks { Says (leaving (head_of_node node.entry) (as_chain node.entry.below) found (tables self.old.names.now self.old.edges.now)) (λ _. tables self.new.names.now self.new.edges.now) number_of place_of result }
    {
        self.mark_below(node, found)?;
        self.mark_received(node, found)
    }

    /// Marks the names declared below a scope, after a direct call of `eval`.
    fn mark_below(&mut self, node: Node<'_>, found: Notes) -> Result<(), CountFault>
        requires { 2 * reached (as_chain node.below) ≤ length self.old.seen.now }
        ensures kept { Kept self.old self.new }
        ensures marks { Says (marked_below (head_of_node node.entry) (as_chain node.entry.below) found (tables self.old.names.now self.old.edges.now)) (λ _. tables self.new.names.now self.new.edges.now) number_of place_of result }
    {
        if found.found_direct_eval {
            mark_declared(node, self.names, self.seen)?;
        }
        Ok(())
    }

    /// Marks the parameters of a Function, after a reference to `arguments`.
    fn mark_received(&mut self, node: Node<'_>, found: Notes) -> Result<(), CountFault>
        ensures kept { Kept self.old self.new }
        ensures marks { Says (marked_parameters (head_of_node node.entry) (as_chain node.entry.below) found (tables self.old.names.now self.old.edges.now)) (λ _. tables self.new.names.now self.new.edges.now) number_of place_of result }
    {
        if found.found_arguments && node.record.kind == Kind::Function {
            mark_parameters(node, self.names)?;
        }
        Ok(())
    }
}
