ghost use Rattle.std.specs.Prelude.{◌≡◌, ℕ, Bool, true, List, IfOk};
ghost use Rattle.rules.specs.Refusals.{Outcome, Says};
ghost use Rattle.rules.specs.Refusals.Outcome.{fine};
ghost use Rattle.rules.specs.Words.{tree_of};
ghost use Rattle.rules.specs.Check.{check};
ghost use Rattle.rules.specs.Tables.{NameRow, read_declared};
ghost use Rattle.rules.specs.Removal.{at_root, going_by, treat};
ghost use Rattle.tables.specs.Matching.{NamesHeld};
ghost use Rattle.rules.specs.Calls.{pass_once, reached_by, call};
ghost use Rattle.rules.specs.Calls.Call.{pass};
ghost use Rattle.rules.specs.Calls.Answer.{pass_answer};
ghost use Rattle.dce.specs.Calls.{lengths_fit, config_by, state};
ghost use Rattle.dce.specs.Faults.{number as number_of, place as place_of};

use crate::discount::discount;
use crate::fault::PassFault;
use crate::fill::fill_tables;
use crate::lengths::check_lengths;
use crate::tree_shaker::TreeShaker;
use checker::check;
use judge::Judge;
use records::{Children, MOST_NESTING, ROOT};
use removal::remove;
use verdicts::Basis;

/// A completed pass: whether something was changed since the shaker was begun or reset, and how many records the check reached.
#[derive(Clone, Copy)]
pub(crate) struct Passed {
    pub(crate) changed: bool,
    pub(crate) reached: u32,
}

impl<J: Judge> TreeShaker<J> {
    /// Makes a pass: checks the tree, fills the tables from it, discounts, and removes what the rules take. It says whether
    /// something was changed since the shaker was begun or reset.
    pub fn pass(
        &mut self,
        tree: &mut [u32],
        declared: &mut [u32],
        names: &mut [u32],
        edges: &mut [u32],
        retain: &[u32],
    ) -> Result<bool, PassFault>
        ensures answer { (o : Outcome Bool) × ((call (config_by J.Judge.acts self.old retain.now) pass (state tree.old declared.old names.old edges.old self.old)).answer ≡ pass_answer o) × Says o (λ b. b) number_of place_of result }
        ensures state { state tree.new declared.new names.new edges.new self.new ≡ (call (config_by J.Judge.acts self.old retain.now) pass (state tree.old declared.old names.old edges.old self.old)).state }
        ensures config { self.new.config ≡ self.old.config }
        ensures judge { self.new.judge ≡ self.old.judge }
    {
        check_lengths(tree, declared, names, edges, retain)?;
        let passed = self.pass_once(tree, declared, names, edges, retain)?;
        Ok(passed.changed)
    }

    /// A pass over words whose lengths fit: checks the tree, fills the tables, discounts, and removes.
    pub(crate) fn pass_once(
        &mut self,
        tree: &mut [u32],
        declared: &mut [u32],
        names: &mut [u32],
        edges: &mut [u32],
        retain: &[u32],
    ) -> Result<Passed, PassFault>
        requires { lengths_fit tree.old declared.old names.old edges.old retain.now ≡ true }
        ensures answer { Says (pass_once (config_by J.Judge.acts self.old retain.now) (state tree.old declared.old names.old edges.old self.old)).answer (λ p. p.changed) number_of place_of result }
        ensures reached { IfOk result (λ p. p.reached ≡ reached_by (check tree.old)) }
        ensures state { state tree.new declared.new names.new edges.new self.new ≡ (pass_once (config_by J.Judge.acts self.old retain.now) (state tree.old declared.old names.old edges.old self.old)).state }
        ensures config { self.new.config ≡ self.old.config }
        ensures judge { self.new.judge ≡ self.old.judge }
    {
        let reached = check(tree)?;
        let work = self.work.as_mut_slice();
        fill_tables(
            Children::within(tree, ROOT, MOST_NESTING),
            declared,
            names,
            edges,
            work,
        )?;
        discount(names, edges, work);
        let removed = self.remove(tree, declared, names, retain);
        self.changed |= removed;
        Ok(Passed {
            changed: self.changed,
            reached,
        })
    }

    /// Removes from a checked tree by the tables that were filled from it, and says whether something was removed.
    fn remove(&self, tree: &mut [u32], declared: &[u32], names: &[u32], retain: &[u32]) -> bool
        requires { check tree.old ≡ fine (tree_of tree.old 1) }
        ensures tree { (found : List ℕ) (rs : List NameRow) → NamesHeld found rs names.now → check tree.new ≡ fine (treat (going_by (config_by J.Judge.acts self.now retain.now) (read_declared declared.now) rs) at_root (tree_of tree.old 1)).chain }
        ensures changed { (found : List ℕ) (rs : List NameRow) → NamesHeld found rs names.now → result ≡ (treat (going_by (config_by J.Judge.acts self.now retain.now) (read_declared declared.now) rs) at_root (tree_of tree.old 1)).changed }
    {
        let shaker = verdicts::TreeShaker {
            judge: &self.judge,
            basis: Basis {
                config: self.config,
                retain,
                declared,
                names,
            },
        };
        remove(&shaker, tree)
    }
}
