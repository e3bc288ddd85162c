ghost use Rattle.std.specs.Prelude.{◌≡◌, ℕ, List};
ghost use Rattle.rules.specs.Refusals.{Outcome, Says};
ghost use Rattle.rules.specs.Calls.{call, cleared};
ghost use Rattle.rules.specs.Calls.Answer.{reset_answer};
ghost use Rattle.rules.specs.Calls.Call.{reset};
ghost use Rattle.dce.specs.Calls.{config_by, state};

use crate::fault::LengthsFault;
use crate::lengths::check_lengths;
use crate::tree_shaker::TreeShaker;
use judge::Judge;
use tables::{Edges, Names, zero_rows};

impl<J: Judge> TreeShaker<J> {
    /// Forgets that something was changed, and zeroes names and edges.
    pub fn reset(
        &mut self,
        tree: &[u32],
        declared: &[u32],
        names: &mut [u32],
        edges: &mut [u32],
        retain: &[u32],
    ) -> Result<(), LengthsFault>
        ensures answer { (o : Outcome Unit) × ((call (config_by J.Judge.acts self.old retain.now) reset (state tree.now declared.now names.old edges.old self.old)).answer ≡ reset_answer o) × Says o (λ x. x) (λ _. 1) (λ _. 0) result }
        ensures state { state tree.now declared.now names.new edges.new self.new ≡ (call (config_by J.Judge.acts self.old retain.now) reset (state tree.now declared.now names.old edges.old self.old)).state }
        ensures config { self.new.config ≡ self.old.config }
        ensures judge { self.new.judge ≡ self.old.judge }
    {
        check_lengths(tree, declared, names, edges, retain)?;
        self.clear(names, edges);
        Ok(())
    }

    /// What a reset does where the lengths fit.
    pub(crate) fn clear(&mut self, names: &mut [u32], edges: &mut [u32])
        ensures state { (tree declared : List ℕ) → state tree declared names.new edges.new self.new ≡ cleared (state tree declared names.old edges.old self.old) }
        ensures config { self.new.config ≡ self.old.config }
        ensures judge { self.new.judge ≡ self.old.judge }
    {
        self.changed = false;
        zero_rows::<Names>(names);
        zero_rows::<Edges>(edges);
    }
}
