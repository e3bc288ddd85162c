ghost use Rattle.std.specs.Prelude.{◌≡◌, true, IfOk, IfErr};
ghost use Rattle.rules.specs.Check.{check};
ghost use Rattle.rules.specs.Refusals.{Says};
ghost use Rattle.rules.specs.Calls.{cleared, pass_once, reached_by, repeat_passes, call};
ghost use Rattle.rules.specs.Calls.Answer.{repeat_answer};
ghost use Rattle.rules.specs.Calls.Call.{repeat};
ghost use Rattle.dce.specs.Calls.{lengths_fit, config_by, state, told};
ghost use Rattle.dce.specs.Faults.{number, place};

use crate::fault::{PassFault, RepeatFault};
use crate::lengths::check_lengths;
use crate::pass::Passed;
use crate::tree_shaker::TreeShaker;
use judge::Judge;

/// A completed repeat: how many passes it made, and how many records its first check reached.
#[derive(Clone, Copy, PartialEq, Eq, Debug)]
pub struct Repeated {
    pub passes: u32,
    pub reached: u32,
}

impl<J: Judge> TreeShaker<J> {
    /// Resets, and then makes passes until one changes nothing, resetting between them.
    pub fn repeat(
        &mut self,
        tree: &mut [u32],
        declared: &mut [u32],
        names: &mut [u32],
        edges: &mut [u32],
        retain: &[u32],
    ) -> Result<Repeated, RepeatFault>
        ensures answer { (call (config_by J.Judge.acts self.old retain.now) repeat (state tree.old declared.old names.old edges.old self.old)).answer ≡ repeat_answer (told result) }
        ensures state { state tree.new declared.new names.new edges.new self.new ≡ (call (config_by J.Judge.acts self.old retain.now) repeat (state tree.old declared.old names.old edges.old self.old)).state }
        ensures config { self.new.config ≡ self.old.config }
        ensures judge { self.new.judge ≡ self.old.judge }
    {
        check_lengths(tree, declared, names, edges, retain).map_err(PassFault::from)?;
        self.repeat_passes(tree, declared, names, edges, retain)
    }

    /// A repeat over words whose lengths fit.
    fn repeat_passes(
        &mut self,
        tree: &mut [u32],
        declared: &mut [u32],
        names: &mut [u32],
        edges: &mut [u32],
        retain: &[u32],
    ) -> Result<Repeated, RepeatFault>
        requires { lengths_fit tree.old declared.old names.old edges.old retain.now ≡ true }
        ensures answer { (repeat_passes (config_by J.Judge.acts self.old retain.now) (state tree.old declared.old names.old edges.old self.old)).answer ≡ told result }
        ensures state { state tree.new declared.new names.new edges.new self.new ≡ (repeat_passes (config_by J.Judge.acts self.old retain.now) (state tree.old declared.old names.old edges.old self.old)).state }
        ensures config { self.new.config ≡ self.old.config }
        ensures judge { self.new.judge ≡ self.old.judge }
    {
        let first = self.turn(tree, declared, names, edges, retain, 0)?;
        let mut passes = 1;
        let mut changed = first.changed;
        while changed {
            let passed = self.turn(tree, declared, names, edges, retain, passes)?;
            passes += 1;
            changed = passed.changed;
        }
        Ok(Repeated {
            passes,
            reached: first.reached,
        })
    }

    /// One more pass of a repeat that has made so many.
    fn turn(
        &mut self,
        tree: &mut [u32],
        declared: &mut [u32],
        names: &mut [u32],
        edges: &mut [u32],
        retain: &[u32],
        passes: u32,
    ) -> Result<Passed, RepeatFault>
        requires { lengths_fit tree.old declared.old names.old edges.old retain.now ≡ true }
        ensures answer { Says (pass_once (config_by J.Judge.acts self.old retain.now) (cleared (state tree.old declared.old names.old edges.old self.old))).answer (λ p. p.changed) (λ e. number e.fault) (λ e. place e.fault) result }
        ensures passes { IfErr result (λ e. e.passes ≡ passes) }
        ensures reached { IfOk result (λ p. p.reached ≡ reached_by (check tree.old)) }
        ensures state { state tree.new declared.new names.new edges.new self.new ≡ (pass_once (config_by J.Judge.acts self.old retain.now) (cleared (state tree.old declared.old names.old edges.old self.old))).state }
        ensures config { self.new.config ≡ self.old.config }
        ensures judge { self.new.judge ≡ self.old.judge }
    {
        self.clear(names, edges);
        match self.pass_once(tree, declared, names, edges, retain) {
            Ok(passed) => Ok(passed),
            Err(fault) => Err(RepeatFault { fault, passes }),
        }
    }
}
