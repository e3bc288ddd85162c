// The words of a case, and its shaker.
ghost use Rattle.std.specs.Prelude.{◌≡◌, false, replicate, IfOk};

use answers::{Answer, CallText, Refusal};
use anyhow::anyhow;
use dce::{RepeatFault, Repeated, TreeShaker};
use judge::Judge;
use std::alloc::{AllocError, Global};
use text::{Call, Case};
use verdicts::Config;

/// A case that is being replayed.
#[derive(Drop)]
pub struct Replay<'c, J> {
    heap: Global,
    judge: J,
    retain: &'c [u32],
    config: Config,
    shaker: TreeShaker<J>,
    declared: Vec<u32>,
    names: Vec<u32>,
    edges: Vec<u32>,
    tree: Vec<u32>,
}

impl<'c, J: Judge + Copy> Replay<'c, J> {
    /// A case before its first call: its tables are zeroed, and its shaker is begun.
    pub fn new(heap: Global, case: &'c Case, judge: J) -> anyhow::Result<Replay<'c, J>>
        ensures settings { IfOk result (λ r. (r.config.top_level ≡ case.now.settings.top_level) × (r.config.preserve_imports_with_side_effects ≡ case.now.settings.preserve_imports) × (r.judge ≡ judge)) }
        ensures shaker { IfOk result (λ r. (r.shaker.config ≡ r.config) × (r.shaker.judge ≡ judge) × (r.shaker.changed ≡ false)) }
        ensures tables { IfOk result (λ r. (r.declared.items ≡ replicate case.now.tables.declared 0) × (r.names.items ≡ replicate case.now.tables.names 0) × (r.edges.items ≡ replicate case.now.tables.edges 0)) }
        ensures words { IfOk result (λ r. (r.tree.items ≡ case.now.tree.items) × (r.retain.now ≡ case.now.retain.items)) }
    {
        let config = Config {
            top_level: case.settings.top_level,
            preserve_imports_with_side_effects: case.settings.preserve_imports,
        };
        let shaker = begun(heap, config, judge).map_err(|refusal| anyhow!("{refusal}"))?;
        Ok(Replay {
            heap,
            judge,
            retain: case.retain.as_slice(),
            config,
            shaker,
            declared: zeroed(heap, case.tables.declared)?,
            names: zeroed(heap, case.tables.names)?,
            edges: zeroed(heap, case.tables.edges)?,
            tree: case.tree.clone()?,
        })
    }

    /// Makes a call.
    pub fn make(&mut self, call: Call) -> Answer {
        match call {
            Call::Begin => Answer::Begin(self.begin()),
            Call::Pass => Answer::Pass(self.pass()),
            Call::Reset => Answer::Reset(self.reset()),
            Call::Repeat => self.repeat(),
        }
    }

    fn begin(&mut self) -> Result<(), Refusal> {
        self.shaker = TreeShaker::begin(
            self.heap,
            self.config,
            self.judge,
            self.tree.as_slice(),
            self.declared.as_mut_slice(),
            self.names.as_mut_slice(),
            self.edges.as_mut_slice(),
            self.retain,
        )?;
        Ok(())
    }

    fn pass(&mut self) -> Result<bool, Refusal> {
        let changed = self.shaker.pass(
            self.tree.as_mut_slice(),
            self.declared.as_mut_slice(),
            self.names.as_mut_slice(),
            self.edges.as_mut_slice(),
            self.retain,
        )?;
        Ok(changed)
    }

    fn reset(&mut self) -> Result<(), Refusal> {
        self.shaker.reset(
            self.tree.as_slice(),
            self.declared.as_slice(),
            self.names.as_mut_slice(),
            self.edges.as_mut_slice(),
            self.retain,
        )?;
        Ok(())
    }

    fn repeat(&mut self) -> Answer {
        let repeated = self.shaker.repeat(
            self.tree.as_mut_slice(),
            self.declared.as_mut_slice(),
            self.names.as_mut_slice(),
            self.edges.as_mut_slice(),
            self.retain,
        );
        match repeated {
            Ok(Repeated { passes, reached }) => Answer::Repeat {
                passes,
                reached: Ok(reached),
            },
            Err(RepeatFault { fault, passes }) => Answer::Repeat {
                passes,
                reached: Err(fault.into()),
            },
        }
    }

    /// Tells a call that was just made: what it returned, and what it left.
    pub fn told(&self, answer: Answer) -> CallText<'_>
        ensures answer { result.answer ≡ answer }
        ensures tables { (result.declared.now ≡ self.now.declared.items) × (result.names.now ≡ self.now.names.items) × (result.edges.now ≡ self.now.edges.items) }
        ensures shaker { result.changed ≡ self.now.shaker.changed }
        ensures tree { result.tree.now ≡ self.now.tree.items }
    {
        CallText {
            answer,
            declared: self.declared.as_slice(),
            names: self.names.as_slice(),
            edges: self.edges.as_slice(),
            changed: self.shaker.changed(),
            tree: self.tree.as_slice(),
        }
    }
}

/// A shaker that is begun on other words than a case's, which may be such as begin refuses.
fn begun<J: Judge + Drop>(heap: Global, config: Config, judge: J) -> Result<TreeShaker<J>, Refusal>
    ensures { IfOk result (λ s. (s.config ≡ config) × (s.judge ≡ judge) × (s.changed ≡ false)) }
{
    Ok(TreeShaker::begin(heap, config, judge, &[0; 6], &mut [], &mut [], &mut [], &[])?)
}

/// A table of so many words.
fn zeroed(heap: Global, words: u32) -> Result<Vec<u32>, AllocError>
    ensures { IfOk result (λ table. table.items ≡ replicate words 0) }
{
    vec![in heap; 0; words as usize]
}
