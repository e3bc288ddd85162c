// The passes of a repeat, made one by one, so that the tree is seen between them.
ghost use Rattle.std.specs.Prelude.{◌≡◌, IfOk};

use crate::handed::Handed;
use answers::Refusal;
use anyhow::anyhow;
use dce::TreeShaker;
use judge::Judge;
use outline::CheckedTree;
use std::alloc::Global;
use text::Case;
use verdicts::Config;

/// A shaker that was begun on the words of a case.
#[derive(Drop)]
pub struct Passes<'c, J> {
    retain: &'c [u32],
    handed: Handed,
    shaker: TreeShaker<J>,
}

impl<'c, J: Judge + Drop> Passes<'c, J> {
    /// Begins a shaker.
    pub fn begin(
        heap: Global,
        case: &'c Case,
        config: Config,
        judge: J,
    ) -> anyhow::Result<Passes<'c, J>>
        ensures words { IfOk result (λ p. (p.handed.tree.items ≡ case.now.tree.items) × (p.retain.now ≡ case.now.retain.items)) }
        ensures shaker { IfOk result (λ p. (p.shaker.config ≡ config) × (p.shaker.judge ≡ judge)) }
    {
        let mut handed = Handed::of(heap, case)?;
        let retain = case.retain.as_slice();
        let shaker = TreeShaker::begin(
            heap,
            config,
            judge,
            handed.tree.as_slice(),
            handed.declared.as_mut_slice(),
            handed.names.as_mut_slice(),
            handed.edges.as_mut_slice(),
            retain,
        )
        .map_err(told)?;
        Ok(Passes {
            retain,
            handed,
            shaker,
        })
    }

    /// Makes the next pass as a repeat does, after a reset, and gives the tree that it left.
    pub fn make(&mut self) -> anyhow::Result<CheckedTree> {
        let handed = &mut self.handed;
        self.shaker
            .reset(
                handed.tree.as_slice(),
                handed.declared.as_slice(),
                handed.names.as_mut_slice(),
                handed.edges.as_mut_slice(),
                self.retain,
            )
            .map_err(told)?;
        self.shaker
            .pass(
                handed.tree.as_mut_slice(),
                handed.declared.as_mut_slice(),
                handed.names.as_mut_slice(),
                handed.edges.as_mut_slice(),
                self.retain,
            )
            .map_err(told)?;
        Ok(CheckedTree::new(handed.tree.clone()?)?)
    }
}

/// A refusal as an error of the program.
fn told<F: Into<Refusal>>(fault: F) -> anyhow::Error {
    let refusal: Refusal = fault.into();
    anyhow!("{refusal}")
}
