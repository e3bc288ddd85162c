use anyhow::anyhow;
use checker::check;
use dce::{Repeated, TreeShaker};
use judge::Plain;
use std::alloc::Global;
use tables::{Edges, Names, row_count};
use verdicts::Config;

/// Each name may go, and an Import that has lost its Specifiers too.
const CONFIG: Config = Config {
    top_level: true,
    preserve_imports_with_side_effects: false,
};

/// The mark of unresolved names, which none bears.
const UNRESOLVED: u32 = 1;

/// A tree that is being shaken, with its tables.
#[derive(Drop)]
pub(crate) struct Bench {
    shaker: TreeShaker<Plain>,
    tree: Vec<u32>,
    declared: Vec<u32>,
    names: Vec<u32>,
    edges: Vec<u32>,
}

impl Bench {
    /// Begins on a copy of a tree, with a row of declared, one of names and six of edges for each record.
    pub(crate) fn begin(heap: Global, tree: &[u32]) -> anyhow::Result<Bench> {
        let mut declared = vec![in heap; 0; tree.len() / 3]?;
        let mut names = vec![in heap; 0; tree.len()]?;
        let mut edges = vec![in heap; 0; tree.len().saturating_mul(4)]?;
        let judge = Plain {
            unresolved: UNRESOLVED,
        };
        let shaker = TreeShaker::begin(
            heap,
            CONFIG,
            judge,
            tree,
            &mut declared,
            &mut names,
            &mut edges,
            &[],
        )
        .map_err(|fault| anyhow!("{fault:?}"))?;
        Ok(Bench {
            shaker,
            tree: tree.to_vec(heap)?,
            declared,
            names,
            edges,
        })
    }

    /// Makes a pass.
    pub(crate) fn pass(&mut self) -> anyhow::Result<bool> {
        self.shaker
            .pass(
                &mut self.tree,
                &mut self.declared,
                &mut self.names,
                &mut self.edges,
                &[],
            )
            .map_err(|fault| anyhow!("{fault:?}"))
    }

    /// Makes a repeat.
    pub(crate) fn repeat(&mut self) -> anyhow::Result<Repeated> {
        self.shaker
            .repeat(
                &mut self.tree,
                &mut self.declared,
                &mut self.names,
                &mut self.edges,
                &[],
            )
            .map_err(|fault| anyhow!("{fault:?}"))
    }

    /// How many records the tree has.
    pub(crate) fn reached(&self) -> anyhow::Result<u32> {
        check(&self.tree).map_err(|fault| anyhow!("{fault:?}"))
    }

    /// How many names were counted.
    pub(crate) fn name_rows(&self) -> usize {
        row_count::<Names>(&self.names)
    }

    /// How many edges there are between names.
    pub(crate) fn edge_rows(&self) -> usize {
        row_count::<Edges>(&self.edges)
    }
}
