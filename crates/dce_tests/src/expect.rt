use answers::{TableText, TreeText};
use dce::{PassFault, TreeShaker};
use judge::Judge;
use std::alloc::Global;
use std::process::Abort;
use std::test::Fail;
use tables::{Declared, Edges, Names};
use verdicts::Config;

/// Names may go anywhere, and Imports are not preserved.
pub(crate) const TOP: Config = Config {
    top_level: true,
    preserve_imports_with_side_effects: false,
};

/// Names may go anywhere, and Imports are preserved.
pub(crate) const TOP_PRESERVING: Config = Config {
    top_level: true,
    preserve_imports_with_side_effects: true,
};

/// Names may go in Functions and Blocks, and Imports are not preserved.
pub(crate) const NESTED: Config = Config {
    top_level: false,
    preserve_imports_with_side_effects: false,
};

/// Names may go in Functions and Blocks, and Imports are preserved.
pub(crate) const NESTED_PRESERVING: Config = Config {
    top_level: false,
    preserve_imports_with_side_effects: true,
};

/// A tree that is long enough for a shaker to begin with.
pub(crate) const ROOT_ALONE: [u32; 6] = [2, 0, 0, 0, 0, 0];

/// What passes are handed: the settings, the retain list, how many words the tables have, and the tree.
#[derive(Clone, Copy)]
pub(crate) struct Given<'a> {
    pub(crate) config: Config,
    pub(crate) retain: &'a [u32],
    pub(crate) tables: [usize; 3],
    pub(crate) tree: &'a [u32],
}

impl<'a> Given<'a> {
    /// With tables that are long enough.
    pub(crate) fn of(config: Config, retain: &'a [u32], tree: &'a [u32]) -> Given<'a> {
        Given {
            config,
            retain,
            tables: [41, 125, 83],
            tree,
        }
    }
}

/// Begins a shaker and makes passes: what they should answer, and what should be left in declared, names, edges and the tree.
/// A refused pass should leave the tree's words alone.
pub(crate) fn expect<J: Judge + Drop>(
    rt: &impl Abort,
    heap: Global,
    judge: J,
    given: Given<'_>,
    answers: &[Result<bool, PassFault>],
    left: [&str; 4],
) -> Result<(), Fail> {
    let [d, n, e] = given.tables;
    let mut tree = given.tree.to_vec(heap)?;
    let mut declared = vec![in heap; 7; d]?;
    let mut names = vec![in heap; 7; n]?;
    let mut edges = vec![in heap; 7; e]?;
    let mut shaker = TreeShaker::begin(
        heap,
        given.config,
        judge,
        &ROOT_ALONE,
        &mut declared,
        &mut names,
        &mut edges,
        &[],
    )?;
    for answer in answers {
        let before = tree.as_slice().to_vec(heap)?;
        let found = shaker.pass(
            &mut tree,
            &mut declared,
            &mut names,
            &mut edges,
            given.retain,
        );
        assert_eq!(rt; found, *answer);
        assert!(rt; found.is_ok() || tree.as_slice() == before.as_slice());
    }
    let [in_declared, in_names, in_edges, in_tree] = left;
    let rows = TableText::<Declared>::of(&declared).to_string(heap)?;
    assert_eq!(rt; rows.as_str(), in_declared);
    let rows = TableText::<Names>::of(&names).to_string(heap)?;
    assert_eq!(rt; rows.as_str(), in_names);
    let rows = TableText::<Edges>::of(&edges).to_string(heap)?;
    assert_eq!(rt; rows.as_str(), in_edges);
    let records = TreeText(&tree).to_string(heap)?;
    assert_eq!(rt; records.as_str(), in_tree);
    Ok(())
}
