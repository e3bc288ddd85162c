// Which records a tree reaches, and of which kinds they are.
use outline::CheckedTree;
use records::{Children, Kind};
use std::alloc::{AllocError, Global};

/// The kinds of the records that a tree reaches, by their numbers.
#[derive(Drop)]
pub(crate) struct Kinds {
    kinds: Vec<Option<Kind>>,
}

impl Kinds {
    /// The kinds of a tree's records.
    pub(crate) fn of(heap: Global, tree: &CheckedTree) -> Result<Kinds, AllocError> {
        let lines = tree.lines(heap)?;
        let mut kinds = vec![in heap; None; tree.words().len()]?;
        for line in &lines {
            if let Some(kind) = kinds.get_mut(line.number as usize) {
                *kind = Some(line.record.kind);
            }
        }
        Ok(Kinds { kinds })
    }

    /// The kind of a record, if it is reached.
    pub(crate) fn kind(&self, number: u32) -> Option<Kind> {
        self.kinds.get(number as usize).copied().flatten()
    }

    /// Whether a record of the chain, or one below, is reached.
    pub(crate) fn reaches(&self, chain: Children<'_>) -> bool {
        for node in chain {
            if self.kind(node.number).is_some() || self.reaches(node.below) {
                return true;
            }
        }
        false
    }
}
