// The words that a case hands over.
ghost use Rattle.std.specs.Prelude.{◌≡◌, replicate, IfOk};

use std::alloc::{AllocError, Global};
use text::Case;

/// A tree, and zeroed tables of the lengths that the case gives.
#[derive(Drop)]
pub struct Handed {
    pub tree: Vec<u32>,
    pub declared: Vec<u32>,
    pub names: Vec<u32>,
    pub edges: Vec<u32>,
}

impl Handed {
    /// The words of a case.
    pub fn of(heap: Global, case: &Case) -> Result<Handed, AllocError>
        ensures tree { IfOk result (λ h. h.tree.items ≡ case.now.tree.items) }
        ensures tables { IfOk result (λ h. (h.declared.items ≡ replicate case.now.tables.declared 0) × (h.names.items ≡ replicate case.now.tables.names 0) × (h.edges.items ≡ replicate case.now.tables.edges 0)) }
    {
        Ok(Handed {
            tree: case.tree.clone()?,
            declared: zeroed(heap, case.tables.declared)?,
            names: zeroed(heap, case.tables.names)?,
            edges: zeroed(heap, case.tables.edges)?,
        })
    }
}

/// A table of so many words.
fn zeroed(heap: Global, words: u32) -> Result<Vec<u32>, AllocError>
    ensures { IfOk result (λ table. table.items ≡ replicate words 0) }
{
    vec![in heap; 0; words as usize]
}
