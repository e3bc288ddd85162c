// The names that a tree declares, with the records that bear them.
ghost use Rattle.std.specs.Prelude.{◌≡◌, length, IfOk};
ghost use Rattle.rules.specs.Names.{declared};
ghost use Rattle.rules.specs.Words.{tree_of};
ghost use Rattle.outline.specs.Outline.{names_of};

use crate::counted::Counted;
use crate::found::Found;
use crate::tree::CheckedTree;
use names::declared_names;
use records::Id;
use std::alloc::{AllocError, Global};
use std::fmt;

/// A declared name, and the record that bears it.
#[derive(Clone, Copy)]
pub struct Named {
    pub id: Id,
    pub record: u32,
}

impl CheckedTree {
    /// The names that the tree declares in walk order, each with the record that bears it.
    pub fn declared(&self, heap: Global) -> Result<Vec<Named>, AllocError>
        ensures { IfOk result (λ v. v.items ≡ names_of (declared (tree_of self.now.words.items 1))) }
    {
        let mut found = Found::with_room(heap, self.count_declared())?;
        let Ok(()) = declared_names(self.root(), &mut found) else {
            unreachable!();
        };
        Ok(found.into_names())
    }

    // Counted first, in a walk of its own, so that memory is taken for the names alone.
    /// How many names the tree declares.
    fn count_declared(&self) -> usize
        ensures { result ≡ length (declared (tree_of self.now.words.items 1)) }
    {
        let mut counted = Counted {
            count: 0,
            most: self.reached() as usize,
        };
        let Ok(()) = declared_names(self.root(), &mut counted) else {
            unreachable!();
        };
        counted.count
    }
}

impl fmt::Display for Named {
    /// Writes the name and its record.
    fn fmt<W: fmt::Write>(&self, f: &mut fmt::Formatter<W>) -> fmt::Result {
        let id = self.id;
        let record = self.record;
        write!(f, "declares {id} by record {record}")
    }
}
