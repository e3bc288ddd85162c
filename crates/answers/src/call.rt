ghost use Rattle.std.specs.Prelude.{Some};
ghost use Rattle.answers.specs.Calls.{call_text};

use crate::answer::Answer;
use crate::rows::TableText;
use crate::tree::TreeText;
use std::fmt;
use tables::{Declared, Edges, Names};

/// A call as text: a line for what it returned, and five for what it left.
#[derive(Clone, Copy)]
pub struct CallText<'w> {
    pub answer: Answer,
    pub declared: &'w [u32],
    pub names: &'w [u32],
    pub edges: &'w [u32],
    pub changed: bool,
    pub tree: &'w [u32],
}

impl fmt::Display for CallText<'_> {
    ghost output = { λ c. Some (call_text c) };

    fn fmt<W: fmt::Write>(&self, f: &mut fmt::Formatter<W>) -> fmt::Result {
        let answer = self.answer;
        let declared = TableText::<Declared>::of(self.declared);
        let names = TableText::<Names>::of(self.names);
        let edges = TableText::<Edges>::of(self.edges);
        let changed = u32::from(self.changed);
        let tree = TreeText(self.tree);
        writeln!(f, "{answer}")?;
        writeln!(f, "declared{declared}")?;
        writeln!(f, "names{names}")?;
        writeln!(f, "edges{edges}")?;
        writeln!(f, "changed {changed}")?;
        writeln!(f, "tree{tree}")
    }
}
