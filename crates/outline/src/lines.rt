// The outline of a tree: its records in walk order, each with its nesting.
ghost use Rattle.std.specs.Prelude.{◌≡◌, ◌+◌, ◌≤◌, ◌++◌, IfOk, OnOk};
ghost use Rattle.rules.specs.Words.{tree_of};
ghost use Rattle.records.specs.Chains.{as_chain};
ghost use Rattle.outline.specs.Outline.{outlined, lines_of};

use crate::tree::CheckedTree;
use records::{Children, Kind, Record};
use std::alloc::{AllocError, Global};
use std::fmt;

/// A record with its number and its nesting, the root's 1.
#[derive(Clone, Copy)]
pub struct OutlineLine {
    pub nesting: u32,
    pub number: u32,
    pub record: Record,
}

impl CheckedTree {
    /// The records that the root reaches, each before its children.
    pub fn lines(&self, heap: Global) -> Result<Vec<OutlineLine>, AllocError>
        ensures { IfOk result (λ v. lines_of v.items ≡ outlined 1 (tree_of self.now.words.items 1)) }
    {
        let mut lines = Vec::new(heap);
        outline(self.root(), 1, &mut lines)?;
        Ok(lines)
    }
}

// Puts the records of a chain, and those under them, behind what stands in the lines.
fn outline(
    chain: Children<'_>,
    nesting: u32,
    lines: &mut Vec<OutlineLine>,
) -> Result<(), AllocError>
    requires { chain.left + nesting ≤ 129 }
    ensures { OnOk result (lines_of lines.new.items ≡ lines_of lines.old.items ++ outlined nesting (as_chain chain.entry)) }
{
    for node in chain {
        lines.push(OutlineLine {
            nesting,
            number: node.number,
            record: node.record,
        })?;
        outline(node.below, nesting + 1, lines)?;
    }
    Ok(())
}

impl fmt::Display for OutlineLine {
    /// Writes the record indented by its nesting: its number, its kind, its flag, and its name or its text.
    fn fmt<W: fmt::Write>(&self, f: &mut fmt::Formatter<W>) -> fmt::Result {
        for _ in 1..self.nesting {
            f.write_str("  ")?;
        }
        let number = self.number;
        let record = self.record;
        let kind = record.kind;
        let id = record.id();
        write!(f, "{number} {kind}")?;
        if record.is_flagged() {
            f.write_str(" (flag 1)")?;
        }
        if id.symbol == 0 {
            Ok(())
        } else if kind == Kind::Literal {
            let text = id.symbol;
            write!(f, " text {text}")
        } else {
            write!(f, " {id}")
        }
    }
}
