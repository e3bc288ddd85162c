ghost use Rattle.std.specs.Prelude.{Some};
ghost use Rattle.std.specs.Fmt.{WritesOnOk};
ghost use Rattle.rules.specs.Check.{check as checked};
ghost use Rattle.records.specs.Chains.{as_chain, head_of_node};
ghost use Rattle.answers.specs.Lines.{head_text, chain_text, tree_text};

use checker::check;
use records::{Children, MOST_NESTING, Node, ROOT};
use std::fmt;

/// A tree as text: the records that its root reaches, or a dash where the check refuses it.
#[derive(Clone, Copy)]
pub struct TreeText<'w>(pub &'w [u32]);

impl fmt::Display for TreeText<'_> {
    ghost output = { λ t. Some (tree_text (checked t.0.now)) };

    fn fmt<W: fmt::Write>(&self, f: &mut fmt::Formatter<W>) -> fmt::Result {
        let TreeText(words) = *self;
        match check(words) {
            Ok(_) => write_chain(Children::within(words, ROOT, MOST_NESTING), f),
            Err(_) => f.write_str(" -"),
        }
    }
}

/// Writes the records of a chain, each with those below it.
fn write_chain<W: fmt::Write>(chain: Children<'_>, f: &mut fmt::Formatter<W>) -> fmt::Result
    ensures { WritesOnOk W.write_str_gives f.old result (chain_text (as_chain chain.entry)) f.new }
{
    for node in chain {
        write_head(node, f)?;
        write_chain(node.below, f)?;
        f.write_str(")")?;
    }
    Ok(())
}

/// Writes a record without its links, and leaves its parenthesis open.
fn write_head<W: fmt::Write>(node: Node<'_>, f: &mut fmt::Formatter<W>) -> fmt::Result
    ensures { WritesOnOk W.write_str_gives f.old result (head_text (head_of_node node.entry)) f.new }
{
    let n = node.number;
    let kind = u32::from(node.record.kind);
    let flags = node.record.flags;
    let symbol = node.record.symbol;
    let mark = node.record.mark;
    write!(f, " ({n} {kind} {flags} {symbol} {mark}")
}
