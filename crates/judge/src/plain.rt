ghost use Rattle.std.specs.Prelude.{◌≡◌};
ghost use Rattle.rules.specs.Tree.Chain.{end, link};
ghost use Rattle.rules.specs.Judges.{plain, acts_itself, acts_by_child, some_acts};
ghost use Rattle.records.specs.Chains.{as_chain, head_of_node};
ghost use Rattle.records.specs.Reads.{head_of};
ghost use Rattle.judge.specs.Numbers.{plain_lawful};

use crate::judge::Judge;
use records::{Children, Kind, Node, Record};

/// The judge that looks at what an expression is made of, given the mark of unresolved names.
#[derive(Clone, Copy)]
pub struct Plain {
    pub unresolved: u32,
}

impl Judge for Plain {
    ghost acts = { λ s c. plain s.unresolved c };

    ghost lawful = { λ s. plain_lawful s.unresolved };

    fn may_act(&self, chain: Children<'_>) -> bool {
        chain.first().is_some_and(|node| self.acts(node))
    }
}

impl Plain {
    /// Whether a record acts whatever is under it.
    fn acts_itself(&self, node: Record) -> bool
        ensures { result ≡ acts_itself self.now.unresolved (head_of 0 node) }
    {
        matches!(
            node.kind,
            Kind::ClassExpression | Kind::Call | Kind::Delete | Kind::Assignment
        ) || (node.kind == Kind::PlainExpression && node.is_flagged())
            || (node.kind == Kind::Identifier && node.mark == self.unresolved)
    }

    /// Whether a record acts, by itself or by a child.
    #[cycle(acting)]
    fn acts(&self, node: Node<'_>) -> bool
        ensures { result ≡ plain self.now.unresolved (link (head_of_node node.entry) (as_chain node.entry.below) end) }
    {
        self.acts_itself(node.record) || (acts_by_child(node.record) && self.some_acts(node.below))
    }

    /// Whether a record of the chain acts.
    #[cycle(acting)]
    fn some_acts(&self, chain: Children<'_>) -> bool
        ensures { result ≡ some_acts self.now.unresolved (as_chain chain.entry) }
    {
        // `any` is no plainer here: its closure, in a cycle of calls, would need a contract of its own.
        for node in chain {
            if self.acts(node) {
                return true;
            }
        }
        false
    }
}

/// Whether a record acts if one of its children does.
fn acts_by_child(node: Record) -> bool
    ensures { result ≡ acts_by_child (head_of 0 node) }
{
    node.kind == Kind::PlainExpression || node.kind == Kind::Object
}
