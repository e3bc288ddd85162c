// The comparison of a tree with what a pass left of it.
use crate::change::{Change, Rule};
use crate::kinds::Kinds;
use outline::CheckedTree;
use records::{Children, Id, Kind, Node};
use shaker::place::has_list;
use std::alloc::{AllocError, Global};

/// What a pass changed in a tree, in walk order. What stood in a record that went as a whole is not told again.
pub fn changes(
    heap: Global,
    before: &CheckedTree,
    after: &CheckedTree,
) -> Result<Vec<Change>, AllocError> {
    let left = Kinds::of(heap, after)?;
    let mut found = Vec::new(heap);
    compare(&left, before.root(), false, &mut found)?;
    Ok(found)
}

/// Puts the changes of a chain, and of what stands below it, behind those that were found. `in_list` says that the chain
/// is a list of statements or items.
fn compare(
    left: &Kinds,
    chain: Children<'_>,
    in_list: bool,
    found: &mut Vec<Change>,
) -> Result<(), AllocError> {
    for node in chain {
        let rule = rule_of(left, node, in_list);
        if let Some(rule) = rule {
            found.push(change(node, rule))?;
        }
        if !rule.is_some_and(|rule| rule.takes_all()) {
            compare(left, node.below, has_list(node.record.kind), found)?;
        }
    }
    Ok(())
}

/// The rule that changed a record, if one did.
fn rule_of(left: &Kinds, node: Node<'_>, in_list: bool) -> Option<Rule> {
    let kind = node.record.kind;
    if left.kind(node.number) == Some(kind) {
        return None;
    }
    match kind {
        Kind::FnDeclaration => Some(Rule::FnDeclaration),
        Kind::ClassDeclaration => Some(Rule::ClassDeclaration),
        Kind::Declarator if left.reaches(node.below.after()) => Some(Rule::Restated),
        Kind::Declarator => Some(Rule::Declarator),
        Kind::Specifier => Some(Rule::Specifier),
        Kind::Import => Some(Rule::Import),
        Kind::Assignment => Some(Rule::Assignment),
        Kind::Call => Some(Rule::Call),
        Kind::Empty | Kind::Block if in_list => Some(Rule::List),
        _ => None,
    }
}

/// Tells that a rule changed a record.
fn change(node: Node<'_>, rule: Rule) -> Change {
    Change {
        number: node.number,
        kind: node.record.kind,
        id: name_of(node),
        rule,
    }
}

/// The name that a record declares or assigns: its own, or that of its pattern.
fn name_of(node: Node<'_>) -> Id {
    match node.record.kind {
        Kind::Declarator | Kind::Assignment => node.below.first_id(),
        _ => node.record.id(),
    }
}
