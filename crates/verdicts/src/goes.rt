ghost use Rattle.std.specs.Prelude.{◌≡◌, Bool, not};
ghost use Rattle.rules.specs.Tree.{Chain, is_end};
ghost use Rattle.rules.specs.Removal.{name_goes, all_go, fn_goes, specifier_goes, import_emptied, var_emptied, var_restates};
ghost use Rattle.records.specs.Chains.{as_chain, head_of_node};
ghost use Rattle.records.specs.Reads.{head_of};
ghost use Rattle.shaker.specs.Places.{place_of};
ghost use Rattle.verdicts.specs.Grounds.{by_of, silent};

use crate::basis::Basis;
use records::{Children, Kind, Node, Record};
use shaker::place::Place;

/// Whether a Var lost its Declarators.
pub(crate) fn var_emptied(node: Node<'_>) -> bool
    ensures { result ≡ var_emptied (head_of_node node.entry) (as_chain node.entry.below) }
{
    node.record.kind == Kind::VarDeclaration && node.below.is_end()
}

impl<'t> Basis<'t> {
    /// Whether the pattern of a Declarator with these parts is a name that can go.
    pub fn name_goes(&self, place: Place, is_var: bool, parts: Children<'_>) -> bool
        ensures { result ≡ name_goes (by_of silent self.now) (place_of place) is_var (as_chain parts.entry) }
    {
        parts.first_is(Kind::NamePattern) && self.can_drop_binding(place, is_var, parts.first_id())
    }

    /// Whether the patterns of all Declarators are such.
    pub fn all_go(&self, place: Place, is_var: bool, mut declarators: Children<'_>) -> bool
        ensures { (acts : Chain → Bool) → result ≡ all_go (by_of acts self.now) (place_of place) is_var (as_chain declarators.entry) }
    {
        declarators.all(|declarator| self.name_goes(place, is_var, declarator.below))
    }

    /// Whether a Fn declaration goes; an exported one never does.
    pub fn fn_goes(&self, place: Place, node: Record) -> bool
        ensures { result ≡ fn_goes (by_of silent self.now) (place_of place) (head_of 0 node) }
    {
        node.kind == Kind::FnDeclaration
            && !place.in_export
            && self.can_drop_binding(place, true, node.id())
    }

    /// Whether a Specifier goes.
    pub fn specifier_goes(&self, place: Place, node: Record) -> bool
        ensures { result ≡ specifier_goes (by_of silent self.now) (place_of place) (head_of 0 node) }
    {
        node.kind == Kind::Specifier && self.can_drop_binding(place, false, node.id())
    }

    // `had` is one bit: what was found is gone when the verdict falls, and whether there was any is all that is left of it.
    /// Whether an Import, which had children if `had`, lost them all, and the settings do not preserve it.
    pub fn import_emptied(&self, had: bool, node: Node<'_>) -> bool
        ensures { (found : Chain) → had ≡ not (is_end found) → result ≡ import_emptied (by_of silent self.now) (head_of_node node.entry) found (as_chain node.entry.below) }
    {
        node.record.kind == Kind::Import
            && !self.config.preserve_imports_with_side_effects
            && had
            && node.below.is_end()
    }

    // Inlined, so that a record of another kind is not put together for a call.
    /// Whether the names of all Declarators that remain in a Var can go.
    #[inline(always)]
    pub fn var_restates(&self, place: Place, node: Node<'_>) -> bool
        ensures { (acts : Chain → Bool) → result ≡ var_restates (by_of acts self.now) (place_of place) (head_of_node node.entry) (as_chain node.entry.below) }
    {
        node.record.kind == Kind::VarDeclaration
            && !place.in_export
            && !node.below.is_end()
            && self.all_go(place, node.record.is_flagged(), node.below)
    }
}
