ghost use Rattle.std.specs.Prelude.{◌≡◌, not};
ghost use Rattle.rules.specs.Tree.{Chain, is_end};
ghost use Rattle.rules.specs.Removal.{first_acts, keeps_class, class_goes, declarator_goes, assignment_yields, verdict};
ghost use Rattle.records.specs.Chains.{as_chain, head_of_node};
ghost use Rattle.shaker.specs.Places.{place_of};
ghost use Rattle.shaker.specs.Verdicts.{verdict_of};
ghost use Rattle.verdicts.specs.Shaking.{by_shaker, keeps_by};

use crate::basis::Basis;
use crate::goes::var_emptied;
use crate::wraps::call_unwraps;
use judge::Judge;
use records::{Children, Kind, Node};
use shaker::perform::Verdict;
use shaker::place::{Place, VarDeclKind};

/// What a removal goes by: the judge, and the settings, lists and tables.
#[derive(Drop)]
pub struct TreeShaker<'t, J> {
    pub judge: &'t J,
    pub basis: Basis<'t>,
}

impl<'t, J: Judge> TreeShaker<'t, J> {
    /// Whether the first record of the chain acts; where there is none, nothing does.
    pub fn first_acts(&self, chain: Children<'_>) -> bool
        ensures { result ≡ first_acts (by_shaker J.Judge.acts self.now) (as_chain chain.entry) }
    {
        !chain.is_end() && self.judge.may_act(chain)
    }

    /// Whether a member keeps its class: a superclass or Property value that acts, a Static block, a computed key.
    fn keeps_by(&self, member: Node<'_>) -> bool
        ensures { result ≡ keeps_by (by_shaker J.Judge.acts self.now) (head_of_node member.entry) (as_chain member.entry.below) (as_chain member.entry.chain) }
    {
        let kind = member.record.kind;
        (kind.is_expression() && self.first_acts(member.chain))
            || kind == Kind::StaticBlock
            || ((kind == Kind::Method || kind == Kind::Property) && member.record.is_flagged())
            || (kind == Kind::Property && self.first_acts(member.below))
    }

    /// Whether a member of the class keeps it.
    pub fn keeps_class(&self, mut members: Children<'_>) -> bool
        ensures { result ≡ keeps_class (by_shaker J.Judge.acts self.now) (as_chain members.entry) }
    {
        members.any(|member| self.keeps_by(member))
    }

    /// Whether a Class declaration goes; an exported one never does.
    fn class_goes(&self, place: Place, node: Node<'_>) -> bool
        ensures { result ≡ class_goes (by_shaker J.Judge.acts self.now) (place_of place) (head_of_node node.entry) (as_chain node.entry.below) }
    {
        node.record.kind == Kind::ClassDeclaration
            && !place.in_export
            && self.basis.can_drop_binding(place, false, node.record.id())
            && !self.keeps_class(node.below.below())
    }

    /// Whether a Declarator goes: its name can, and its value does not act.
    fn declarator_goes(&self, place: Place, node: Node<'_>) -> bool
        ensures { result ≡ declarator_goes (by_shaker J.Judge.acts self.now) (place_of place) (head_of_node node.entry) (as_chain node.entry.below) }
    {
        let is_var = place.var_decl_kind == Some(VarDeclKind::Var);
        node.record.kind == Kind::Declarator
            && !place.in_export
            && self.basis.name_goes(place, is_var, node.below)
            && !self.first_acts(node.below.after())
    }

    /// Whether an Assignment gives way to its value: that does not act, and nobody reads the name.
    fn assignment_yields(&self, place: Place, node: Node<'_>) -> bool
        ensures { result ≡ assignment_yields (by_shaker J.Judge.acts self.now) (place_of place) (head_of_node node.entry) (as_chain node.entry.below) }
    {
        node.record.kind == Kind::Assignment
            && node.below.first_is(Kind::NamePattern)
            && !self.first_acts(node.below.after())
            && self
                .basis
                .can_drop_assignment_to(place, node.below.first_id())
    }

    /// What the rules do with a record, whose children are treated; `had` tells whether it was found with children.
    fn verdict_on(&self, place: Place, had: bool, node: Node<'_>) -> Verdict
        ensures { (found : Chain) → had ≡ not (is_end found) → result ≡ verdict_of (verdict (by_shaker J.Judge.acts self.now) (place_of place) (head_of_node node.entry) found (as_chain node.entry.below)) }
    {
        if self.basis.fn_goes(place, node.record) || self.class_goes(place, node) {
            Verdict::Empties
        } else if self.declarator_goes(place, node)
            || self.basis.specifier_goes(place, node.record)
        {
            Verdict::Unlinks
        } else if self.basis.import_emptied(had, node) || var_emptied(node) {
            Verdict::Empties
        } else if self.basis.var_restates(place, node) {
            Verdict::Restates
        } else if self.assignment_yields(place, node) {
            Verdict::Yields
        } else if call_unwraps(node) {
            Verdict::Unwraps
        } else {
            Verdict::Stays
        }
    }
}

impl<'t, J: Judge> shaker::Basis for TreeShaker<'t, J> {
    ghost by = { λ s. by_shaker J.Judge.acts s };

    fn verdict(&self, place: Place, had: bool, chain: Children<'_>) -> Verdict {
        match chain.first() {
            Some(node) => self.verdict_on(place, had, node),
            None => Verdict::Stays,
        }
    }
}
