ghost use Rattle.std.specs.Prelude.{◌≡◌};
ghost use Rattle.rules.specs.Names.{binding, under_nothing, declares, declared, declared_below};
ghost use Rattle.rules.specs.Refusals.{Says};
ghost use Rattle.records.specs.Chains.{as_chain, head_of_node};
ghost use Rattle.records.specs.Reads.{head_of};
ghost use Rattle.names.specs.Sinks.{each};

use crate::bound::{binds_name, has_patterns};
use crate::sink::NameSink;
use crate::walk::{Rule, walk};
use records::{Children, Kind, Node, Record};
use std::marker::Model;

/// Hands the names declared in a chain and below it on to the sink, in walk order.
#[tactic(auto, using(crate::proofs::Lists::lists_declaring))]
pub fn declared_names<S: NameSink>(chain: Children<'_>, sink: &mut S) -> Result<(), S::Fault>
    ensures names { Says (each S.takes (declared (as_chain chain.entry)) (S.held sink.old)) (λ _. S.held sink.new) S.number S.place result }
    ensures stays { S.fixed sink.new ≡ S.fixed sink.old }
{
    walk(chain, Surrounding::none(), sink)
}

/// Hands the names declared below a record on to the sink, in walk order.
#[tactic(auto, using(crate::proofs::Lists::lists_declaring))]
pub fn declared_below<S: NameSink>(node: Node<'_>, sink: &mut S) -> Result<(), S::Fault>
    ensures names { Says (each S.takes (declared_below (head_of_node node.entry) (as_chain node.entry.below)) (S.held sink.old)) (λ _. S.held sink.new) S.number S.place result }
    ensures stays { S.fixed sink.new ≡ S.fixed sink.old }
{
    walk(
        node.below,
        Surrounding::none().of_children(node.record),
        sink,
    )
}

/// What surrounds a chain, as far as declaring goes: its patterns bind, or it is the child of an Export default.
/// It gives the names that are declared.
// Two flags, as the definition has them: for an enum it would have to be shown that no record sets both.
#[derive(Clone, Copy)]
struct Surrounding {
    binding: bool,
    default: bool,
}

impl Model for Surrounding {
    ghost use Rattle.rules.specs.Names.{Under};

    ghost Value = { Under };

    ghost view = { λ s. record { binding = s.binding; default = s.default } };

    ghost inverse = { λ u. record { binding = u.binding; default = u.default } };
}

impl Rule for Surrounding {
    ghost use Rattle.std.specs.Prelude.{Some};
    ghost use Rattle.rules.specs.Names.{under, declares};

    ghost gives = { declares };

    ghost inside = { λ u h. Some (under u h) };

    fn gives(self, bearer: Record) -> bool {
        declares_anywhere(bearer)
            || (self.binding && binds_name(bearer))
            || (self.default && bearer.kind.is_definition_expression() && bearer.symbol != 0)
    }

    fn inside(self, parent: Record) -> Option<Surrounding> {
        Some(self.of_children(parent))
    }
}

impl Surrounding {
    ghost use Rattle.rules.specs.Names.{under};

    /// Nothing that declares.
    fn none() -> Surrounding
        ensures { result ≡ under_nothing }
    {
        Surrounding {
            binding: false,
            default: false,
        }
    }

    /// What surrounds the children of a record.
    fn of_children(self, parent: Record) -> Surrounding
        ensures { result ≡ under self (head_of 0 parent) }
    {
        Surrounding {
            binding: binds_patterns(parent) || (self.binding && has_patterns(parent)),
            default: parent.kind == Kind::ExportDefault,
        }
    }
}

/// Whether the patterns of a record bind.
fn binds_patterns(node: Record) -> bool
    ensures { result ≡ binding (head_of 0 node) }
{
    matches!(
        node.kind,
        Kind::Declarator | Kind::Catch | Kind::Function | Kind::Constructor | Kind::Arrow
    )
}

/// Whether a record declares its name wherever it stands.
fn declares_anywhere(node: Record) -> bool
    ensures { result ≡ declares under_nothing (head_of 0 node) }
{
    matches!(
        node.kind,
        Kind::Specifier | Kind::FnDeclaration | Kind::ClassDeclaration
    )
}
