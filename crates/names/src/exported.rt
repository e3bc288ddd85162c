ghost use Rattle.std.specs.Prelude.{◌≡◌};
ghost use Rattle.rules.specs.Names.{exported};
ghost use Rattle.rules.specs.Refusals.{Says};
ghost use Rattle.records.specs.Chains.{as_chain};
ghost use Rattle.records.specs.Reads.{head_of};
ghost use Rattle.names.specs.Sinks.{each};
ghost use Rattle.names.specs.NameWalks.{exports, exports_below};

use crate::bound::{binds_name, has_patterns};
use crate::sink::NameSink;
use crate::walk::{Rule, walk};
use records::{Children, Kind, Record};

/// Hands the names that an Export declaration declares on to the sink; the chain is its children.
#[tactic(auto, using(crate::proofs::Lists::lists_exported))]
pub fn exported_names<S: NameSink>(children: Children<'_>, sink: &mut S) -> Result<(), S::Fault>
    ensures names { Says (each S.takes (exported (as_chain children.entry)) (S.held sink.old)) (λ _. S.held sink.new) S.number S.place result }
    ensures stays { S.fixed sink.new ≡ S.fixed sink.old }
{
    walk(children, Exported, sink)
}

/// Gives the names that an Export declaration exports.
#[derive(Clone, Copy)]
struct Exported;

impl Rule for Exported {
    ghost use Rattle.std.specs.Bool.{then_some};

    ghost gives = { λ _. exports };

    ghost inside = { λ rule h. then_some (exports_below h) rule };

    fn gives(self, bearer: Record) -> bool {
        exports_name(bearer)
    }

    fn inside(self, parent: Record) -> Option<Exported> {
        has_exports(parent).then_some(self)
    }
}

/// Whether a record is exported by its name.
fn exports_name(node: Record) -> bool
    ensures { result ≡ exports (head_of 0 node) }
{
    node.kind == Kind::FnDeclaration || node.kind == Kind::ClassDeclaration || binds_name(node)
}

/// Whether exported names stand below a record.
fn has_exports(node: Record) -> bool
    ensures { result ≡ exports_below (head_of 0 node) }
{
    node.kind == Kind::VarDeclaration || node.kind == Kind::Declarator || has_patterns(node)
}
