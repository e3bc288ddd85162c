ghost use Rattle.std.specs.Prelude.{◌≡◌};
ghost use Rattle.rules.specs.Names.{binds, nests, bound};
ghost use Rattle.rules.specs.Refusals.{Says};
ghost use Rattle.records.specs.Chains.{as_chain};
ghost use Rattle.records.specs.Reads.{head_of};
ghost use Rattle.names.specs.Sinks.{each};

use crate::sink::NameSink;
use crate::walk::{Rule, walk};
use records::{Children, Kind, Record};

/// Hands the bound names of the patterns in a chain on to the sink, to any depth and outside expressions.
#[tactic(auto, using(crate::proofs::Lists::lists_bound))]
pub fn bound_names<S: NameSink>(patterns: Children<'_>, sink: &mut S) -> Result<(), S::Fault>
    ensures names { Says (each S.takes (bound (as_chain patterns.entry)) (S.held sink.old)) (λ _. S.held sink.new) S.number S.place result }
    ensures stays { S.fixed sink.new ≡ S.fixed sink.old }
{
    walk(patterns, Bound, sink)
}

/// Gives the names that patterns bind.
#[derive(Clone, Copy)]
struct Bound;

impl Rule for Bound {
    ghost use Rattle.std.specs.Bool.{then_some};

    ghost gives = { λ _. binds };

    ghost inside = { λ rule h. then_some (nests h) rule };

    fn gives(self, bearer: Record) -> bool {
        binds_name(bearer)
    }

    fn inside(self, parent: Record) -> Option<Bound> {
        has_patterns(parent).then_some(self)
    }
}

/// Whether a record binds its name.
pub(crate) fn binds_name(node: Record) -> bool
    ensures { result ≡ binds (head_of 0 node) }
{
    node.kind == Kind::NamePattern || node.kind == Kind::PropertyName
}

/// Whether a record is a pattern made of patterns.
pub(crate) fn has_patterns(node: Record) -> bool
    ensures { result ≡ nests (head_of 0 node) }
{
    node.kind == Kind::CompoundPattern || node.kind == Kind::DefaultPattern
}
