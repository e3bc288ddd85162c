ghost use Rattle.std.specs.Prelude.{◌≡◌};
ghost use Rattle.rules.specs.Counting.{calls_eval};
ghost use Rattle.records.specs.Chains.{as_chain};
ghost use Rattle.records.specs.Reads.{head_of};
ghost use Rattle.analyzer.specs.Scopes.{no_notes, with_arguments, outward};

use records::{Children, Kind, Record};

/// The symbol of `arguments`.
const ARGUMENTS: u32 = 1;

/// The symbol of `eval`.
const EVAL: u32 = 2;

/// What the innermost scope has noted: a reference to `arguments`, a direct call of `eval`.
#[derive(Clone, Copy)]
pub(crate) struct Notes {
    pub(crate) found_arguments: bool,
    pub(crate) found_direct_eval: bool,
}

impl Notes {
    /// Nothing is noted yet.
    pub(crate) fn none() -> Notes
        ensures { result ≡ no_notes }
    {
        Notes {
            found_arguments: false,
            found_direct_eval: false,
        }
    }

    /// The notes after a reference to the name that a record bears.
    pub(crate) fn with_reference(self, node: Record) -> Notes
        ensures { result ≡ with_arguments (head_of 0 node) self }
    {
        Notes {
            found_arguments: self.found_arguments || node.symbol == ARGUMENTS,
            ..self
        }
    }

    /// What the outer scope, with these notes, has noted once the scope that a record opens is left with others.
    pub(crate) fn after_scope(self, node: Record, inner: Notes) -> Notes
        ensures { result ≡ outward (head_of 0 node) self inner }
    {
        Notes {
            found_arguments: self.found_arguments
                || (inner.found_arguments && node.kind == Kind::Arrow),
            found_direct_eval: self.found_direct_eval || inner.found_direct_eval,
        }
    }
}

/// Whether the callee, which is the first of a Call's children, is an Identifier `eval`.
pub(crate) fn calls_eval(children: Children<'_>) -> bool
    ensures { result ≡ calls_eval (as_chain children.entry) }
{
    children.first().is_some_and(|callee| callee.record.kind == Kind::Identifier
        && callee.record.symbol == EVAL)
}
