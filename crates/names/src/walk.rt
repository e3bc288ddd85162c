ghost use Rattle.std.specs.Prelude.{◌≡◌, ℕ, Bool, Option};
ghost use Rattle.rules.specs.Tree.{Head};
ghost use Rattle.rules.specs.Refusals.{Says};
ghost use Rattle.records.specs.Chains.{as_chain};
ghost use Rattle.records.specs.Reads.{head_of};
ghost use Rattle.names.specs.Sinks.{each};
ghost use Rattle.names.specs.NameWalks.{listed};

use crate::sink::NameSink;
use records::{Children, Record};

/// Which names of a chain a walk gives, and where it goes on below.
pub(crate) trait Rule: Copy {
    ghost gives: { Self → Head → Bool };

    ghost inside: { Self → Head → Option Self };

    /// Whether the name that a record bears is given.
    fn gives(self, bearer: Record) -> bool
        ensures { (n : ℕ) → result ≡ gives self (head_of n bearer) };

    /// The rule for a record's children, where the walk goes there.
    fn inside(self, parent: Record) -> Option<Self>
        ensures { (n : ℕ) → result ≡ inside self (head_of n parent) };
}

// Here and at the walks by one rule, what a sink takes and what it keeps are two clauses: a word for both would take nine parameters.
/// Hands the names that a rule gives in a chain and below it on to the sink, in walk order.
#[tactic(auto, using(crate::proofs::Joining::each_joins))]
pub(crate) fn walk<R: Rule, S: NameSink>(
    chain: Children<'_>,
    rule: R,
    sink: &mut S,
) -> Result<(), S::Fault>
    ensures names { Says (each S.takes (listed R.gives R.inside rule (as_chain chain.entry)) (S.held sink.old)) (λ _. S.held sink.new) S.number S.place result }
    ensures stays { S.fixed sink.new ≡ S.fixed sink.old }
{
    for node in chain {
        if rule.gives(node.record) {
            sink.take(node)?;
        }
        if let Some(inside) = rule.inside(node.record) {
            walk(node.below, inside, sink)?;
        }
    }
    Ok(())
}
