ghost use Rattle.std.specs.Prelude.{◌≡◌, ℕ, suc, ◌+◌, ◌≤◌, true, false, List, length, IfOk, MatchResult};
ghost use Rattle.rules.specs.Grammar.{may_end};
ghost use Rattle.rules.specs.Refusals.Outcome.{refused};
ghost use Rattle.rules.specs.Words.{records};
ghost use Rattle.rules.specs.Check.{most_nesting};
ghost use Rattle.rules.specs.Walks.{full};
ghost use Rattle.checker.specs.Expecting.{ways};
ghost use Rattle.checker.specs.Faults.{number, place};
ghost use Rattle.checker.specs.Walking.{Marks, unmarked, Taken, Untaken, Walked};

use crate::expected::Expected;
use crate::fault::CheckFault;
use crate::fits::fits;
use records::{MOST_NESTING, RECORD_WORDS, Record};

/// A chain of records on the walk: whose children they are, and how deep they stand.
#[derive(Clone, Copy)]
pub(crate) struct Siblings {
    pub(crate) parent: u32,
    pub(crate) nesting: usize,
}

impl Siblings {
    /// Record `n` is the next of the chain: the record, and what is expected after it.
    fn take(
        self,
        words: &[u32],
        n: u32,
        expected: Expected,
        seen: &[bool],
    ) -> Result<(Record, Expected), CheckFault>
        requires low { 1 ≤ n }
        requires room { records words.now ≤ length seen.now }
        ensures { MatchResult result (λ p. Taken words.now n self.nesting (ways expected) seen.now p.0 (ways p.1)) (λ e. Untaken words.now n self.nesting (ways expected) seen.now e) }
    {
        if n as usize > words.len() / RECORD_WORDS || seen[n as usize - 1] {
            return Err(CheckFault::Link(n));
        }
        if self.nesting > MOST_NESTING {
            return Err(CheckFault::Deep(n));
        }
        let node = Record::at(words, n).ok_or(CheckFault::Misfit(n))?;
        match expected.after(node.kind) {
            Some(next) if fits(node) => Ok((node, next)),
            _ => Err(CheckFault::Misfit(n)),
        }
    }

    /// The chain ends, if nothing more has to come.
    fn stop(self, expected: Expected) -> Result<(), CheckFault>
        ensures { MatchResult result (λ _. may_end (ways expected) ≡ true) (λ e. (may_end (ways expected) ≡ false) × (e ≡ CheckFault.Misfit self.parent)) }
    {
        if expected.may_end() {
            Ok(())
        } else {
            Err(CheckFault::Misfit(self.parent))
        }
    }
}

/// Walks the chain from the link `first` on, with all that is under its records: how many records that is.
pub(crate) fn chain(
    words: &[u32],
    first: u32,
    siblings: Siblings,
    mut expected: Expected,
    seen: &mut [bool],
) -> Result<usize, CheckFault>
    requires deep { siblings.nesting ≤ suc most_nesting }
    requires room { records words.now ≤ length seen.old }
    ensures left { IfOk result (λ k. k + unmarked seen.new ≡ unmarked seen.old) }
    ensures is { (before : List ℕ) → Marks seen.old before → MatchResult result (λ k. Walked words.now first siblings.nesting (ways expected) siblings.parent before seen.new k) (λ e. full words.now first siblings.nesting (ways expected) siblings.parent before ≡ refused (number e) (place e)) }
{
    let mut count = 0;
    let mut at = first;
    // The links are not yet known to end, so `Children` can't walk them: each turn sets a mark instead.
    while at != 0 {
        let (node, next) = siblings.take(words, at, expected, seen)?;
        seen[at as usize - 1] = true;
        let children = Siblings {
            parent: at,
            nesting: siblings.nesting + 1,
        };
        count += 1 + chain(words, node.first, children, Expected::under(node), seen)?;
        at = node.next;
        expected = next;
    }
    siblings.stop(expected)?;
    Ok(count)
}
