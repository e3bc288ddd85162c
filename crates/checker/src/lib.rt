#![tactic(auto)]

ghost use Rattle.std.specs.Prelude.{◌≡◌, ◌≤◌, length, MatchResult, ◌==◌};
ghost use Rattle.rules.specs.Refusals.Outcome.{refused};
ghost use Rattle.rules.specs.Words.{next};
ghost use Rattle.rules.specs.Check.{check as checked, tree_fits};
ghost use Rattle.checker.specs.Faults.{number, place};
ghost use Rattle.checker.specs.Accepting.{Accepted};

mod expected;
pub mod fault;
mod fits;
mod walk;

use expected::Expected;
pub use fault::CheckFault;
pub use records::ROOT;
use records::{NEXT, RECORD_WORDS};
use walk::Siblings;

/// The most records of a tree.
pub const MOST_RECORDS: usize = 16_384;

/// The most words of a tree.
pub const MOST_WORDS: usize = MOST_RECORDS * RECORD_WORDS;

/// Checks that the words are a tree, and says how many records its root reaches.
pub fn check(words: &[u32]) -> Result<u32, CheckFault>
    ensures { MatchResult result (λ k. Accepted words.now k) (λ e. checked words.now ≡ refused (number e) (place e)) }
{
    if !lengths_fit(words.len()) {
        return Err(CheckFault::Lengths);
    }
    if !root_is_alone(words) {
        return Err(CheckFault::Misfit(ROOT));
    }
    // Work memory is fixed: a mark for each record that a tree may have.
    let mut seen = [false; MOST_RECORDS];
    let count = walk::chain(
        words,
        ROOT,
        Siblings {
            parent: 0,
            nesting: 1,
        },
        Expected::Root,
        &mut seen,
    )?;
    Ok(count as u32)
}

/// Whether a tree may have so many words.
pub fn lengths_fit(length: usize) -> bool
    ensures { result ≡ tree_fits length }
{
    length != 0 && length <= MOST_WORDS && length % RECORD_WORDS == 0
}

/// Whether no record follows the root.
fn root_is_alone(words: &[u32]) -> bool
    requires { 6 ≤ length words.now }
    ensures { result ≡ (next words.now 1 == 0) }
{
    words[NEXT] == 0
}
