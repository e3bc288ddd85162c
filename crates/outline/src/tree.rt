// A tree that the check accepted.
ghost use Rattle.std.specs.Prelude.{◌≡◌, ◌+◌, ◌≤◌, true, MatchResult};
ghost use Rattle.rules.specs.Check.{check as checked, most_nesting};
ghost use Rattle.rules.specs.Opening.{depth};
ghost use Rattle.rules.specs.Refusals.Outcome.{refused};
ghost use Rattle.rules.specs.Tree.{reached};
ghost use Rattle.rules.specs.Words.{records, tree_of, Whole};
ghost use Rattle.records.specs.Chains.{as_chain};
ghost use Rattle.checker.specs.Faults.{number, place};
ghost use Rattle.outline.specs.Accepts.{accepts};

use checker::{CheckFault, check};
use records::{Children, MOST_NESTING, RECORD_WORDS, ROOT};

/// Words that the check accepted, and how many records their root reaches.
#[derive(Drop)]
pub struct CheckedTree {
    words: Vec<u32>,
    count: u32,
    ghost accepted: { accepts words.items ≡ true },
    ghost counted: { count ≡ reached (tree_of words.items 1) },
}

impl CheckedTree {
    /// The words as a tree, if the check accepts them.
    pub fn new(words: Vec<u32>) -> Result<CheckedTree, CheckFault>
        ensures { MatchResult result (λ t. t.words ≡ words) (λ e. checked words.items ≡ refused (number e) (place e)) }
    {
        let count = check(words.as_slice())?;
        Ok(CheckedTree { words, count })
    }

    /// The words that were checked: record 1 leads to a chain that ends, nested at most 128 deep.
    #[tactic(auto, using(crate::proofs::Accepted::accepted_whole, crate::proofs::Accepted::accepted_deep))]
    pub fn words(&self) -> &[u32]
        ensures value { result.now ≡ self.now.words.items }
        ensures whole { Whole result.now 1 }
        ensures deep { depth (tree_of result.now 1) ≤ most_nesting }
    {
        self.words.as_slice()
    }

    /// The whole tree: the chain of its root.
    pub fn root(&self) -> Children<'_>
        ensures chain { as_chain result ≡ tree_of self.now.words.items 1 }
        ensures left { result.left ≡ most_nesting }
    {
        Children::within(self.words(), ROOT, MOST_NESTING)
    }

    /// How many records the root reaches.
    pub fn reached(&self) -> u32
        ensures { result ≡ reached (tree_of self.now.words.items 1) }
    {
        self.count
    }

    /// How many records lie unreached.
    pub fn unreached(&self) -> usize
        ensures { result + reached (tree_of self.now.words.items 1) ≡ records self.now.words.items }
    {
        self.records() - self.count as usize
    }

    // How many records the words have room for, the reached ones among them.
    #[tactic(auto, using(crate::proofs::Accepted::accepted_most))]
    fn records(&self) -> usize
        ensures value { result ≡ records self.now.words.items }
        ensures bound { self.now.count ≤ result }
    {
        self.words.len() / RECORD_WORDS
    }
}
