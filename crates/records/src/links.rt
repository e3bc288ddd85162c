ghost use Rattle.std.specs.Prelude.{◌≡◌, ◌/◌, length, MatchOption};
ghost use Rattle.std.specs.Iterator.{at_most};
ghost use Rattle.rules.specs.Tree.Chain.{end};
ghost use Rattle.rules.specs.Words.{tree_of, Whole};
ghost use Rattle.rules.specs.Opening.{siblings};
ghost use Rattle.records.specs.Cursor.{Opened};

use crate::RECORD_WORDS;
use crate::children::Children;
use crate::record::Record;

/// The records of a chain in their order, each with its number, read from the words as it comes to them. That the chain
/// ends is asked where a record is asked for, and where `chain` makes a value of it.
#[derive(Clone, Copy)]
pub struct Links<'w> {
    pub(crate) words: &'w [u32],
    pub(crate) at: u32,
}

impl<'w> Links<'w> {
    /// The chain as a value: it nests no deeper than there are records.
    pub fn chain(self) -> Children<'w>
        requires { Whole self.words.now self.at }
        ensures words { result.words.now ≡ self.entry.words.now }
        ensures at { result.at ≡ self.entry.at }
        ensures left { result.left ≡ length self.entry.words.now / 6 }
    {
        Children::within(self.words, self.at, self.words.len() / RECORD_WORDS)
    }
}

impl<'w> Iterator for Links<'w> {
    type Item = (u32, Record);

    ghost can_next = { λ s. Whole s.words.now s.at };

    ghost next_gives = { λ s r t. (t.words.now ≡ s.words.now) × MatchOption r ((tree_of s.words.now s.at ≡ end) × (t.at ≡ s.at)) (λ p. (p.0 ≡ s.at) × (t.at ≡ p.1.next) × Opened s.words.now p.0 p.1) };

    ghost remaining = { λ s. at_most (siblings (tree_of s.words.now s.at)) };

    fn next(&mut self) -> Option<(u32, Record)> {
        let n = self.at;
        let record = Record::at(self.words, n)?;
        self.at = record.next;
        Some((n, record))
    }
}
