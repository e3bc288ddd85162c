ghost use Rattle.std.specs.Prelude.{◌≤◌};
ghost use Rattle.rules.specs.Words.{tree_of, Whole};
ghost use Rattle.rules.specs.Opening.{depth};
ghost use Rattle.records.specs.Ending.{whole_prop};

use crate::id::Id;
use crate::kind::Kind;
use crate::links::Links;
use crate::record::Record;

/// The records of a chain in their order, read from the words as it comes to them. The chain begins at record `at`,
/// or is empty where that is 0; it ends, and nests no deeper than `left`.
#[derive(Clone, Copy)]
pub struct Children<'w> {
    words: &'w [u32],
    at: u32,
    left: usize,
    ghost whole: { Whole words.now at } by { whole_prop words.now at },
    ghost deep: { depth (tree_of words.now at) ≤ left },
}

/// A record of a chain: its number, the chain from it on, and the chain of its children.
#[derive(Clone, Copy)]
pub struct Node<'w> {
    pub number: u32,
    pub record: Record,
    pub chain: Children<'w>,
    pub below: Children<'w>,
}

impl<'w> Children<'w> {
    ghost use Rattle.std.specs.Prelude.{◌≡◌, ◌≤◌, IfSome, MatchOption};
    ghost use Rattle.rules.specs.Tree as book;
    ghost use Rattle.rules.specs.Tree.Chain.{end, link};
    ghost use Rattle.records.specs.Chains.{as_chain, head_of_node};
    ghost use Rattle.records.specs.Ids.{name_of_id};
    ghost use Rattle.records.specs.KindWords.{kind_word};
    ghost use Rattle.records.specs.Reads.{Reads};

    /// The records that the link `at` leads to. Where the chain ends, `Links::chain` makes a value of it.
    pub fn of(words: &'w [u32], at: u32) -> Links<'w>
        ensures words { result.words.now ≡ words.now }
        ensures at { result.at ≡ at }
    {
        Links { words, at }
    }

    /// The chain without records.
    pub fn empty() -> Children<'w>
        ensures { as_chain result ≡ end }
    {
        Children::within(&[], 0, 0)
    }

    /// The chain that the link `at` leads to, which nests no deeper than `left`.
    pub fn within(words: &'w [u32], at: u32, left: usize) -> Children<'w>
        requires whole { Whole words.now at }
        requires deep { depth (tree_of words.now at) ≤ left }
        ensures words { result.words.now ≡ words.now }
        ensures at { result.at ≡ at }
        ensures left { result.left ≡ left }
    {
        Children { words, at, left }
    }

    /// Its first record.
    pub fn first(mut self) -> Option<Node<'w>>
        ensures chain { MatchOption result (as_chain self.entry ≡ end) (λ n. as_chain self.entry ≡ link (head_of_node n) (as_chain n.below) (book.after (as_chain self.entry))) }
        ensures within { IfSome result (λ n. (n.below.words.now ≡ self.entry.words.now) × (n.below.left ≤ self.entry.left)) }
        ensures node { IfSome result (λ n. Reads self.entry.words.now n.number n.record × (n.chain ≡ self.entry)) }
    {
        self.next()
    }

    /// The children of its first record; none where there is no record.
    pub fn below(self) -> Children<'w>
        ensures chain { as_chain result ≡ book.below (as_chain self.entry) }
        ensures words { result.words.now ≡ self.entry.words.now }
        ensures left { result.left ≤ self.entry.left }
    {
        self.first().map_or(self, |node| node.below)
    }

    /// What follows its first record.
    pub fn after(self) -> Children<'w>
        ensures chain { as_chain result ≡ book.after (as_chain self.entry) }
        ensures words { result.words.now ≡ self.entry.words.now }
        ensures left { result.left ≡ self.entry.left }
    {
        let mut rest = self;
        let _ = rest.next();
        rest
    }

    /// Whether it has no record.
    pub fn is_end(self) -> bool
        ensures { result ≡ book.is_end (as_chain self.entry) }
    {
        self.first().is_none()
    }

    /// Whether its first record is of this kind.
    pub fn first_is(self, kind: Kind) -> bool
        ensures { result ≡ book.first_is (kind_word kind) (as_chain self.entry) }
    {
        self.first().is_some_and(|node| node.record.kind == kind)
    }

    /// Whether its first record has flag 1.
    pub fn first_flagged(self) -> bool
        ensures { result ≡ book.first_flagged (as_chain self.entry) }
    {
        self.first().is_some_and(|node| node.record.is_flagged())
    }

    // No option: who asks for the name has asked for the kind before, and the rules' own definition gives zeros too.
    /// The name of its first record; zeros where there is none.
    pub fn first_id(self) -> Id
        ensures { name_of_id result ≡ book.first_name (as_chain self.entry) }
    {
        self.first()
            .map(|node| node.record.id())
            .unwrap_or_default()
    }
}

impl<'w> Iterator for Children<'w> {
    ghost use Rattle.std.specs.Prelude.{⊤};
    ghost use Rattle.std.specs.Iterator.{at_most};
    ghost use Rattle.rules.specs.Opening.{siblings};
    ghost use Rattle.records.specs.Chains.{as_chain, GivesNode};

    type Item = Node<'w>;

    ghost can_next = { λ _. ⊤ };

    ghost next_gives = { GivesNode };

    ghost remaining = { λ s. at_most (siblings (as_chain s)) };

    fn next(&mut self) -> Option<Node<'w>> {
        let chain = *self;
        let record = Record::at(self.words, self.at)?;
        self.at = record.next;
        Some(Node {
            number: chain.at,
            record,
            chain,
            below: Children {
                words: self.words,
                at: record.first,
                left: self.left - 1,
            },
        })
    }
}
