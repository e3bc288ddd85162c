ghost use Rattle.std.specs.Prelude.{◌≡◌, ◌==◌, false, MatchOption};
ghost use Rattle.rules.specs.Kinds.{within};
ghost use Rattle.rules.specs.Words.{records, stands, tree_of, Whole};
ghost use Rattle.rules.specs.Tree.Chain.{end};
ghost use Rattle.records.specs.Cursor.{Opened};
ghost use Rattle.records.specs.Reads.{Part, Reads, Starts};

use crate::RECORD_WORDS;
use crate::id::Id;
use crate::kind::Kind;

/// The six words of a record: what it is, its name, and the links to its first child and to the next of its chain.
#[derive(Clone, Copy)]
pub struct Record {
    pub kind: Kind,
    pub flags: u32,
    pub symbol: u32,
    pub mark: u32,
    pub first: u32,
    pub next: u32,
}

impl Record {
    /// Record `n` of the words, counted from 1, if it is there and of some kind. Where the chain from the link `n` on ends, it opens into the record and the chains of its own links.
    pub fn at(words: &[u32], n: u32) -> Option<Record>
        ensures reads { MatchOption result (stands words.now n ≡ false) (Reads words.now n) }
        ensures opened { Whole words.now n → MatchOption result (tree_of words.now n ≡ end) (Opened words.now n) }
    {
        Record::read(words, n)
    }

    /// Record `n` of the words, out of its six words.
    fn read(words: &[u32], n: u32) -> Option<Record>
        ensures { MatchOption result (stands words.now n ≡ false) (Reads words.now n) }
    {
        let [kind, flags, symbol, mark, first, next] = *part_of(words, n)?;
        let kind = Kind::try_from(kind).ok()?;
        Some(Record {
            kind,
            flags,
            symbol,
            mark,
            first,
            next,
        })
    }

    // The field stays a word, since words that no check has seen may hold any.
    /// Whether flag 1 is set.
    pub fn is_flagged(self) -> bool
        ensures { result ≡ (self.flags == 1) }
    {
        self.flags == 1
    }

    /// The name that the record bears.
    pub fn id(self) -> Id
        ensures { result ≡ record { symbol = self.symbol; mark = self.mark } }
    {
        Id {
            symbol: self.symbol,
            mark: self.mark,
        }
    }
}

/// The six words of record `n`, if they are there.
fn part_of(words: &[u32], n: u32) -> Option<&[u32; RECORD_WORDS]>
    ensures { MatchOption result (within 1 (records words.now) n ≡ false) (λ part. Part words.now n part.now) }
{
    let (rows, _) = words.as_chunks();
    rows.get((n as usize).checked_sub(1)?)
}

/// Where record `n` begins, if its six words are there.
pub(crate) fn start_of(words: &[u32], n: u32) -> Option<usize>
    ensures { MatchOption result (within 1 (records words.now) n ≡ false) (Starts words.now n) }
{
    let end = n as usize * RECORD_WORDS;
    if n == 0 || end > words.len() {
        return None;
    }
    Some(end - RECORD_WORDS)
}
