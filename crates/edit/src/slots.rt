ghost use Rattle.std.specs.Prelude.{◌≡◌, ◌+◌, ◌-◌, ◌*◌, ◌<◌};
ghost use Rattle.rules.specs.Tree.{Chain, below, after};
ghost use Rattle.rules.specs.Words.{Holds};
ghost use Rattle.edit.specs.Slots.{first_slot, next_slot, nothing};

use records::{FIRST, Kind, NEXT, RECORD_WORDS, Record};

// First and next are two functions, here and below: one for both would take the field from its caller, and say no more.
/// The word of record `n` that links to its first child.
pub fn first_slot(n: u32) -> usize
    requires { 0 < n }
    ensures { result ≡ first_slot n }
{
    RECORD_WORDS * (n as usize - 1) + FIRST
}

/// The word of record `n` that links to the next of its chain.
pub fn next_slot(n: u32) -> usize
    requires { 0 < n }
    ensures { result ≡ next_slot n }
{
    RECORD_WORDS * (n as usize - 1) + NEXT
}

/// The link from the record that `n` leads to, to its first child; 0 where there is none.
pub fn first_of(words: &[u32], n: u32) -> u32
    ensures { (c : Chain) → Holds words.now n c → Holds words.now result (below c) }
{
    Record::at(words, n).map_or(0, |node| node.first)
}

/// The link from the record that `n` leads to, to the next of its chain; 0 where there is none.
pub fn next_of(words: &[u32], n: u32) -> u32
    ensures { (c : Chain) → Holds words.now n c → Holds words.now result (after c) }
{
    Record::at(words, n).map_or(0, |node| node.next)
}

/// Whether a list drops the record that `n` leads to: an Empty, or a Block without children.
pub fn is_nothing(words: &[u32], n: u32) -> bool
    ensures { (c : Chain) → Holds words.now n c → result ≡ nothing c }
{
    Record::at(words, n).is_some_and(|node| {
        node.kind == Kind::Empty || (node.kind == Kind::Block && node.first == 0)
    })
}
