ghost use Rattle.std.specs.Prelude.{◌≡◌};
ghost use Rattle.rules.specs.Tree.{Head, Chain, below};
ghost use Rattle.rules.specs.Tree.Chain.{link};
ghost use Rattle.rules.specs.Removal.{wrapped_object};
ghost use Rattle.rules.specs.Words.{Holds};
ghost use Rattle.edit.specs.Slots.{Linked, LinksRecord, Step};
ghost use Rattle.shaker.specs.Verdicts.{left_of, removes};

use edit::slots::{first_of, next_of, next_slot};
use edit::{empty, lift, restate};

/// What a rule does with a record. That a list is swept is no verdict: no rule takes a record with a list.
#[derive(Clone, Copy, PartialEq, Eq, Debug)]
pub enum Verdict {
    Stays,
    Empties,
    Unlinks,
    Restates,
    Yields,
    Unwraps,
}

impl Verdict {
    /// Whether it removes something.
    pub fn removes(self) -> bool
        ensures { result ≡ removes self }
    {
        !matches!(self, Verdict::Stays)
    }
}

// Words and a slot are two parameters and no struct: the words are the caller's, and what a slot links to is known of them only until a write.
/// Does what the verdict says to the record that the slot links to, and returns the slot that follows.
pub fn perform(words: &mut [u32], slot: usize, verdict: Verdict) -> usize
    requires { LinksRecord words.old slot }
    ensures { (h : Head) (children rest : Chain) → Linked words.old slot (link h children rest) → Step words.old words.new slot (link h children rest) (left_of verdict h children) result }
{
    let n = words[slot];
    match verdict {
        Verdict::Stays => next_slot(n),
        Verdict::Empties => {
            empty(words, slot);
            next_slot(n)
        }
        Verdict::Unlinks => lift(words, slot, 0),
        Verdict::Restates => {
            restate(words, slot);
            next_slot(n)
        }
        Verdict::Yields => {
            let value = next_of(words, first_of(words, n));
            lift(words, slot, value)
        }
        Verdict::Unwraps => {
            let object = wrapped_object(words, n);
            lift(words, slot, object)
        }
    }
}

/// The link to the Object that the Call `n` wraps: below the callee, its Function, the Block and the return.
fn wrapped_object(words: &[u32], n: u32) -> u32
    ensures { (c : Chain) → Holds words.now n c → Holds words.now result (wrapped_object (below c)) }
{
    let callee = first_of(words, n);
    let function = first_of(words, callee);
    let block = first_of(words, function);
    let returned = first_of(words, block);
    first_of(words, returned)
}
