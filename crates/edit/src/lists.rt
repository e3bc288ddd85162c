ghost use Rattle.rules.specs.Tree.{Chain};
ghost use Rattle.rules.specs.Removal.{swept, values};
ghost use Rattle.edit.specs.Slots.{LinksChain, Turns, Leaves, Thins};

use crate::lifting::lift;
use crate::slots::{first_of, is_nothing, next_of, next_slot};

// Words and a slot are two parameters and no struct: the words are the caller's, and what a slot links to is known of them only until a write.

/// Unlinks each Empty and each childless Block of the list that the slot links to.
pub fn sweep(words: &mut [u32], slot: usize)
    requires { LinksChain words.old slot }
    ensures { Turns swept words.old words.new slot }
{
    thin(words, slot, without_nothing);
}

/// Puts its value in the place of each Declarator of the chain that the slot links to; one without a value is unlinked.
pub fn gather(words: &mut [u32], slot: usize)
    requires { LinksChain words.old slot }
    ensures { Turns values words.old words.new slot }
{
    thin(words, slot, value_alone);
}

/// Lets each record of the chain that the slot links to stay, or give way to the record below it that `heir` names, or to none where that is 0.
fn thin<F: Fn(&[u32], u32) -> Option<u32>>(words: &mut [u32], slot: usize, heir: F)
    requires linked { LinksChain words.old slot }
    requires callable { F.IsAlwaysCallable heir }
    requires thins { (left : Chain → Chain) × Thins (F.post heir) left }
    ensures { (left : Chain → Chain) → Thins (F.post heir) left → Turns left words.old words.new slot }
{
    let mut at = slot;
    // It follows the links of words that it changes, which no iterator over them can.
    while words[at] != 0 {
        at = match heir(words, words[at]) {
            Some(v) => lift(words, at, v),
            None => next_slot(words[at]),
        };
    }
}

/// What a list drops gives way to none; the rest stays.
fn without_nothing(words: &[u32], n: u32) -> Option<u32>
    ensures { Leaves swept words.now n result }
{
    is_nothing(words, n).then_some(0)
}

/// A Declarator gives way to its value.
fn value_alone(words: &[u32], n: u32) -> Option<u32>
    ensures { Leaves values words.now n result }
{
    Some(next_of(words, first_of(words, n)))
}
