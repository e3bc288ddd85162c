ghost use Rattle.rules.specs.Tree.{Chain};
ghost use Rattle.edit.specs.Slots.{Lift, Step};

use crate::slots::{next_of, next_slot};
use records::write::set_next;

// `v` is a link as a word of the tree has it, 0 for none: callers have read it there.
/// Lets the record that the slot links to give way to record `v` below it, or to none where `v` is 0, and returns the slot that follows.
pub fn lift(words: &mut [u32], slot: usize, v: u32) -> usize
    requires { (c : Chain) × (p : Chain) × Lift words.old slot v c p }
    ensures { (c : Chain) (p : Chain) → Lift words.old slot v c p → Step words.old words.new slot c p result }
{
    let rest = next_of(words, words[slot]);
    if v == 0 {
        words[slot] = rest;
        slot
    } else {
        words[slot] = v;
        set_next(words, v, rest);
        next_slot(v)
    }
}
