ghost use Rattle.std.specs.Prelude.{◌≡◌, ℕ, List, slice_index};
ghost use Rattle.rules.specs.Refusals.Outcome.{fine};
ghost use Rattle.rules.specs.Words.{tree_of};
ghost use Rattle.rules.specs.Check.{check};
ghost use Rattle.rules.specs.Held.{Numbers};
ghost use Rattle.rules.specs.Tables.{NameRow, read_declared};
ghost use Rattle.rules.specs.Removal.{at_root, going_by};
ghost use Rattle.rules.specs.Removal as book;
ghost use Rattle.edit.specs.Slots.{owner};
ghost use Rattle.tables.specs.Matching.{NamesHeld};
ghost use Rattle.verdicts.specs.Grounds.{config_of};
ghost use Rattle.verdicts.specs.Shaking.{by_shaker};

use crate::treat::visit_mut_stmt_likes;
use edit::slots::first_slot;
use judge::Judge;
use records::{Children, MOST_NESTING, ROOT};
use shaker::Place;
use verdicts::TreeShaker;

/// Removes from a checked tree what the rules take, and says whether something was removed.
pub fn remove<J: Judge>(shaker: &TreeShaker<'_, J>, words: &mut [u32]) -> bool
    requires tree { check words.old ≡ fine (tree_of words.old 1) }
    ensures tree { check words.new ≡ fine (book.treat (by_shaker J.Judge.acts shaker.now) at_root (tree_of words.old 1)).chain }
    ensures changed { result ≡ (book.treat (by_shaker J.Judge.acts shaker.now) at_root (tree_of words.old 1)).changed }
    ensures by { (found : List ℕ) (rs : List NameRow) → NamesHeld found rs shaker.now.basis.names.now → by_shaker J.Judge.acts shaker.now ≡ going_by (config_of shaker.now.basis.config (J.Judge.acts shaker.now.judge.now) shaker.now.basis.retain.now) (read_declared shaker.now.basis.declared.now) rs }
    ensures others { (j : ℕ) → (Numbers (owner j) (tree_of words.old 1) → ⊥) → slice_index words.new j ≡ slice_index words.old j }
{
    let place = Place::at_root();
    let root = Children::of(words, ROOT).chain();
    if !place.enters_at(root) {
        return false;
    }
    let inside = place.below(root);
    visit_mut_stmt_likes(shaker, inside, words, first_slot(ROOT), MOST_NESTING)
}
