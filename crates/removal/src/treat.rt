ghost use Rattle.std.specs.Prelude.{◌≡◌};
ghost use Rattle.rules.specs.Tree.{Head, Chain};
ghost use Rattle.rules.specs.Tree.Chain.{link};
ghost use Rattle.rules.specs.Removal.{swept};
ghost use Rattle.rules.specs.Removal as book;
ghost use Rattle.edit.specs.Slots.{Made};
ghost use Rattle.shaker.specs.Places.{place_of};
ghost use Rattle.shaker.specs.Treating.{Nested};
ghost use Rattle.removal.specs.Turns.{Treats};

use edit::slots::{first_slot, next_slot};
use edit::sweep;
use records::Children;
use shaker::perform::perform;
use shaker::place::first_has_list;
use shaker::{Basis, Place};

/// What a turn along a chain came to: the slot that follows, and whether something was removed.
#[derive(Clone, Copy)]
struct Turn {
    next: usize,
    changed: bool,
}

// Words and a slot are two parameters and no struct: the words are the caller's, and what a slot links to is known of them only until a write.

/// Treats the chain that the slot links to, each record after its children, and says whether something was removed.
#[cycle(treating)]
pub fn treat<B: Basis>(basis: &B, place: Place, words: &mut [u32], slot: usize, left: usize) -> bool
    requires { (c : Chain) × Nested words.old slot left c }
    ensures made { (c : Chain) → Nested words.old slot left c → Made words.old words.new slot c (book.treat (B.Basis.by basis.now) (place_of place) c).chain }
    ensures changed { (c : Chain) → Nested words.old slot left c → result ≡ (book.treat (B.Basis.by basis.now) (place_of place) c).changed }
{
    let mut changed = false;
    let mut at = slot;
    // It follows the links of words that it changes, which no iterator over them can.
    while words[at] != 0 {
        let turn = treat_record(basis, place, words, at, left);
        at = turn.next;
        changed |= turn.changed;
    }
    changed
}

/// Treats the statements or items of a list, then unlinks each Empty and each childless Block, and says whether the treating removed something.
#[cycle(treating)]
pub fn visit_mut_stmt_likes<B: Basis>(
    basis: &B,
    place: Place,
    words: &mut [u32],
    slot: usize,
    left: usize,
) -> bool
    requires { (c : Chain) × Nested words.old slot left c }
    ensures made { (c : Chain) → Nested words.old slot left c → Made words.old words.new slot c (swept (book.treat (B.Basis.by basis.now) (place_of place) c).chain) }
    ensures changed { (c : Chain) → Nested words.old slot left c → result ≡ (book.treat (B.Basis.by basis.now) (place_of place) c).changed }
{
    let changed = treat(basis, place, words, slot, left);
    sweep(words, slot);
    changed
}

// Inlined: a call of its own for each record takes a tenth of the whole.
/// Treats the record that the slot links to, after its children.
#[inline(always)]
#[cycle(treating)]
fn treat_record<B: Basis>(
    basis: &B,
    place: Place,
    words: &mut [u32],
    slot: usize,
    left: usize,
) -> Turn
    requires { (h : Head) × (children : Chain) × (rest : Chain) × Nested words.old slot left (link h children rest) }
    ensures { (h : Head) (children rest : Chain) → Nested words.old slot left (link h children rest) → Treats (B.Basis.by basis.now) (place_of place) words.old words.new slot h children rest result.next result.changed }
{
    let n = words[slot];
    let found = Children::within(words, n, left);
    if !place.enters_at(found) {
        return Turn {
            next: next_slot(n),
            changed: false,
        };
    }
    let inside = place.below(found);
    let children = first_slot(n);
    if first_has_list(found) {
        return Turn {
            next: next_slot(n),
            changed: visit_mut_stmt_likes(basis, inside, words, children, left - 1),
        };
    }
    let had = words[children] != 0;
    let below = treat(basis, inside, words, children, left - 1);
    let verdict = basis.verdict(place, had, Children::within(words, n, left));
    let changed = below || verdict.removes();
    Turn {
        next: perform(words, slot, verdict),
        changed,
    }
}
