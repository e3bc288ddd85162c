ghost use Rattle.std.specs.Prelude.{◌≡◌, ◌<◌, length};
ghost use Rattle.rules.specs.Tree.Chain.{end, link};
ghost use Rattle.rules.specs.Kinds.{empty_statement, expression_statement};
ghost use Rattle.rules.specs.Removal.{become, joined};
ghost use Rattle.edit.specs.Slots.{LinksChain, LinksRecord, Turns, TurnsRecord, wrapped};

use crate::lists::gather;
use crate::slots::{first_slot, next_of};
use records::Kind;
use records::write::{set_first, set_next, turn_into};

/// Makes the record that the slot links to an Empty without children.
pub fn empty(words: &mut [u32], slot: usize)
    requires { slot < length words.old }
    ensures { TurnsRecord (λ h children rest. link (become empty_statement h) end rest) words.old words.new slot }
{
    let n = words[slot];
    set_first(words, n, 0);
    turn_into(words, n, Kind::Empty);
}

/// Puts their values in the place of the Declarators that the slot links to, several under a plain expression in the first one's record.
pub fn join(words: &mut [u32], slot: usize)
    requires { LinksChain words.old slot }
    ensures { Turns joined words.old words.new slot }
{
    let first = words[slot];
    gather(words, slot);
    if next_of(words, words[slot]) != 0 {
        wrap(words, slot, first);
    }
}

/// Makes the Var that the slot links to an Expression statement of the values of its Declarators.
pub fn restate(words: &mut [u32], slot: usize)
    requires { LinksRecord words.old slot }
    ensures { TurnsRecord (λ h children rest. link (become expression_statement h) (joined children) rest) words.old words.new slot }
{
    let n = words[slot];
    join(words, first_slot(n));
    turn_into(words, n, Kind::ExpressionStatement);
}

/// Puts the chain that the slot links to under a plain expression in record `d`.
fn wrap(words: &mut [u32], slot: usize, d: u32)
    requires { slot < length words.old }
    ensures { words.new ≡ wrapped words.old slot d }
{
    let chain = words[slot];
    set_first(words, d, chain);
    set_next(words, d, 0);
    turn_into(words, d, Kind::PlainExpression);
    words[slot] = d;
}
