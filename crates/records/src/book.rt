ghost use Rattle.records.specs.Equality.{KindsByWords, IdsByNames};

use crate::id::Id;
use crate::kind::Kind;

/// What `==` comes to in the book's words, for kinds and names.
pub fn equality_is_the_books()
    ensures kinds { KindsByWords ⟦<Kind as PartialEq>⟧.eq }
    ensures ids { IdsByNames ⟦<Id as PartialEq>⟧.eq }
{}
