ghost use Rattle.std.specs.Prelude.{◌≡◌, ◌<◌};
ghost use Rattle.records.specs.KindWords.{kind_word};
ghost use Rattle.records.specs.Writes.{with_word, turned};

use crate::kind::Kind;
use crate::record::start_of;
use crate::{FIRST, NEXT};

// Two names for two fields of `set_word`, which is the one text of both: a field among the parameters would say no more.
/// Writes the link of record `n` to its first child; where there is no such record, nothing.
pub fn set_first(words: &mut [u32], n: u32, link: u32)
    ensures { words.new ≡ with_word words.old n 4 link }
{
    set_word(words, n, FIRST, link);
}

/// Writes the link of record `n` to the next of its chain; where there is no such record, nothing.
pub fn set_next(words: &mut [u32], n: u32, link: u32)
    ensures { words.new ≡ with_word words.old n 5 link }
{
    set_word(words, n, NEXT, link);
}

/// Makes record `n` one of this kind, without flags and without a name, and leaves its links; where there is no such record, nothing.
pub fn turn_into(words: &mut [u32], n: u32, kind: Kind)
    ensures { words.new ≡ turned words.old n (kind_word kind) }
{
    if let Some(start) = start_of(words, n) {
        words[start..start + FIRST].copy_from_slice(&[u32::from(kind), 0, 0, 0]);
    }
}

/// Writes word `i` of record `n`, if the record is there.
fn set_word(words: &mut [u32], n: u32, i: usize, value: u32)
    requires { i < 6 }
    ensures { words.new ≡ with_word words.old n i value }
{
    if let Some(start) = start_of(words, n) {
        words[start + i] = value;
    }
}
