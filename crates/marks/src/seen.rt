ghost use Rattle.std.specs.Prelude.{◌≡◌, if◌then◌else◌};
ghost use Rattle.rules.specs.Names.{among};
ghost use Rattle.records.specs.Ids.{name_of_id};
ghost use Rattle.marks.specs.Noting.{is_new, note};

use records::Id;
use std::marker::Model;

/// The names noted in memory that the caller lends, since there is no heap: a pair of symbol and mark for each.
/// The first `free` pairs are free, and the last name stands right behind them.
#[derive(Drop)]
pub(crate) struct Noted<'s> {
    pairs: &'s mut [[u32; 2]],
    free: usize,
}

impl<'s> Model for Noted<'s> {
    ghost use Rattle.std.specs.Prelude.{◌≤◌, drop, length};
    ghost use Rattle.marks.specs.Noting.{Noting, names_in};

    ghost Value = { Noting };

    ghost view = { λ s. record { names = names_in (drop s.free s.pairs.now); room = s.free } };

    ghost invariant = { λ s. s.free ≤ length s.pairs.now };
}

impl<'s> Noted<'s> {
    ghost use Rattle.std.specs.Prelude.{◌/◌, [], length};

    /// No names yet, and room for as many as the words have pairs.
    pub(crate) fn none(words: &'s mut [u32]) -> Noted<'s>
        ensures none { result.names ≡ [] }
        ensures room { result.room ≡ length words.old / 2 }
    {
        let (pairs, _) = words.as_chunks_mut();
        let free = pairs.len();
        Noted { pairs, free }
    }

    /// Whether a name was noted, looking from the name noted first on.
    fn has(&self, id: Id) -> bool
        ensures { result ≡ among (name_of_id id) self.now.names }
    {
        self.pairs[self.free..]
            .iter()
            .rev()
            .any(|&[symbol, mark]| id == Id { symbol, mark })
    }

    /// Notes a name, unless it was noted or there is no room for it; whether it was new.
    pub(crate) fn note(&mut self, id: Id) -> bool
        ensures new { result ≡ is_new (name_of_id id) self.old }
        ensures noted { self.new ≡ (if result then note (name_of_id id) self.old else self.old) }
    {
        if self.free == 0 || self.has(id) {
            return false;
        }
        self.free -= 1;
        self.pairs[self.free] = [id.symbol, id.mark];
        true
    }
}
