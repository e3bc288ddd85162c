ghost use Rattle.std.specs.Prelude.{Some};
ghost use Rattle.records.specs.Ids.{id_text};

use std::fmt;

/// A name: its symbol and its mark.
#[derive(Clone, Copy, PartialEq, Eq, Default, Debug)]
pub struct Id {
    pub symbol: u32,
    pub mark: u32,
}

impl fmt::Display for Id {
    ghost output = { λ id. Some (id_text id) };

    /// Writes the symbol and the mark with a colon between them.
    fn fmt<W: fmt::Write>(&self, f: &mut fmt::Formatter<W>) -> fmt::Result {
        let symbol = self.symbol;
        let mark = self.mark;
        write!(f, "{symbol}:{mark}")
    }
}
