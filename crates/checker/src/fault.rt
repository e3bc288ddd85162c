ghost use Rattle.std.specs.Prelude.{◌≡◌};
ghost use Rattle.checker.specs.Faults.{number, place};

use std::error::Error;
use std::fmt;

/// Why words are no tree, with the link or record at which it shows.
#[derive(Clone, Copy, PartialEq, Eq, Debug)]
pub enum CheckFault {
    /// Too few words, too many, or no whole number of records.
    Lengths,
    /// A link leads past the tree, or to a record that was reached before.
    Link(u32),
    /// A record is nested too deep.
    Deep(u32),
    /// A record is against the table of kinds, or its children end too early, or the root has a next.
    Misfit(u32),
}

impl CheckFault {
    /// The number of the refusal.
    pub fn number(self) -> u32
        ensures { result ≡ number self }
    {
        match self {
            CheckFault::Lengths => 1,
            CheckFault::Link(_) => 2,
            CheckFault::Deep(_) => 3,
            CheckFault::Misfit(_) => 4,
        }
    }

    // No `Option`: the format of a refusal has a number there, and record 0 is none.
    /// The link or record at which it shows; 0 where there is none.
    pub fn place(self) -> u32
        ensures { result ≡ place self }
    {
        match self {
            CheckFault::Lengths => 0,
            CheckFault::Link(n) | CheckFault::Deep(n) | CheckFault::Misfit(n) => n,
        }
    }
}

// By hand, with `Error`: by `number` and `place` it is one `write!`, and a derive would say the numbers again.
impl fmt::Display for CheckFault {
    /// Writes the refusal's number, its record, and a sentence.
    fn fmt<W: fmt::Write>(&self, f: &mut fmt::Formatter<W>) -> fmt::Result {
        let number = self.number();
        let place = self.place();
        let reason = match self {
            CheckFault::Lengths => "there are no words, too many, or no whole number of records",
            CheckFault::Link(_) => {
                "the link leads past the tree, or to a record that was reached before"
            }
            CheckFault::Deep(_) => "the record is nested deeper than 128",
            CheckFault::Misfit(_) => {
                "the record is against the table of kinds, or its children end too early"
            }
        };
        write!(f, "refused {number} at record {place}: {reason}")
    }
}

impl Error for CheckFault {}
