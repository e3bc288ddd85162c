// What can be wrong with a text of cases, and at which line.
ghost use Rattle.std.specs.Prelude.{◌≡◌};
ghost use Rattle.std.specs.Str.{bytes_eq};
ghost use Rattle.text.specs.declared.fault.Problem.TheVariants.{Memory};
ghost use Rattle.text.specs.Keywords.{spelling};

use std::alloc::{AllocError, AllocFailed};
use std::fmt;
use thiserror::Error;

/// The word that a line begins with.
#[derive(Clone, Copy, PartialEq, Eq, Debug)]
pub enum Keyword {
    Case,
    Set,
    Retain,
    Tables,
    Tree,
    Calls,
    End,
}

impl Keyword {
    // The keywords, in the order of a case's lines.
    pub(crate) const ALL: [Keyword; 7] = [
        Keyword::Case,
        Keyword::Set,
        Keyword::Retain,
        Keyword::Tables,
        Keyword::Tree,
        Keyword::Calls,
        Keyword::End,
    ];

    /// The keyword as it is written.
    pub fn word(self) -> &'static str
        ensures { result.now ≡ spelling self }
    {
        match self {
            Keyword::Case => "case",
            Keyword::Set => "set",
            Keyword::Retain => "retain",
            Keyword::Tables => "tables",
            Keyword::Tree => "tree",
            Keyword::Calls => "calls",
            Keyword::End => "end",
        }
    }

    // Whether the bytes are the keyword as it is written.
    pub(crate) fn spells(self, word: &[u8]) -> bool
        ensures { result ≡ bytes_eq word.now (spelling self) }
    {
        word == self.word().as_bytes()
    }
}

/// What is wrong with a line.
#[derive(Clone, Copy, PartialEq, Eq, Debug, Error)]
pub enum Problem {
    /// It begins with no keyword.
    #[error("the line begins with none of case, set, retain, tables, tree, calls and end")]
    UnknownLine,
    /// It begins with a keyword, and another one is due.
    #[error("a line beginning with {0} is due here")]
    Expected(Keyword),
    /// A word is written with other bytes than digits.
    #[error("a word is not a decimal number")]
    NotANumber,
    /// A number is 2^32 or more.
    #[error("a number is not below 2^32")]
    TooLarge,
    /// There are more or fewer words than the line wants.
    #[error("the line has too few or too many words")]
    WrongCount,
    /// A setting is neither 0 nor 1.
    #[error("a setting is neither 0 nor 1")]
    NotASetting,
    /// A call is none of begin, pass, reset and repeat.
    #[error("a call is none of begin, pass, reset and repeat")]
    UnknownCall,
    /// A name has a byte that is not ASCII.
    #[error("the name has a byte that is not ASCII")]
    NotText,
    /// The text ended before the case did.
    #[error("the text ends inside a case")]
    EndMissing,
    /// There was no memory to hold what was read.
    #[error("there is no memory left")]
    Memory,
}

/// A problem with the line that has it, counted from 1.
#[derive(Clone, Copy, PartialEq, Eq, Debug, Error)]
#[error("line {line}: {problem}")]
pub struct TextFault {
    pub line: usize,
    pub problem: Problem,
}

// By hand, as the next one: contracts name the problem that a `?` makes, and a derived `From` has no contract.
impl From<AllocError> for Problem {
    ghost from_gives = { λ _ r. r ≡ Memory };

    fn from(_e: AllocError) -> Problem {
        Problem::Memory
    }
}

impl<T: Drop> From<AllocFailed<T>> for Problem {
    ghost from_gives = { λ _ r. r ≡ Memory };

    fn from(_e: AllocFailed<T>) -> Problem {
        Problem::Memory
    }
}

impl fmt::Display for Keyword {
    fn fmt<W: fmt::Write>(&self, f: &mut fmt::Formatter<W>) -> fmt::Result {
        f.write_str(self.word())
    }
}
