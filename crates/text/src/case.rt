// What a case is made of.
ghost use Rattle.std.specs.Prelude.{◌≡◌, ℕ, List, string_bytes};
ghost use Rattle.text.specs.declared.case.Settings.{Settings};
ghost use Rattle.text.specs.declared.case.TableLengths.{TableLengths};
ghost use Rattle.text.specs.Lines.{name_of, bit, settings_of, lengths_of, call};

use crate::fault::Problem;
use crate::words::{FromLine, FromWord, SPACE, read_numbers};
use std::alloc::Global;
use std::str::from_utf8;

/// Which expressions are taken to act.
#[derive(Clone, Copy, PartialEq, Eq, Debug)]
pub enum Judge {
    /// The plain judge, with the mark of unresolved names.
    Plain { unresolved: u32 },
    /// The cautious judge.
    Cautious,
}

/// How the shaker is set.
#[derive(Clone, Copy, PartialEq, Eq, Debug)]
pub struct Settings {
    pub top_level: bool,
    pub preserve_imports: bool,
    pub judge: Judge,
}

/// The lengths of the tables, in words.
#[derive(Clone, Copy, PartialEq, Eq, Debug)]
pub struct TableLengths {
    pub declared: u32,
    pub names: u32,
    pub edges: u32,
}

/// One call of the shaker.
#[derive(Clone, Copy, PartialEq, Eq, Debug)]
pub enum Call {
    Begin,
    Pass,
    Reset,
    Repeat,
}

/// A tree with what is to be done to it.
#[derive(Drop)]
pub struct Case {
    pub name: String,
    pub settings: Settings,
    pub retain: Vec<u32>,
    pub tables: TableLengths,
    pub tree: Vec<u32>,
    pub calls: Vec<Call>,
}

impl FromWord for Call {
    ghost meaning = { call };

    fn from_word(word: &[u8]) -> Result<Call, Problem> {
        match word {
            b"begin" => Ok(Call::Begin),
            b"pass" => Ok(Call::Pass),
            b"reset" => Ok(Call::Reset),
            b"repeat" => Ok(Call::Repeat),
            _ => Err(Problem::UnknownCall),
        }
    }
}

// A name: one word of ASCII.
impl FromLine for String {
    ghost Said = { List ℕ };

    ghost meaning = { name_of };

    ghost said = { string_bytes };

    fn from_line(heap: Global, content: &[u8]) -> Result<String, Problem> {
        if content.is_empty() || content.contains(&SPACE) {
            return Err(Problem::WrongCount);
        }
        match from_utf8(content) {
            Ok(name) if name.is_ascii() => Ok(String::from_str(heap, name)?),
            _ => Err(Problem::NotText),
        }
    }
}

// Reads a setting that is on or off. By hand, since std has no `TryFrom` from a number to a bool.
fn read_bit(n: u32) -> Result<bool, Problem>
    ensures { result ≡ bit n }
{
    match n {
        0 => Ok(false),
        1 => Ok(true),
        _ => Err(Problem::NotASetting),
    }
}

// The settings: top level, preserve imports, judge and mark.
impl FromLine for Settings {
    ghost Said = { Settings };

    ghost meaning = { settings_of };

    ghost said = { λ s. s };

    fn from_line(heap: Global, content: &[u8]) -> Result<Settings, Problem> {
        let numbers = read_numbers(heap, content)?;
        let &[top_level, preserve_imports, cautious, unresolved] = numbers.as_slice() else {
            return Err(Problem::WrongCount);
        };
        Ok(Settings {
            top_level: read_bit(top_level)?,
            preserve_imports: read_bit(preserve_imports)?,
            judge: if read_bit(cautious)? {
                Judge::Cautious
            } else {
                Judge::Plain { unresolved }
            },
        })
    }
}

// The lengths of the tables: declared, names and edges.
impl FromLine for TableLengths {
    ghost Said = { TableLengths };

    ghost meaning = { lengths_of };

    ghost said = { λ t. t };

    fn from_line(heap: Global, content: &[u8]) -> Result<TableLengths, Problem> {
        let numbers = read_numbers(heap, content)?;
        let &[declared, names, edges] = numbers.as_slice() else {
            return Err(Problem::WrongCount);
        };
        Ok(TableLengths {
            declared,
            names,
            edges,
        })
    }
}
