// Refusals in sentences.
use analyzer::CountFault;
use answers::Refusal;
use dce::{BeginFault, PassFault, RepeatFault};
use std::fmt;
use tables::TableFault;

/// Why nothing was shaken, or no more than some passes were made.
#[derive(Clone, Copy)]
pub enum Refused {
    Begin(BeginFault),
    Repeat(RepeatFault),
}

impl fmt::Display for Refused {
    /// Writes the refusal's number, its record if it has one, and a sentence.
    fn fmt<W: fmt::Write>(&self, f: &mut fmt::Formatter<W>) -> fmt::Result {
        match *self {
            Refused::Begin(fault) => write_begin(f, fault),
            Refused::Repeat(RepeatFault { fault, passes: 0 }) => write_pass(f, fault),
            Refused::Repeat(RepeatFault { fault, passes }) => {
                write_pass(f, fault)?;
                write!(f, "; passes made before: {passes}")
            }
        }
    }
}

/// Writes why a shaker was not begun.
fn write_begin<W: fmt::Write>(f: &mut fmt::Formatter<W>, fault: BeginFault) -> fmt::Result {
    let refusal = Refusal::from(fault);
    let number = refusal.number;
    let reason = match fault {
        BeginFault::Lengths(_) => LENGTHS,
        BeginFault::Memory => "there is no memory for the work",
    };
    write!(f, "refused {number}: {reason}")
}

/// Writes why a pass was refused.
fn write_pass<W: fmt::Write>(f: &mut fmt::Formatter<W>, fault: PassFault) -> fmt::Result {
    match fault {
        PassFault::Lengths(fault) => write_begin(f, BeginFault::Lengths(fault)),
        PassFault::Check(fault) => write!(f, "{fault}"),
        PassFault::Count(CountFault::Table(full)) => write_full(f, full),
    }
}

/// Writes which table is full, and at which record.
fn write_full<W: fmt::Write>(f: &mut fmt::Formatter<W>, full: TableFault) -> fmt::Result {
    let refusal = Refusal::from(full);
    let number = refusal.number;
    let record = refusal.record;
    let table = match full {
        TableFault::Declared(_) => "declared names",
        TableFault::Names(_) => "names",
        TableFault::Edges(_) => "edges",
    };
    write!(
        f,
        "refused {number} at record {record}: the table of {table} is full"
    )
}

/// What is wrong with lengths.
const LENGTHS: &str =
    "the tree has no words, too many, or no whole number of records; or a table or the retain list is too long";
