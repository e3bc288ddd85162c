ghost use Rattle.std.specs.Prelude.{◌≡◌, Some};
ghost use Rattle.rules.specs.Refusals.{bad_lengths};
ghost use Rattle.checker.specs.Faults as checks;
ghost use Rattle.tables.specs.Faults as fills;
ghost use Rattle.analyzer.specs.CountFaults as counts;
ghost use Rattle.dce.specs.Faults as calls;
ghost use Rattle.answers.specs.Returned.{told, answer_text};

use analyzer::CountFault;
use checker::CheckFault;
use dce::{BeginFault, LengthsFault, PassFault};
use std::fmt;
use tables::TableFault;

// Any number may be told, also one that no fault has: an enum would ask more of who tells it.
/// Why a call was refused: the number of the refusal, and the record that it names.
#[derive(Clone, Copy)]
pub struct Refusal {
    pub number: u32,
    pub record: u32,
}

/// What a call returned.
#[derive(Clone, Copy)]
pub enum Answer {
    Begin(Result<(), Refusal>),
    Reset(Result<(), Refusal>),
    Pass(Result<bool, Refusal>),
    Repeat {
        passes: u32,
        reached: Result<u32, Refusal>,
    },
}

impl From<CheckFault> for Refusal {
    ghost from_gives = { λ e r. r ≡ record { number = checks.number e; «record» = checks.place e } };

    /// The check refused the tree.
    fn from(fault: CheckFault) -> Refusal {
        Refusal {
            number: fault.number(),
            record: fault.place(),
        }
    }
}

impl From<TableFault> for Refusal {
    ghost from_gives = { λ e r. r ≡ record { number = fills.number e; «record» = fills.place e } };

    /// A table was full.
    fn from(fault: TableFault) -> Refusal {
        let (number, record) = match fault {
            TableFault::Declared(at) => (5, at),
            TableFault::Names(at) => (6, at),
            TableFault::Edges(at) => (7, at),
        };
        Refusal { number, record }
    }
}

impl From<CountFault> for Refusal {
    ghost from_gives = { λ e r. r ≡ record { number = counts.number e; «record» = counts.place e } };

    /// A count was stopped.
    fn from(fault: CountFault) -> Refusal {
        let CountFault::Table(fault) = fault;
        fault.into()
    }
}

impl From<LengthsFault> for Refusal {
    ghost from_gives = { λ _ r. r ≡ record { number = bad_lengths; «record» = 0 } };

    /// The lengths do not fit.
    fn from(_: LengthsFault) -> Refusal {
        Refusal {
            number: 1,
            record: 0,
        }
    }
}

impl From<BeginFault> for Refusal {
    ghost from_gives = { λ e r. r ≡ record { number = calls.begin_number e; «record» = 0 } };

    /// A shaker was not begun.
    fn from(fault: BeginFault) -> Refusal {
        match fault {
            BeginFault::Lengths(fault) => fault.into(),
            BeginFault::Memory => Refusal {
                number: 13,
                record: 0,
            },
        }
    }
}

impl From<PassFault> for Refusal {
    ghost from_gives = { λ e r. r ≡ record { number = calls.number e; «record» = calls.place e } };

    /// A pass was refused.
    fn from(fault: PassFault) -> Refusal {
        match fault {
            PassFault::Lengths(fault) => fault.into(),
            PassFault::Check(fault) => fault.into(),
            PassFault::Count(fault) => fault.into(),
        }
    }
}

impl fmt::Display for Refusal {
    ghost output = { λ r. Some (told r) };

    /// Writes that a call was refused.
    fn fmt<W: fmt::Write>(&self, f: &mut fmt::Formatter<W>) -> fmt::Result {
        let number = self.number;
        let record = self.record;
        write!(f, "refused {number} {record}")
    }
}

impl fmt::Display for Answer {
    ghost output = { λ a. Some (answer_text a) };

    /// Writes what a call returned.
    fn fmt<W: fmt::Write>(&self, f: &mut fmt::Formatter<W>) -> fmt::Result {
        match self {
            Answer::Begin(Ok(())) => f.write_str("begin ok"),
            Answer::Begin(Err(refusal)) => write!(f, "begin {refusal}"),
            Answer::Reset(Ok(())) => f.write_str("reset ok"),
            Answer::Reset(Err(refusal)) => write!(f, "reset {refusal}"),
            Answer::Pass(Ok(false)) => f.write_str("pass ok 0"),
            Answer::Pass(Ok(true)) => f.write_str("pass ok 1"),
            Answer::Pass(Err(refusal)) => write!(f, "pass {refusal}"),
            Answer::Repeat {
                passes,
                reached: Ok(reached),
            } => write!(f, "repeat ok {passes} {reached}"),
            Answer::Repeat {
                passes,
                reached: Err(refusal),
            } => write!(f, "repeat {refusal} {passes}"),
        }
    }
}
