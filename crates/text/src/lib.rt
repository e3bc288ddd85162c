// The reader of cases: a tree, settings, table lengths and calls, written as lines of text.
#![tactic(auto)]

mod case;
mod cases;
mod fault;
mod words;

pub use case::{Call, Case, Judge, Settings, TableLengths};
pub use cases::Cases;
pub use fault::{Keyword, Problem, TextFault};
pub use words::{FromWord, read_numbers};
