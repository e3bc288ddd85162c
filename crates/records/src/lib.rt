#![tactic(auto)]

pub mod book;
pub mod children;
pub mod id;
pub mod kind;
pub mod links;
pub mod record;
pub mod write;

pub use children::{Children, Node};
pub use id::Id;
pub use kind::Kind;
pub use links::Links;
pub use record::Record;

#[cfg(test)]
mod tests;

/// The number of a tree's first record.
pub const ROOT: u32 = 1;

/// How many words a record has.
pub const RECORD_WORDS: usize = 6;

/// The most records on a way down.
pub const MOST_NESTING: usize = 128;

/// Which word of a record links to its first child.
pub const FIRST: usize = 4;

/// Which word of a record links to the next of its chain.
pub const NEXT: usize = 5;
