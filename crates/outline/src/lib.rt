// A checked tree, its outline in walk order, and the names that it declares.
#![tactic(auto)]

mod counted;
mod declared;
mod found;
mod lines;
mod tree;

pub use declared::Named;
pub use lines::OutlineLine;
pub use tree::CheckedTree;
