// The answers of a case as text, and their comparison with stored ones.
#![tactic(auto)]

mod answer;
mod call;
mod compare;
mod rows;
mod tree;

pub use answer::{Answer, Refusal};
pub use call::CallText;
pub use compare::{Difference, agreed};
pub use rows::TableText;
pub use tree::TreeText;

#[cfg(test)]
mod tests;
