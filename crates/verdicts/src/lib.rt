#![tactic(auto)]

pub mod basis;
pub mod goes;
pub mod tree_shaker;
pub mod wraps;

pub use basis::{Basis, Config};
pub use shaker::perform::Verdict;
pub use shaker::place::Place;
pub use tree_shaker::TreeShaker;
