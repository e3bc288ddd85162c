#![tactic(auto)]

pub mod root;
pub mod treat;

pub use root::remove;
