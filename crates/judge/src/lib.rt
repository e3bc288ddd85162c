#![tactic(auto)]

mod cautious;
mod judge;
mod plain;

pub use cautious::Cautious;
pub use judge::Judge;
pub use plain::Plain;
