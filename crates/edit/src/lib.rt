#![tactic(auto)]

pub mod kinds;
pub mod lifting;
pub mod lists;
pub mod slots;

pub use kinds::{empty, join, restate};
pub use lifting::lift;
pub use lists::{gather, sweep};
