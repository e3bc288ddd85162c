#![tactic(auto)]

pub mod data;
pub mod event;

pub use data::{Data, add_reference};
pub use event::{Event, count_name};
