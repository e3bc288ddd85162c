#![tactic(auto)]

mod marking;
mod seen;

pub use marking::{mark_declared, mark_parameters};
