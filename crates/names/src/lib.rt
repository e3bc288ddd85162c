#![tactic(auto)]

pub mod bound;
pub mod declared;
pub mod exported;
pub mod sink;
mod walk;

pub use bound::bound_names;
pub use declared::{declared_below, declared_names};
pub use exported::exported_names;
pub use sink::NameSink;
