#![tactic(auto)]

pub mod basis;
pub mod perform;
pub mod place;

pub use basis::Basis;
pub use perform::Verdict;
pub use place::{Place, VarDeclKind};
